// What is read of a queue, and of the waits on it, in tables that are lent for reading alone: their bytes beside the shape.
ghost use Rattle.std.specs.Prelude.{◌≡◌, ◌-◌, length};
ghost use Rattle.tables.specs.Layout.{OneOf, Fits};
ghost use Rattle.ledger.specs.Refusals.{on_not_empty, on_not_full, meets21};
ghost use Rattle.queues.specs.Rings.{count_in, TellsRing};
ghost use Rattle.queues.specs.Waits.{not_full_of};

use crate::Ring;
use tables::counts::count_of;
use tables::shape::Shape;

// How many entries a queue holds.
pub fn count(tables: &[u8], shape: Shape, ring: Ring, q: u8) -> usize
    requires { Fits shape (length tables.now) × OneOf shape.queues q }
    ensures { result ≡ count_in shape ring tables.now (q - 1) }
{
    let at = shape.ringat + (q as usize - 1) * 2 + 1;
    count_of(ring.depth, tables[at])
}

// The semaphore not-full of a queue; not-empty is the one before it.
pub fn not_full(shape: Shape, q: u8) -> u8
    requires { Fits shape shape.end × OneOf shape.queues q }
    ensures { (result ≡ not_full_of shape q) × OneOf shape.semaphores result × OneOf shape.semaphores (result - 1) }
{
    (shape.named + shape.tasks + 2 * (q as usize)) as u8
}

// Whether a dequeue would wait where another task waits: on not-empty, if the queue is empty.
pub fn take_waits(tables: &[u8], shape: Shape, ring: Ring, q: u8) -> bool
    requires { Fits shape (length tables.now) × OneOf shape.queues q }
    ensures { TellsRing shape tables.now ring q (λ c L. meets21 c L on_not_empty q 0) result }
{
    if count(tables, shape, ring, q) != 0 {
        return false;
    }
    tables::semaphores::is_waiting(tables, shape, not_full(shape, q) - 1)
}

// Whether an enqueue would wait where another task waits: on not-full, if the queue is full.
pub fn put_waits(tables: &[u8], shape: Shape, ring: Ring, q: u8) -> bool
    requires { Fits shape (length tables.now) × OneOf shape.queues q }
    ensures { TellsRing shape tables.now ring q (λ c L. meets21 c L on_not_full q 0) result }
{
    if count(tables, shape, ring, q) < ring.depth {
        return false;
    }
    tables::semaphores::is_waiting(tables, shape, not_full(shape, q))
}
