// The queues in the lent memory: a ring each, its place and count in two bytes, its entries in the region of the bodies.
// Promises: putting and taking an entry is the ledger's own change, for every ledger that the memory shows.
// Rests on tables for the memory, and on rings for the entries.
#![tactic(auto)]

pub mod reading;

ghost use Rattle.std.specs.Prelude.{◌≡◌, ◌+◌, ◌-◌, ◌*◌, ◌<◌, ◌≤◌, length, set};
ghost use Rattle.tables.specs.Decode.{head_of};
ghost use Rattle.tables.specs.Layout.{OneOf};
ghost use Rattle.tables.specs.Lent.{Step, GoesIf};
ghost use Rattle.ledger.specs.Services.{put_entry};
ghost use Rattle.ledger.specs.Refusals.{on_not_empty, on_not_full, meets21};
ghost use Rattle.queues.specs.Rings.{RingFits, HasRoom, head_in, count_in, TellsRing, Takes};
ghost use Rattle.queues.specs.Taking.{Copied};
ghost use Rattle.queues.specs.Waits.{not_full_of};

use tables::lent::Tables;
use tables::tasks::Outcome;

// A queue's width and depth, and where its entries lie in the tables: of the configuration.
#[derive(Clone, Copy)]
pub struct Ring {
    pub width: usize,
    pub depth: usize,
    pub base: usize,
}

// A byte that names a place in a ring, the first where it names none.
fn head_of(depth: usize, x: u8) -> usize
    ensures { result ≡ head_of depth x }
{
    let at = x as usize;
    if at < depth { at } else { 0 }
}

// The place of the oldest entry.
fn head(tables: &Tables<'_>, ring: Ring, q: u8) -> usize
    requires { OneOf tables.now.shape.queues q }
    ensures { result ≡ head_in tables.now.shape ring tables.now.bytes.now (q - 1) }
{
    let at = tables.shape.ringat + (q as usize - 1) * 2;
    head_of(ring.depth, tables.bytes[at])
}

// How many entries a queue holds. This and what follows up to `put` is of tables that are lent for writing too.
pub fn count(tables: &Tables<'_>, ring: Ring, q: u8) -> usize
    requires { OneOf tables.now.shape.queues q }
    ensures { result ≡ count_in tables.now.shape ring tables.now.bytes.now (q - 1) }
{
    reading::count(tables.bytes, tables.shape, ring, q)
}

// The semaphore not-full of a queue; not-empty is the one before it.
pub fn not_full(tables: &Tables<'_>, q: u8) -> u8
    requires { OneOf tables.now.shape.queues q }
    ensures { (result ≡ not_full_of tables.now.shape q) × OneOf tables.now.shape.semaphores result × OneOf tables.now.shape.semaphores (result - 1) }
{
    reading::not_full(tables.shape, q)
}

// Whether a dequeue would wait where another task waits: on not-empty, if the queue is empty.
pub fn take_waits(tables: &Tables<'_>, ring: Ring, q: u8) -> bool
    requires { OneOf tables.now.shape.queues q }
    ensures { TellsRing tables.now.shape tables.now.bytes.now ring q (λ c L. meets21 c L on_not_empty q 0) result }
{
    reading::take_waits(tables.bytes, tables.shape, ring, q)
}

// Whether an enqueue would wait where another task waits: on not-full, if the queue is full.
pub fn put_waits(tables: &Tables<'_>, ring: Ring, q: u8) -> bool
    requires { OneOf tables.now.shape.queues q }
    ensures { TellsRing tables.now.shape tables.now.bytes.now ring q (λ c L. meets21 c L on_not_full q 0) result }
{
    reading::put_waits(tables.bytes, tables.shape, ring, q)
}

// Puts an entry behind those that the queue holds. The caller has seen that it is not full.
pub fn put(tables: &mut Tables<'_>, ring: Ring, q: u8, entry: &[u8])
    requires { RingFits tables.old.shape ring × OneOf tables.old.shape.queues q × (length entry.now ≡ ring.width) }
    ensures { GoesIf tables.old tables.new (HasRoom tables.old.shape ring q) (λ c L. put_entry q entry.now L) }
{
    let depth = ring.depth;
    let first = head(tables, ring, q);
    let many = count(tables, ring, q);
    if many >= depth {
        return;
    }
    let base = ring.base;
    let end = base + depth * ring.width;
    rings::put(
        &mut tables.bytes[base..end],
        first,
        many,
        ring.width,
        depth,
        entry,
    );
    let at = tables.shape.ringat + (q as usize - 1) * 2 + 1;
    tables.bytes[at] = (many + 1) as u8;
}

fn step_on(tables: &mut Tables<'_>, q: u8, next: u8, many: u8)
    requires { OneOf tables.old.shape.queues q }
    ensures { Step tables.old tables.new (λ s d d'. d' ≡ set (set d (s.ringat + (q - 1) * 2) next) (s.ringat + (q - 1) * 2 + 1) many) }
{
    let at = tables.shape.ringat + (q as usize - 1) * 2;
    tables.bytes[at] = next;
    tables.bytes[at + 1] = many;
}

// Copies the oldest of `many` entries out, and gives the place of the next one.
fn copy_first(tables: &Tables<'_>, ring: Ring, first: usize, many: usize, slot: &mut [u8]) -> usize
    requires { RingFits tables.now.shape ring × (first < ring.depth) × (0 < many) × (many ≤ ring.depth) × (ring.width ≤ length slot.old) }
    ensures { Copied ring tables.now.bytes.now first many slot.old slot.new result }
{
    let base = ring.base;
    let end = base + ring.depth * ring.width;
    rings::take_out(
        &tables.bytes[base..end],
        first,
        many,
        ring.width,
        ring.depth,
        slot,
    )
}

// Takes the oldest entry into the slot of task t. The caller has seen that there is one.
pub fn take(tables: &mut Tables<'_>, slots: &mut [u8], ring: Ring, q: u8, t: u8)
    requires { RingFits tables.old.shape ring × OneOf tables.old.shape.queues q × OneOf tables.old.shape.tasks t × (16 * tables.old.shape.tasks ≤ length slots.old) }
    ensures { Step tables.old tables.new (λ s d d'. Takes s d slots.old d' slots.new ring t q) }
{
    let first = head(tables, ring, q);
    let many = count(tables, ring, q);
    if many == 0 {
        return;
    }
    let a = (t as usize - 1) * 16;
    let e = a + 16;
    let next = copy_first(tables, ring, first, many, &mut slots[a..e]);
    step_on(tables, q, next as u8, (many - 1) as u8);
    tables.set_outcome(t, Outcome::Entry(ring.width as u8));
}
