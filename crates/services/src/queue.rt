// Queues: dequeue and enqueue. Each completes or waits, by what the queue holds; settling has asked that already and calls the one or the other.
ghost use Rattle.std.specs.Prelude.{◌≡◌, ◌*◌, ◌≤◌, length, true, []};
ghost use Rattle.tables.specs.Layout.{OneOf};
ghost use Rattle.tables.specs.Lent.{Step, GoesIf, GoesWithSlotsIf};
ghost use Rattle.tables.specs.Shows.{AsWide};
ghost use Rattle.queues.specs.Rings.{RingFits, HasRoom, HoldsSome, DoesRing, DoesRingWithSlots};
ghost use Rattle.ledger.specs.Ledger as ledger;
ghost use Rattle.ledger.specs.Services as ledger_services;

use queues::Ring;
use tables::lent::Tables;
use tables::tasks::Request;

// The queue holds something: the oldest entry is taken, and the waiter of not-full woken.
pub fn complete_dequeue(tables: &mut Tables<'_>, slots: &mut [u8], ring: Ring, t: u8, q: u8)
    requires { RingFits tables.old.shape ring × OneOf tables.old.shape.queues q × OneOf tables.old.shape.tasks t × (16 * tables.old.shape.tasks ≤ length slots.old) }
    ensures { GoesWithSlotsIf tables.old slots.old tables.new slots.new
        (HoldsSome tables.old.shape ring q) (λ c L. ledger_services.issue c t (ledger.dequeue q) L) }
{
    queues::take(tables, slots, ring, q, t);
    let full = queues::not_full(tables, q);
    crate::semaphore::wake(tables, full);
}

// It is empty: the task waits on not-empty, with its request open.
pub fn wait_to_dequeue(tables: &mut Tables<'_>, t: u8, q: u8)
    requires { OneOf tables.old.shape.queues q × OneOf tables.old.shape.tasks t }
    ensures { GoesIf tables.old tables.new (λ c L. ledger.held (ledger.queue L q) ≡ []) (λ c L. ledger_services.issue c t (ledger.dequeue q) L) }
{
    let full = queues::not_full(tables, q);
    crate::semaphore::wait_for(tables, t, full - 1);
    tables.set_request(t, Request::Dequeue(q));
}

pub fn dequeue(tables: &mut Tables<'_>, slots: &mut [u8], ring: Ring, t: u8, q: u8)
    requires { RingFits tables.old.shape ring × OneOf tables.old.shape.queues q × OneOf tables.old.shape.tasks t × (16 * tables.old.shape.tasks ≤ length slots.old) }
    ensures { Step tables.old tables.new (λ s d d'. DoesRingWithSlots s d slots.old d' slots.new ring q (λ c L. ledger_services.issue c t (ledger.dequeue q) L)) }
{
    if queues::count(tables, ring, q) == 0 {
        wait_to_dequeue(tables, t, q);
        return;
    }
    complete_dequeue(tables, slots, ring, t, q);
}

// The queue is not full: the entry is put, and the waiter of not-empty woken.
pub fn complete_enqueue(tables: &mut Tables<'_>, ring: Ring, t: u8, q: u8, entry: &[u8])
    requires { RingFits tables.old.shape ring × OneOf tables.old.shape.queues q × (length entry.now ≡ ring.width) }
    ensures { GoesIf tables.old tables.new (HasRoom tables.old.shape ring q) (λ c L. ledger_services.issue c t (ledger.enqueue q entry.now) L) }
{
    queues::put(tables, ring, q, entry);
    let full = queues::not_full(tables, q);
    crate::semaphore::wake(tables, full - 1);
}

// It is full: the task waits on not-full, with its request open.
pub fn wait_to_enqueue(tables: &mut Tables<'_>, t: u8, q: u8, entry: &[u8])
    requires { OneOf tables.old.shape.queues q × OneOf tables.old.shape.tasks t × (length entry.now ≤ 16) }
    ensures { GoesIf tables.old tables.new (λ c L. AsWide q entry.now c L × (ledger_services.full c L q ≡ true))
        (λ c L. ledger_services.issue c t (ledger.enqueue q entry.now) L) }
{
    let full = queues::not_full(tables, q);
    crate::semaphore::wait_for(tables, t, full);
    tables.set_enqueue(t, q, entry);
}

pub fn enqueue(tables: &mut Tables<'_>, ring: Ring, t: u8, q: u8, entry: &[u8])
    requires { RingFits tables.old.shape ring × OneOf tables.old.shape.queues q × OneOf tables.old.shape.tasks t × (length entry.now ≡ ring.width) }
    ensures { Step tables.old tables.new (λ s d d'. DoesRing s d d' ring q (λ c L. ledger_services.issue c t (ledger.enqueue q entry.now) L)) }
{
    if queues::count(tables, ring, q) >= ring.depth {
        wait_to_enqueue(tables, t, q, entry);
        return;
    }
    complete_enqueue(tables, ring, t, q, entry);
}
