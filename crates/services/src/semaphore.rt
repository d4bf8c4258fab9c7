// Semaphores: signal, wait, and the waits of queues and timers. (Pend is a store.)
ghost use Rattle.std.specs.Prelude.{unwrap_or, IfSome};
ghost use Rattle.tables.specs.Layout.{OneOf};
ghost use Rattle.tables.specs.Lent.{Goes};
ghost use Rattle.tables.specs.Shows.{Tells};
ghost use Rattle.ledger.specs.Ledger.{woke, semaphore_of, set_outcome};
ghost use Rattle.ledger.specs.Services as ledger;

use tables::blocks::Block;
use tables::lent::Tables;
use tables::semaphores::Semaphore;
use tables::tasks::Outcome;

// Gives the task that it woke, if one. A number that no semaphore has signals nothing.
pub fn signal(tables: &mut Tables<'_>, b: u8) -> Option<u8>
    ensures does { Goes tables.old tables.new (λ c L. (ledger.signal b L).ledger) }
    ensures tells { Tells tables.old.shape tables.old.bytes.now (λ c L. (ledger.signal b L).woke) (unwrap_or result 0) }
    ensures task { IfSome result (OneOf tables.old.shape.tasks) }
{
    if b == 0 || b as usize > tables.shape.semaphores {
        return None;
    }
    signal_one(tables, b)
}

// A semaphore that there is: WAITING becomes PENDING and its task loses event wait, otherwise DONE.
fn signal_one(tables: &mut Tables<'_>, b: u8) -> Option<u8>
    requires { OneOf tables.old.shape.semaphores b }
    ensures does { Goes tables.old tables.new (λ c L. (ledger.signal b L).ledger) }
    ensures tells { Tells tables.old.shape tables.old.bytes.now (λ c L. (ledger.signal b L).woke) (unwrap_or result 0) }
    ensures task { IfSome result (OneOf tables.old.shape.tasks) }
{
    match tables.semaphore(b) {
        Semaphore::Pending => {
            tables.set_semaphore(b, Semaphore::Done);
            None
        }
        Semaphore::Done => {
            tables.set_semaphore(b, Semaphore::Done);
            None
        }
        Semaphore::Waiting(t) => {
            tables.set_semaphore(b, Semaphore::Pending);
            tables.set_block(t, Block::Event, false);
            Some(t)
        }
    }
}

// The signal request of task t, whose outcome says whom it woke: in that byte 0 is nobody.
pub fn signal_by(tables: &mut Tables<'_>, t: u8, b: u8)
    requires { OneOf tables.old.shape.tasks t }
    ensures { Goes tables.old tables.new (λ c L. let s = ledger.signal b L in set_outcome t (woke s.woke) s.ledger) }
{
    // No `unwrap_or`, which is a call of code that the theorems about runs can't name.
    let w = match signal(tables, b) {
        Some(w) => w,
        None => 0,
    };
    tables.set_outcome(t, Outcome::Woke(w));
}

// Wakes the waiter, if there is one, as by signal.
pub fn wake(tables: &mut Tables<'_>, b: u8)
    requires { OneOf tables.old.shape.semaphores b }
    ensures { Goes tables.old tables.new (λ c L. ledger.wake_waiter b L) }
{
    match tables.semaphore(b) {
        Semaphore::Pending => {}
        Semaphore::Done => {}
        Semaphore::Waiting(_) => {
            signal_one(tables, b);
        }
    }
}

// WAITING for t, whatever it was.
pub fn wait_for(tables: &mut Tables<'_>, t: u8, b: u8)
    requires { OneOf tables.old.shape.semaphores b × OneOf tables.old.shape.tasks t }
    ensures { Goes tables.old tables.new (λ c L. ledger.wait_for t b L) }
{
    tables.set_semaphore(b, Semaphore::Waiting(t));
    tables.set_block(t, Block::Event, true);
}

// PENDING becomes WAITING for t, DONE becomes PENDING.
fn waited(tables: &mut Tables<'_>, t: u8, b: u8)
    requires { OneOf tables.old.shape.semaphores b × OneOf tables.old.shape.tasks t }
    ensures { Goes tables.old tables.new (λ c L. ledger.waited (semaphore_of L b) t b L) }
{
    match tables.semaphore(b) {
        Semaphore::Pending => {
            wait_for(tables, t, b);
        }
        Semaphore::Done => {
            tables.set_semaphore(b, Semaphore::Pending);
        }
        Semaphore::Waiting(_) => {}
    }
}

pub fn wait(tables: &mut Tables<'_>, t: u8, b: u8)
    requires { OneOf tables.old.shape.semaphores b × OneOf tables.old.shape.tasks t }
    ensures { Goes tables.old tables.new (λ c L. ledger.wait t b L) }
{
    waited(tables, t, b);
    tables.set_outcome(t, Outcome::Semaphore(b));
}
