// Timers: delay, and the tick with the timers that it makes due.
ghost use Rattle.std.specs.Prelude.{length};
ghost use Rattle.clock.specs.Held.{Holds};
ghost use Rattle.tables.specs.Layout.{OneOf};
ghost use Rattle.tables.specs.Lent.{Step, GoesWithTimers};
ghost use Rattle.ledger.specs.Services as ledger;
ghost use Rattle.services.specs.Timers.{Delays};

use tables::lent::Tables;

// A timer is started, and its semaphore waits for its task.
pub fn delay(tables: &mut Tables<'_>, timers: &mut [u8], a: u8, b: u8, left: u32, period: u32)
    requires { Holds tables.old.shape (length timers.old) × OneOf tables.old.shape.tasks a × OneOf tables.old.shape.semaphores b }
    ensures { Step tables.old tables.new (λ s d d'. Delays s d timers.old d' timers.new a b left period) }
{
    clock::start(timers, tables.shape, a, b, left, period);
    crate::semaphore::wait_for(tables, a, b);
}

// One tick; each timer that is then due signals.
pub fn tick(tables: &mut Tables<'_>, timers: &mut [u8])
    requires { Holds tables.old.shape (length timers.old) }
    ensures { GoesWithTimers tables.old timers.old tables.new timers.new (λ c L. ledger.tick c L) }
{
    let n = clock::advance(tables, timers);
    for _ in 0..n {
        let b = clock::take_due(timers, tables.shape);
        crate::semaphore::signal(tables, b);
    }
}
