// Delay, timer, purge and season timer.
ghost use Rattle.std.specs.Prelude.{◌≡◌, ◌<◌, length, cond, eqb, Option, Some, None};
ghost use Rattle.ledger.specs.Services.{wait_for, start_timer};
ghost use Rattle.tables.specs.Layout.{OneOf};
ghost use Rattle.tables.specs.Lent.{GoesWithTimersIf};
ghost use Rattle.ledger.specs.Time as time;
ghost use Rattle.tocks.specs.Views.{tock_view};
ghost use Rattle.clock.specs.Held.{Holds};
ghost use Rattle.clock.specs.Does.{DoesTimersIf};

use tables::lent::Tables;
use tables::shape::Shape;
use tocks::TockValue;

// The tocks until it is due for the first time. This and the period are no conversions: two numbers come of one tock value, and neither is its value
// as a number. As methods they would stand in crate tocks, which knows nothing of timers.
#[tactic(auto, unfolding(ledger::specs::Time::tocks))]
fn first_tocks(v: TockValue) -> u32
    ensures { result ≡ time.tocks (tock_view v) }
{
    match v {
        TockValue::None => 0,
        TockValue::OneShot(n) => n,
        TockValue::Cyclic(p) => p,
    }
}

// The period, or 0.
#[tactic(auto, unfolding(ledger::specs::Time::period))]
fn period_of(v: TockValue) -> u32
    ensures { result ≡ time.period (tock_view v) }
{
    match v {
        TockValue::None => 0,
        TockValue::OneShot(_) => 0,
        TockValue::Cyclic(p) => p,
    }
}

// A timer of task a on semaphore b is started, and the semaphore waits for the task.
pub fn delay(tables: &mut Tables<'_>, timers: &mut [u8], a: u8, b: u8, v: TockValue)
    requires { Holds tables.old.shape (length timers.old) × OneOf tables.old.shape.tasks a × OneOf tables.old.shape.semaphores b }
    ensures { GoesWithTimersIf tables.old timers.old tables.new timers.new
        (λ c L. length L.timers < c.R) (λ c L. wait_for a b (start_timer a b (tock_view v) L)) }
{
    services::timer::delay(tables, timers, a, b, first_tocks(v), period_of(v));
}

// A timer of task a on semaphore b is started.
pub fn start(timers: &mut [u8], shape: Shape, a: u8, b: u8, v: TockValue)
    requires { Holds shape (length timers.old) }
    ensures { DoesTimersIf shape timers.old timers.new (λ c L. length L.timers < c.R) (λ c L. start_timer a b (tock_view v) L) }
{
    clock::start(timers, shape, a, b, first_tocks(v), period_of(v));
}

// The semaphore that a purge names, by the low byte of X: none where that is 0.
pub fn named(x: u8, b: u8) -> Option<u8>
    ensures { result ≡ cond (eqb x 0) None (Some b) }
{
    if x == 0 { None } else { Some(b) }
}
