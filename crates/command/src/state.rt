// The numbers that the memory gives: 25, 26, 22, 21, 24 and 23, in the ledger's order.
ghost use Rattle.std.specs.Prelude.{◌&&◌, [], ◌∷◌, leb, length};
ghost use Rattle.ledger.specs.Lists.{first, ◌⇒◌};
ghost use Rattle.ledger.specs.Refusals as ledger;
ghost use Rattle.ledger.specs.Refusals.{idle_or_waiting, is_message, inamailbox, is_tock_value, have_timer, meets25};
ghost use Rattle.tables.specs.Layout.{OneOf, Fits};
ghost use Rattle.tables.specs.Shows.{Tells};
ghost use Rattle.refusals.specs.Numbers.{number_in};
ghost use Rattle.clock.specs.Held.{Holds};
ghost use Rattle.clock.specs.Does.{TellsTimers};
ghost use Rattle.ledger.specs.Config.{config_in};
ghost use Rattle.command.specs.Codes.{view_x, view_waits};
ghost use Rattle.command.specs.Configured.{Framed};
ghost use Rattle.command.specs.Table.{WaitsIn};
ghost use Rattle.command.specs.State.{TellsOf, StateSays};

use crate::codes::{FieldX, Fields, Waits};
use crate::firsts::before_first;
use refusals::Refusal;
use tables::shape::Shape;

// Whether a task is idle or waits for an event or a message.
#[tactic(auto, using(crate::specs::State::blocks_told))]
fn idle_or_waiting(tables: &[u8], shape: Shape, t: u8) -> bool
    requires { Fits shape (length tables.now) × OneOf shape.tasks t }
    ensures { Tells shape tables.now (λ c L. idle_or_waiting L t) result }
{
    let blocks = tables::blocks::load(tables, shape, t);
    blocks.idle || blocks.event || blocks.message
}

// 25
#[tactic(auto, unfolding(ledger::specs::Refusals::meets25))]
fn busy(waits: Waits, tables: &[u8], shape: Shape, a: u8, b: u8) -> bool
    requires { Fits shape (length tables.now) × WaitsIn shape (view_waits waits) a b }
    ensures { Tells shape tables.now (λ c L. meets25 L (view_waits waits) a) result }
{
    matches!(waits, Waits::TaskOnB) && idle_or_waiting(tables, shape, a)
}

// 22
#[tactic(auto, unfolding(ledger::specs::Refusals::is_message))]
fn lies(kind: FieldX, tables: &[u8], shape: Shape, x: u8) -> bool
    requires { Fits shape (length tables.now) }
    ensures { Tells shape tables.now (λ c L. is_message (view_x kind) && inamailbox L x) result }
{
    matches!(kind, FieldX::Message) && mailboxes::holds(tables, shape, x)
}

// 21
#[tactic(auto, unfolding(ledger::specs::Refusals::meets21, ledger::specs::Refusals::would_wait_on, ledger::specs::Ledger::semaphore_of, ledger::specs::Lists::at, ledger::specs::Refusals::is_waiting))]
fn meets21(waits: Waits, config: &[u8], tables: &[u8], shape: Shape, a: u8, b: u8) -> bool
    requires { Framed config.now shape × Fits shape (length tables.now) × WaitsIn shape (view_waits waits) a b }
    ensures { TellsOf (config_in config.now) shape tables.now (λ c L. ledger.meets21 c L (view_waits waits) a b) result }
{
    match waits {
        Waits::Nowhere => false,
        Waits::OnB | Waits::TaskOnB => tables::semaphores::is_waiting(tables, shape, b),
        Waits::OnNotEmpty => {
            let ring = configuration::block::ring_of(config, shape, a as usize);
            queues::reading::take_waits(tables, shape, ring, a)
        }
        Waits::OnNotFull => {
            let ring = configuration::block::ring_of(config, shape, a as usize);
            queues::reading::put_waits(tables, shape, ring, a)
        }
    }
}

// 24, or 23: task a has a timer on b, or no record is free.
#[tactic(auto, unfolding(ledger::specs::Lists::first))]
fn timer_refused(timers: &[u8], shape: Shape, a: u8, b: u8) -> Result<(), Refusal>
    requires { Holds shape (length timers.now) }
    ensures { TellsTimers shape timers.now (λ c L. first (have_timer L a b ⇒ 24 ∷ leb c.R (length L.timers) ⇒ 23 ∷ [])) (number_in result) }
{
    if clock::has(timers, shape, a, b) {
        return Err(Refusal::HasATimer);
    }
    if shape.timers <= clock::count(timers, shape) {
        return Err(Refusal::AllTimersActive);
    }
    Ok(())
}

#[tactic(auto, unfolding(ledger::specs::Refusals::is_tock_value, ledger::specs::Lists::first))]
fn no_timer(kind: FieldX, timers: &[u8], shape: Shape, a: u8, b: u8) -> Result<(), Refusal>
    requires { Holds shape (length timers.now) }
    ensures { TellsTimers shape timers.now
        (λ c L. first ((is_tock_value (view_x kind) && have_timer L a b) ⇒ 24 ∷ (is_tock_value (view_x kind) && leb c.R (length L.timers)) ⇒ 23 ∷ [])) (number_in result) }
{
    match kind {
        FieldX::TockValue => timer_refused(timers, shape, a, b),
        _ => Ok(()),
    }
}

// `a` and `b` are the meant task or queue and semaphore, `x` the low byte of X. The tables come as bytes with a shape beside them, for reading
// alone: a `Tables` would ask for more.
pub fn state(
    u: Fields,
    config: &[u8],
    tables: &[u8],
    timers: &[u8],
    shape: Shape,
    a: u8,
    b: u8,
    x: u8,
) -> Result<(), Refusal>
    requires { Framed config.now shape × Fits shape (length tables.now) × Holds shape (length timers.now) × WaitsIn shape (view_waits u.waits) a b }
    ensures { StateSays (config_in config.now) shape tables.now timers.now u a b x (number_in result) }
{
    if busy(u.waits, tables, shape, a, b) {
        return Err(Refusal::IdleOrWaiting);
    }
    if before_first(u.a, config, tables, shape, a) {
        return Err(Refusal::BeforeFirst);
    }
    if lies(u.x, tables, shape, x) {
        return Err(Refusal::MessageInMailbox);
    }
    if meets21(u.waits, config, tables, shape, a, b) {
        return Err(Refusal::SemaphoreWaiting);
    }
    no_timer(u.x, timers, shape, a, b)
}
