// The numbers that the frame and the number of the running task give: 2, 20, 5 to 9, and an entry's 2, in the ledger's order.
ghost use Rattle.std.specs.Prelude.{◌≡◌, false, ◌&&◌, List, ℕ, ◌≤◌, eqb, length};
ghost use Rattle.ledger.specs.Lists.{first};
ghost use Rattle.ledger.specs.Refusals.{wrong_length, wrong_entry, from_input};
ghost use Rattle.tables.specs.Layout.{Fits};
ghost use Rattle.refusals.specs.Numbers.{number_in};
ghost use Rattle.ledger.specs.Config.{config_in};
ghost use Rattle.command.specs.Codes.{view_follows, view_fields};
ghost use Rattle.command.specs.Configured.{Says, Framed};
ghost use Rattle.command.specs.Table.{EntryIn};
ghost use Rattle.command.specs.Input.{Row, field_checks};

use crate::codes::{Fields, Follows};
use crate::fields;
use refusals::Refusal;
use tables::shape::Shape;

// Whether an entry of so many bytes is not as wide as those of queue q.
#[tactic(auto, using(crate::specs::Input::entry_told), unfolding(ledger::specs::Refusals::wrong_entry))]
fn wrong_entry(follows: Follows, config: &[u8], shape: Shape, q: u8, size: usize) -> bool
    requires { Framed config.now shape × EntryIn shape (view_follows follows) q }
    ensures { (e : List ℕ) → length e ≡ size → result ≡ wrong_entry (config_in config.now) (view_follows follows) q e }
{
    if let Follows::XAndEntry = follows {
        let ring = configuration::block::ring_of(config, shape, q as usize);
        return size != ring.width;
    }
    false
}

// 20: a service while the null task runs.
fn nobody_asks(service: bool, me: u8) -> bool
    ensures { result ≡ (service && eqb me 0) }
{
    service && me == 0
}

// 5 to 9.
fn wrong_fields(u: Fields, frame: &[u8], shape: Shape, me: u8) -> Result<(), Refusal>
    requires { (5 ≤ length frame.now) × (wrong_length (view_follows u.follows) (length frame.now) ≡ false) × Fits shape shape.end }
    ensures { Says shape (λ c. first (field_checks c (view_fields u) me frame.now)) (number_in result) }
{
    if fields::wrong_task(u.a, shape, me, frame[1]) {
        return Err(Refusal::Task);
    }
    if fields::wrong_semaphore(u.b, shape, frame[2]) {
        return Err(Refusal::Semaphore);
    }
    if fields::wrong_queue(u.a, shape, frame[1]) {
        return Err(Refusal::Queue);
    }
    fields::wrong_value(u.x, shape, fields::value(u.follows, frame))
}

// The frame has five bytes, its code is in the table, and `u` is the code's row.
pub fn input(u: Fields, frame: &[u8], config: &[u8], shape: Shape, me: u8) -> Result<(), Refusal>
    requires { Row frame.now u × Framed config.now shape }
    ensures { number_in result ≡ first (from_input (config_in config.now) me frame.now) }
{
    if fields::wrong_length(u.follows, frame.len()) {
        return Err(Refusal::Length);
    }
    if nobody_asks(u.service, me) {
        return Err(Refusal::NullTaskRuns);
    }
    // No `?`: it calls functions of std, whose code the theorems about runs (crates/theorems, World) cannot have.
    if let Err(refusal) = wrong_fields(u, frame, shape, me) {
        return Err(refusal);
    }
    let a = fields::meant_task(u.a, me, frame[1]);
    if wrong_entry(u.follows, config, shape, a, frame.len() - 5) {
        return Err(Refusal::Length);
    }
    Ok(())
}
