// A frame's fields by the table's columns: whether they may stand there, and what they mean.
ghost use Rattle.std.specs.Prelude.{◌≡◌, false, cond, not, ◌&&◌, [], ◌∷◌, ◌+◌, ◌*◌, ◌≤◌, eqb, leb, length};
ghost use Rattle.ledger.specs.Lists.{first, ◌⇒◌, within};
ghost use Rattle.ledger.specs.Refusals as ledger;
ghost use Rattle.ledger.specs.Refusals.{wrong_length, value_x, wrong_task, wrong_semaphore, wrong_queue, is_message, is_tock_value, meant_task, meant_semaphore};
ghost use Rattle.tables.specs.Layout.{Fits};
ghost use Rattle.refusals.specs.Numbers.{number_in};
ghost use Rattle.command.specs.Codes.{view_a, view_b, view_x, view_follows};
ghost use Rattle.command.specs.Configured.{Says};
ghost use Rattle.command.specs.Table.{Owner};

use crate::codes::{FieldA, FieldB, FieldX, Follows};
use refusals::Refusal;
use tables::shape::Shape;

// Whether a number is none of those from 1 on.
pub fn outside(most: usize, n: usize) -> bool
    ensures { result ≡ not (within 1 most n) }
{
    n == 0 || n > most
}

// Whether a number is above those of the semaphores that callers may name.
fn above(shape: Shape, b: u8) -> bool
    requires { Fits shape shape.end }
    ensures { result ≡ not (leb b (shape.named + shape.tasks)) }
{
    b as usize > shape.named + shape.tasks
}

// 2, of a frame of five bytes or more. How long an entry has to be depends on its queue.
#[tactic(auto, unfolding(ledger::specs::Refusals::wrong_length))]
pub fn wrong_length(follows: Follows, size: usize) -> bool
    ensures { result ≡ wrong_length (view_follows follows) size }
{
    match follows {
        Follows::X => size > 5,
        Follows::XAndEntry => false,
        Follows::LongX => size != 7,
    }
}

// X, high byte first.
#[tactic(auto, unfolding(ledger::specs::Refusals::value_x, ledger::specs::Refusals::wrong_length))]
pub fn value(follows: Follows, frame: &[u8]) -> usize
    requires { (5 ≤ length frame.now) × (wrong_length (view_follows follows) (length frame.now) ≡ false) }
    ensures { result ≡ value_x (view_follows follows) frame.now }
{
    match follows {
        Follows::X | Follows::XAndEntry => rows::word(frame[3], frame[4]) as usize,
        Follows::LongX => rows::long_word(frame[3], frame[4], frame[5], frame[6]) as usize,
    }
}

// A task from 1 on other than the running one.
#[tactic(auto, unfolding(ledger::specs::Refusals::wrong_task))]
fn not_another(shape: Shape, me: u8, a: u8) -> bool
    ensures { Says shape (λ c. wrong_task c ledger.to_start me a) result }
{
    outside(shape.tasks, a as usize) || a == me
}

// 5
#[tactic(auto, unfolding(ledger::specs::Refusals::wrong_task))]
pub fn wrong_task(kind: FieldA, shape: Shape, me: u8, a: u8) -> bool
    ensures { Says shape (λ c. wrong_task c (view_a kind) me a) result }
{
    match kind {
        FieldA::Unused | FieldA::Queue => false,
        FieldA::Task => outside(shape.tasks, a as usize),
        FieldA::ToStart => not_another(shape, me, a),
        FieldA::SelfOrTask | FieldA::AnyOrTask => a as usize > shape.tasks,
    }
}

// 6
#[tactic(auto, unfolding(ledger::specs::Refusals::wrong_semaphore))]
pub fn wrong_semaphore(kind: FieldB, shape: Shape, b: u8) -> bool
    requires { Fits shape shape.end }
    ensures { Says shape (λ c. wrong_semaphore c (view_b kind) b) result }
{
    !matches!(kind, FieldB::Unused) && above(shape, b)
}

// 7
#[tactic(auto, unfolding(ledger::specs::Refusals::wrong_queue))]
pub fn wrong_queue(kind: FieldA, shape: Shape, a: u8) -> bool
    ensures { Says shape (λ c. wrong_queue c (view_a kind) a) result }
{
    matches!(kind, FieldA::Queue) && outside(shape.queues, a as usize)
}

// 8
#[tactic(auto, unfolding(ledger::specs::Lists::first))]
fn wrong_message(shape: Shape, x: usize) -> Result<(), Refusal>
    ensures { Says shape (λ c. first (not (within 1 c.G x) ⇒ 8 ∷ [])) (number_in result) }
{
    if outside(shape.messages, x) {
        return Err(Refusal::Message);
    }
    Ok(())
}

// 9
#[tactic(auto, unfolding(ledger::specs::Lists::first))]
fn wrong_tocks(x: usize) -> Result<(), Refusal>
    ensures { number_in result ≡ first (eqb x 0 ⇒ 9 ∷ []) }
{
    if x == 0 {
        return Err(Refusal::TockValue);
    }
    Ok(())
}

// 8, or 9
#[tactic(auto, unfolding(ledger::specs::Refusals::is_message, ledger::specs::Refusals::is_tock_value, ledger::specs::Lists::first))]
pub fn wrong_value(kind: FieldX, shape: Shape, x: usize) -> Result<(), Refusal>
    ensures { Says shape (λ c. first ((is_message (view_x kind) && not (within 1 c.G x)) ⇒ 8 ∷ (is_tock_value (view_x kind) && eqb x 0) ⇒ 9 ∷ [])) (number_in result) }
{
    match kind {
        FieldX::Unused | FieldX::Switch => Ok(()),
        FieldX::Message => wrong_message(shape, x),
        FieldX::TockValue => wrong_tocks(x),
    }
}

// The task that A means.
pub fn or_self(me: u8, a: u8) -> u8
    ensures { result ≡ cond (eqb a 0) me a }
{
    if a == 0 {
        return me;
    }
    a
}

// The semaphore that B means: 0 is that of task t.
pub fn or_own(shape: Shape, t: u8, b: u8) -> u8
    requires { Fits shape shape.end × (t ≤ shape.tasks) }
    ensures { result ≡ cond (eqb b 0) (shape.named + t) b }
{
    if b == 0 {
        return (shape.named + t as usize) as u8;
    }
    b
}

#[tactic(auto, unfolding(ledger::specs::Refusals::meant_task))]
pub fn meant_task(kind: FieldA, me: u8, a: u8) -> u8
    ensures { result ≡ meant_task (view_a kind) me a }
{
    match kind {
        FieldA::SelfOrTask => or_self(me, a),
        _ => a,
    }
}

// `a` is the task that A means.
#[tactic(auto, unfolding(ledger::specs::Refusals::meant_semaphore))]
pub fn meant_semaphore(kind: FieldB, shape: Shape, me: u8, a: u8, b: u8) -> u8
    requires { Fits shape shape.end × (me ≤ shape.tasks) × Owner shape (view_b kind) a }
    ensures { Says shape (λ c. meant_semaphore c (view_b kind) me a b) result }
{
    match kind {
        FieldB::Unused | FieldB::OrNone => b,
        FieldB::OfSelf => or_own(shape, me, b),
        FieldB::OfTask => or_own(shape, a, b),
    }
}
