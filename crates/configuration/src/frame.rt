// A configuration frame, accepted or refused; its tests serve the lent block too.
ghost use Rattle.std.specs.Prelude.{◌≡◌, ℕ, ◌+◌, ◌*◌, ◌/◌, ◌%◌, ◌≤◌, leb, length, get_or};
ghost use Rattle.rows.specs.Splice.{cut};
ghost use Rattle.ledger.specs.Lists.{byte, all, sum};
ghost use Rattle.ledger.specs.Config.{twos, config_in, few_enough, good_values, good_head, good_rest, config_refusal, is_within, config_refusal_by};
ghost use Rattle.refusals.specs.Numbers.{number_in};
ghost use Rattle.configuration.specs.Limits.{limits_of, Made};
ghost use Rattle.configuration.specs.Room.{bytes_or_none, room_in, bytes_in};

use crate::limits::{Limits, controller};
use crate::pairs::{good_length, good_pairs};
use refusals::Refusal;

// Whether there is no more of each than the limits say.
#[tactic(auto, unfolding(ledger::specs::Config::few_enough, ledger::specs::Config::config_in))]
pub fn few_enough(limits: Limits, bytes: &[u8]) -> bool
    requires { 8 ≤ length bytes.now }
    ensures { result ≡ few_enough (limits_of limits) (config_in bytes.now) }
{
    bytes[0] <= limits.tasks
        && bytes[2] <= limits.queues
        && bytes[3] <= limits.timers
        && bytes[4] <= limits.messages
}

// What no limit is about: at least one task, the ticks and the milliseconds per tock, the semaphore sum.
#[tactic(auto, unfolding(ledger::specs::Config::good_values, ledger::specs::Config::config_in))]
pub fn good_values(bytes: &[u8]) -> bool
    requires { 8 ≤ length bytes.now }
    ensures { result ≡ good_values (config_in bytes.now) }
{
    bytes[0] != 0
        && bytes[5] != 0
        && (bytes[6] != 0 || bytes[7] != 0)
        && bytes[1] as usize + bytes[0] as usize + 2 * (bytes[2] as usize) <= 255
}

#[tactic(auto, unfolding(ledger::specs::Config::good_head))]
fn good_head(limits: Limits, bytes: &[u8]) -> bool
    requires { 8 ≤ length bytes.now }
    ensures { result ≡ good_head (limits_of limits) (config_in bytes.now) }
{
    few_enough(limits, bytes) && good_values(bytes)
}

// Initial states 0 or 1.
#[tactic(auto, using(crate::specs::States::all_on, crate::specs::States::all_stop, crate::specs::States::all_end))]
fn good_states(states: &[u8]) -> bool
    ensures { result ≡ all (λ s. leb s 1) states.now }
{
    for state in states {
        if *state > 1 {
            return false;
        }
    }
    true
}

// The bytes in front of the pairs.
pub fn front(frame: &[u8]) -> usize
    requires { 8 ≤ length frame.now }
    ensures { result ≡ 8 + byte 0 frame.now + 2 * byte 2 frame.now }
{
    8 + frame[0] as usize + 2 * (frame[2] as usize)
}

// The initial states of the tasks.
pub fn states(frame: &[u8]) -> &[u8]
    requires { 8 + byte 0 frame.now ≤ length frame.now }
    ensures part { result.now ≡ cut frame.now 8 (8 + byte 0 frame.now) }
    ensures whole { length result.now ≡ byte 0 frame.now }
{
    let end = 8 + frame[0] as usize;
    &frame[8..end]
}

// The queues behind them, width and depth of each.
pub fn shapes(frame: &[u8]) -> &[u8]
    requires { 8 + byte 0 frame.now + 2 * byte 2 frame.now ≤ length frame.now }
    ensures part { result.now ≡ cut frame.now (8 + byte 0 frame.now) (8 + byte 0 frame.now + 2 * byte 2 frame.now) }
    ensures whole { length result.now ≡ 2 * byte 2 frame.now }
{
    let at = 8 + frame[0] as usize;
    let end = at + 2 * (frame[2] as usize);
    &frame[at..end]
}

// The pairs behind the queues.
fn pairs(frame: &[u8]) -> &[u8]
    requires { 8 + byte 0 frame.now + 2 * byte 2 frame.now ≤ length frame.now }
    ensures { result.now ≡ cut frame.now (8 + byte 0 frame.now + 2 * byte 2 frame.now) (length frame.now) }
{
    let at = 8 + frame[0] as usize + 2 * (frame[2] as usize);
    &frame[at..]
}

// Width and depth of a queue in one number, the depth high: two bytes that are loaded at once, so that the loop below goes in vectors.
fn size(shapes: &[u8], i: usize) -> u16
    requires { i + 2 ≤ length shapes.now }
    ensures { (result % 256 ≡ get_or shapes.now i 0) × (result / 256 ≡ get_or shapes.now (i + 1) 0) }
{
    rows::word(shapes[i + 1], shapes[i])
}

// The bytes of one queue.
fn bytes_of(size: u16) -> u32
    ensures { (result ≡ size % 256 * (size / 256)) × (result ≤ 65025) }
{
    ((size % 256) as u32) * ((size / 256) as u32)
}

// The bytes of one queue, or 4,097 if there is no such queue.
#[tactic(auto, unfolding(crate::specs::Room::bytes_or_none))]
fn bytes_or_none(size: u16) -> u32
    ensures { (result ≡ bytes_or_none (size % 256) (size / 256)) × (result ≤ 4097) }
{
    let bytes = bytes_of(size);
    if bytes == 0 || size % 256 > 16 {
        return 4097;
    }
    bytes
}

// The bytes of all queues, each by `bytes`. No test ends the sum early. By pairs of bytes, and not by std's `chunks_exact` and `sum`, whose
// code the theorems about runs (theorems/proofs/World) cannot name.
fn total<F: Fn(u16) -> u32>(shapes: &[u8], bytes: F) -> u32
    requires callable { F.IsAlwaysCallable bytes }
    requires few { length shapes.now ≤ 510 }
    requires small { (size n : ℕ) → F.post bytes size n → n ≤ 65025 }
    ensures { (f : ℕ → ℕ → ℕ) → ((size n : ℕ) → F.post bytes size n → n ≡ f (size % 256) (size / 256)) → result ≡ sum (twos f shapes.now) }
{
    let mut sum = 0;
    for k in 0..shapes.len() / 2 {
        sum += bytes(size(shapes, 2 * k));
    }
    sum
}

// The bytes of all queues, above 4,096 if there is no such queue as one of them.
pub fn room(shapes: &[u8]) -> u32
    requires { length shapes.now ≤ 510 }
    ensures { result ≡ room_in shapes.now }
{
    total(shapes, |size| bytes_or_none(size))
}

// The bytes of all queues, where the rule for them has been tested.
pub fn taken(shapes: &[u8]) -> u32
    requires { length shapes.now ≤ 510 }
    ensures { result ≡ bytes_in shapes.now }
{
    total(shapes, |size| bytes_of(size))
}

// The initial states, the queues and the pairs.
fn good_rest(limits: Limits, frame: &[u8]) -> bool
    requires { Made (limits_of limits) × (8 + byte 0 frame.now + 2 * byte 2 frame.now ≤ length frame.now) }
    ensures { result ≡ good_rest (limits_of limits) (config_in frame.now) }
{
    let states = states(frame);
    good_states(states) && room(shapes(frame)) <= limits.bytes && good_pairs(states, pairs(frame))
}

// By the controller's limits.
#[tactic(auto, unfolding(ledger::specs::Config::config_refusal, ledger::specs::Config::config_in, ledger::specs::Lists::first))]
pub fn refusal(frame: &[u8]) -> Result<(), Refusal>
    ensures { number_in result ≡ config_refusal frame.now }
{
    if frame.len() < 8 {
        return Err(Refusal::Length);
    }
    let limits = controller();
    if !good_head(limits, frame) {
        return Err(Refusal::Configuration);
    }
    if !good_length(front(frame), frame.len()) {
        return Err(Refusal::Length);
    }
    if !good_rest(limits, frame) {
        return Err(Refusal::Configuration);
    }
    Ok(())
}

// Whether an accepted frame is within the limits.
fn is_within(limits: Limits, frame: &[u8]) -> bool
    requires { config_refusal frame.now ≡ 0 }
    ensures { result ≡ is_within (limits_of limits) (config_in frame.now) }
{
    few_enough(limits, frame) && taken(shapes(frame)) <= limits.bytes
}

// By an executive with its own limits: what is above them is refused after every other check.
pub fn refusal_by(limits: Limits, frame: &[u8]) -> Result<(), Refusal>
    ensures { number_in result ≡ config_refusal_by (limits_of limits) frame.now }
{
    // No `?`: it calls functions of std, whose code the theorems about runs (crates/theorems, World) cannot have.
    if let Err(refusal) = refusal(frame) {
        return Err(refusal);
    }
    if !is_within(limits, frame) {
        return Err(Refusal::AboveModule);
    }
    Ok(())
}
