// Numbers of tocks: the tock value of a frame and milliseconds as tocks.
// Promises: each answer is the ledger's own (Time) of the same bits or numbers, for every input.
// Rests on rows, for numbers of bytes, on refusals, and on the checker's reading of a signed number's bits.
#![tactic(auto)]

ghost use Rattle.std.specs.Prelude.{◌≡◌, ◌+◌, ◌*◌, ◌<◌, ◌≤◌, ◌^◌};
ghost use Rattle.std.specs.Int.{w16, w32};
ghost use Rattle.std.proofs.Common.{of_z, to_z};
ghost use Rattle.ledger.specs.Time as time;
ghost use Rattle.tocks.specs.Signs.{signed_of};
ghost use Rattle.tocks.specs.Views.{tock_view, tocks_view};

use refusals::Refusal;

// What a tock value asks for: nothing, or one expiry, or one each period. Document 01 has these three cases.
#[derive(Clone, Copy)]
pub enum TockValue {
    None,
    OneShot(u32),
    Cyclic(u32),
}

// Positive is one-shot, negative is cyclic with the opposite number as its period: -2,147,483,648 is cyclic, 2,147,483,648.
pub fn long_tock_value(x: i32) -> TockValue
    ensures { tock_view result ≡ time.long_tock_value (of_z w32 x) }
{
    if x == 0 {
        return TockValue::None;
    }
    if 0 < x {
        return TockValue::OneShot(x as u32);
    }
    // The opposite is taken in the wider type: -2,147,483,648 has none in 32 bits.
    TockValue::Cyclic(-(x as i64) as u32)
}

// The same of two bytes' numbers: -32,768 is cyclic, 32,768.
pub fn tock_value(x: i16) -> TockValue
    ensures { tock_view result ≡ time.tock_value (of_z w16 x) }
{
    long_tock_value(x as i32)
}

// The signed number whose bits these are; from `half` on, half of all, they are a negative one's: -1 less what they lack to all ones.
// By hand, and not by std's `from_be_bytes`: the theorems about runs have the code of all that runs (theorems, `World`), and std's has no
// name there.
fn signed(bits: u32, half: u32) -> i32
    requires width { bits < 2 * half }
    requires within { half ≤ 2 ^ 31 }
    ensures { result ≡ signed_of half bits }
{
    if bits < half {
        return bits as i32;
    }
    -1 - ((half - 1 - (bits - half)) as i32)
}

// The number that two bytes of a frame are, high first.
pub fn signed_word(high: u8, low: u8) -> i16
    ensures { result ≡ to_z w16 (256 * high + low) }
{
    signed(rows::word(high, low) as u32, 0x8000) as i16
}

// The number that four bytes are.
pub fn signed_long(b0: u8, b1: u8, b2: u8, b3: u8) -> i32
    ensures { result ≡ to_z w32 (65536 * (256 * b0 + b1) + (256 * b2 + b3)) }
{
    signed(rows::long_word(b0, b1, b2, b3), 0x80000000)
}

// The tock value of two bytes of a frame, high first.
pub fn tock_value_at(high: u8, low: u8) -> TockValue
    ensures { tock_view result ≡ time.tock_value (256 * high + low) }
{
    tock_value(signed_word(high, low))
}

// And of four.
pub fn long_tock_value_at(b0: u8, b1: u8, b2: u8, b3: u8) -> TockValue
    ensures { tock_view result ≡ time.long_tock_value (65536 * (256 * b0 + b1) + (256 * b2 + b3)) }
{
    long_tock_value(signed_long(b0, b1, b2, b3))
}

// The nearest number of tocks. The sum is taken in the wider type: it may be above 65,535.
#[tactic(auto, using(crate::proofs::Rounding::by_division, crate::proofs::Rounding::at_most))]
fn nearest(ms: u16, per: u16) -> u16
    requires { 0 < per }
    ensures { result ≡ time.nearest ms per }
{
    let per = per as u32;
    let sum = 2 * (ms as u32) + per;
    (sum / (2 * per)) as u16
}

// Milliseconds as the nearest number of tocks of `per` milliseconds each; an exact half goes up.
#[tactic(auto, unfolding(ledger::specs::Time::milliseconds))]
pub fn milliseconds(ms: u16, per: u16) -> Result<u16, Refusal>
    ensures { tocks_view result ≡ time.milliseconds ms per }
{
    if per == 0 {
        return Err(Refusal::Configuration);
    }
    let tocks = nearest(ms, per);
    if tocks == 0 || 32767 < tocks {
        return Err(Refusal::Milliseconds);
    }
    Ok(tocks)
}
