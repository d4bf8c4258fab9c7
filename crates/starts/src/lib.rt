// A start that never collides, document 02's W11: beside up to eight cyclic timers the smallest start for a new one of a given period.
// Promises: the answer is the one asked for (specs/Starts: no tock is in a given row and in the new one, which have no end), for every call.
// Rests on refusals. What is looked up of each timer, and the search, are in table.rt.
#![tactic(auto)]

pub mod divisor;
pub mod table;

ghost use Rattle.starts.specs.Starts.{Answers, Gives};

use refusals::Refusal;

// A cyclic timer: the tock that it was started in, and its period.
#[repr(C)]
#[derive(Clone, Copy)]
pub struct Cycle {
    pub start: u32,
    pub period: u32,
}

// The start for a new timer of the period: the smallest that collides with none, or None where every start collides with some.
pub fn free_start(timers: &[Cycle], period: u32) -> Result<Option<u32>, Refusal>
    ensures { Answers timers.now period result }
{
    // no `ok_or` and no `?`: their code is std's, which is not in the world of theorems/proofs/World
    let Some(residues) = table::residues(timers, period) else {
        return Err(Refusal::Cycles);
    };
    Ok(table::first_free(&residues[..timers.len()], period))
}

// What a C function returns where every start collides: no number of document 01.
pub const NO_START: u8 = 255;

// An answer as a C function gives it: 0 with the start; or NO_START, or the number, with nothing written.
pub fn give(free: Result<Option<u32>, Refusal>, start: &mut u32) -> u8
    ensures { Gives free start.old start.new result }
{
    match free {
        Ok(Some(s)) => {
            *start = s;
            0
        }
        Ok(None) => NO_START,
        Err(refusal) => u8::from(refusal),
    }
}
