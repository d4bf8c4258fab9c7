// The busiest stretch of a test run, document 02's W9: of w consecutive records the largest sum of reissues, and where it begins.
// Promises: the answer is that of the plain maximum over all stretches (specs/Busiest), for every list of records and every w.
// Rests on refusals. What is asked before the walk over the list, and the walk itself, are in walk.rt.
#![tactic(auto)]

pub mod walk;

ghost use Rattle.std.specs.Prelude.{◌≡◌};
ghost use Rattle.stretch.specs.Busiest.{busiest_of, Gives};

use refusals::Refusal;

// What a host keeps of a frame: the tocks since the start, and of its answer the running task and the reissues.
#[repr(C)]
#[derive(Clone, Copy)]
pub struct Record {
    pub tocks: u32,
    pub running: u8,
    pub reissues: u16,
}

// The largest sum and the place where the earliest such stretch begins.
#[derive(Clone, Copy)]
pub struct Stretch {
    pub sum: u32,
    pub place: usize,
}

// The busiest stretch of w records.
pub fn busiest(records: &[Record], w: usize) -> Result<Stretch, Refusal>
    ensures { result ≡ busiest_of records.now w }
{
    if walk::turned_away(records.len(), w) {
        return Err(Refusal::Stretch);
    }
    Ok(walk::over(records, w))
}

// An answer as a C function gives it: 0 with the sum and the place, or the number, with nothing written.
pub fn give(found: Result<Stretch, Refusal>, sum: &mut u32, place: &mut usize) -> u8
    ensures { Gives found sum.old place.old sum.new place.new result }
{
    match found {
        Err(refusal) => u8::from(refusal),
        Ok(stretch) => {
            *sum = stretch.sum;
            *place = stretch.place;
            0
        }
    }
}
