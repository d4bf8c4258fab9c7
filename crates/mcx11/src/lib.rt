// The exported functions, thin over the proved crates: the entries of the ride controller and of the brake module, over one executive
// (by_limits), lines and milliseconds, the busiest stretch of a run's records, and a start that never collides.
// Promises: each result and each byte of a lent buffer is the ledger's, and those of the last two are their definitions', for every
// argument; no call asks anything of its caller.
// Rests on the crates below it. mcx11_c gives these functions to C, each under its name.
//
// A call of the reader, the writer or milliseconds returns one i32, C's int32_t: what was computed, from 0 up, or with a minus sign the
// number of document 01 that refuses the call. No such number is 0, so a caller's test is `if (r < 0)`.
#![tactic(auto)]

pub mod by_limits;
pub mod entries;
pub mod lent;

ghost use Rattle.std.specs.Prelude.{◌≡◌, length};
ghost use Rattle.ledger.specs.Lines as lines;
ghost use Rattle.ledger.specs.Time as time;
ghost use Rattle.stretch.specs.Busiest.{busiest_of, Gives};
ghost use Rattle.starts.specs.Starts.{Leaves};
ghost use Rattle.refusals.specs.Numbers.{number_of};
ghost use Rattle.line.specs.Answers.{by_number};
ghost use Rattle.mcx11.specs.Results.{refused, Returns, returned_tocks, of_written, Short};

use refusals::Refusal;
use starts::Cycle;
use stretch::Record;

fn refused(refusal: Refusal) -> i32
    ensures { result ≡ refused (number_of refusal) }
{
    -(refusal as i32)
}

#[tactic(auto, unfolding(crate::specs::Results::of_written, crate::specs::Results::Short))]
fn returned(answer: Result<usize, Refusal>) -> i32
    requires { Short (by_number answer) }
    ensures { result ≡ of_written (by_number answer) }
{
    match answer {
        Ok(n) => n as i32,
        Err(refusal) => refused(refusal),
    }
}

// Reads a line of digits into the front of frame.
pub fn mcx11_read_line(line: &[u8], frame: &mut [u8]) -> i32
    ensures { Returns (lines.read_line (length frame.old) line.now) frame.old frame.new result }
{
    returned(line::read(line, frame))
}

// Writes a frame's digits into the front of line.
pub fn mcx11_write_line(frame: &[u8], line: &mut [u8]) -> i32
    ensures { Returns (lines.write_line (length line.old) frame.now) line.old line.new result }
{
    returned(line::write(frame, line))
}

// Milliseconds as tocks of per milliseconds each.
#[tactic(auto, unfolding(crate::specs::Results::returned_tocks))]
pub fn mcx11_milliseconds(ms: u16, per: u16) -> i32
    ensures { result ≡ returned_tocks (time.milliseconds ms per) }
{
    match tocks::milliseconds(ms, per) {
        Ok(n) => n as i32,
        Err(refusal) => refused(refusal),
    }
}

// The busiest stretch of w records: 0 with its sum and its place, or the number that refuses the call.
pub fn mcx11_busiest(records: &[Record], w: usize, sum: &mut u32, place: &mut usize) -> u8
    ensures { Gives (busiest_of records.now w) sum.old place.old sum.new place.new result }
{
    stretch::give(stretch::busiest(records, w), sum, place)
}

// A start for a new timer of the period that collides with none of the timers: 0 with the smallest, or that there is none, or the number
// that refuses the call.
pub fn mcx11_free_start(timers: &[Cycle], period: u32, start: &mut u32) -> u8
    ensures { Leaves timers.now period start.old start.new result }
{
    starts::give(starts::free_start(timers, period), start)
}
