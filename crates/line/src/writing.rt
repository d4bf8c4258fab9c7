// A frame to a line.
ghost use Rattle.std.specs.Prelude.{◌≡◌, ◌++◌, ◌*◌, ◌<◌, ◌≤◌, length, drop};
ghost use Rattle.ledger.specs.Lines.{digit_of, digits_of, write_line};
ghost use Rattle.line.specs.Answers.{Gives};

use super::LONGEST_FRAME;
use refusals::Refusal;

#[tactic(auto, unfolding(ledger::specs::Lines::digit_of))]
// A digit of a value below 16, which no type says: not a `From`.
fn digit(v: u8) -> u8
    requires { v < 16 }
    ensures { result ≡ digit_of v }
{
    if v < 10 { b'0' + v } else { b'A' + (v - 10) }
}

// The digits of the frame's bytes, two for each, into the front of the line.
fn put_digits(frame: &[u8], line: &mut [u8])
    requires { 2 * length frame.now ≤ length line.old }
    ensures { line.new ≡ digits_of frame.now ++ drop (2 * length frame.now) line.old }
{
    for (i, b) in frame.iter().enumerate() {
        line[2 * i] = digit(*b / 16);
        line[2 * i + 1] = digit(*b % 16);
    }
}

pub fn write(frame: &[u8], line: &mut [u8]) -> Result<usize, Refusal>
    ensures { Gives (write_line (length line.old) frame.now) line.old line.new result }
{
    let bytes = frame.len();
    let digits = 2 * bytes;
    if LONGEST_FRAME < bytes {
        return Err(Refusal::Line);
    }
    if line.len() < digits {
        return Err(Refusal::Memory);
    }
    put_digits(frame, line);
    Ok(digits)
}
