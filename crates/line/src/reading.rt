// A line to a frame: the whole line is tested first, and then written.
ghost use Rattle.std.specs.Prelude.{◌≡◌, ◌++◌, ◌+◌, ◌*◌, ◌/◌, ◌≤◌, length, drop};
ghost use Rattle.ledger.specs.Lists.{all};
ghost use Rattle.ledger.specs.Lines.{frame_of, read_line};
ghost use Rattle.line.specs.Answers.{Gives};
ghost use Rattle.line.specs.Digits.{is_some, is_digit, nibble, pairs};

use super::LONGEST_FRAME;
use refusals::Refusal;

#[tactic(auto, unfolding(crate::specs::Digits::is_digit, ledger::specs::Lines::digit_value))]
fn is_digit(d: u8) -> bool
    ensures { result ≡ is_digit d }
{
    matches!(d, b'0'..=b'9' | b'A'..=b'F')
}

// Every byte is tested, in one pass that does not branch.
#[tactic(auto, using(crate::proofs::Pairs::all_more), unfolding(ledger::specs::Lists::all))]
fn all_digits(line: &[u8]) -> bool
    ensures { result ≡ all is_digit line.now }
{
    let mut good = true;
    for d in line {
        good = good & is_digit(*d);
    }
    good
}

// A digit's value: the low four bits, and 9 more for a letter. Of another byte, some number below 16. By sums, as its clause has it, and
// not by a match: the bytes of a line are written without a branch.
fn value(d: u8) -> u8
    ensures { result ≡ nibble d }
{
    (d % 16 + d / 64 * 9) % 16
}

// No conversion of one value: a byte from two digits.
fn byte_of(high: u8, low: u8) -> u8
    ensures { result ≡ 16 * nibble high + nibble low }
{
    16 * value(high) + value(low)
}

// The bytes of the line's digits, two for each, into the front of the frame.
fn put_bytes(line: &[u8], frame: &mut [u8])
    requires { length line.now / 2 ≤ length frame.old }
    ensures { frame.new ≡ pairs line.now ++ drop (length line.now / 2) frame.old }
{
    // by pairs of bytes, for which std has `chunks_exact`, whose code the theorems about runs (theorems/proofs/World) cannot name
    for i in 0..line.len() / 2 {
        frame[i] = byte_of(line[2 * i], line[2 * i + 1]);
    }
}

// Whether a line stands for a frame: not too long, not odd, all digits.
fn is_line(line: &[u8]) -> bool
    ensures { result ≡ is_some (frame_of line.now) }
{
    let digits = line.len();
    if 2 * LONGEST_FRAME < digits {
        return false;
    }
    if digits % 2 != 0 {
        return false;
    }
    all_digits(line)
}

pub fn read(line: &[u8], frame: &mut [u8]) -> Result<usize, Refusal>
    ensures { Gives (read_line (length frame.old) line.now) frame.old frame.new result }
{
    if !is_line(line) {
        return Err(Refusal::Line);
    }
    let bytes = line.len() / 2;
    if frame.len() < bytes {
        return Err(Refusal::Memory);
    }
    put_bytes(line, frame);
    Ok(bytes)
}
