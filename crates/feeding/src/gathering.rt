// The bytes of a line, gathered up to its end. A line that is too long is held only as far as that shows.
ghost use Rattle.std.specs.Prelude.{◌≤◌, length};
ghost use Rattle.feeding.specs.Line.{most, Gathers};

use line::LONGEST_FRAME;

// One more digit than the longest line has.
pub const HELD: usize = 2 * LONGEST_FRAME + 1;

// What of a line is gathered, and the bytes held of it: up to its end, behind which the next byte of the input is, or up to the input's.
#[derive(Clone, Copy)]
pub enum Gathered {
    Line { next: usize, held: usize },
    Part { held: usize },
}

pub fn gather(input: &[u8], from: usize, line: &mut [u8], held: usize) -> Gathered
    requires { (from ≤ length input.now) × (most ≤ length line.old) × (held ≤ most) }
    ensures { Gathers input.now from line.old held line.new result }
{
    let mut held = held;
    // by index, which is what it gives
    for i in from..input.len() {
        let b = input[i];
        if b == 0x0A {
            return Gathered::Line { next: i + 1, held };
        }
        if held < HELD {
            line[held] = b;
            held += 1;
        }
    }
    Gathered::Part { held }
}
