// What the search needs of each timer: the common divisor of its period and the new one, and its start's rest by that divisor.
// A start collides with the timer just if it has the same rest. The table is filled timer by timer; then the starts are tried, from 0 on.
ghost use Rattle.std.specs.Prelude.{◌≡◌, ◌<◌};
ghost use Rattle.starts.specs.Decided.{Decides};
ghost use Rattle.starts.specs.Starts.{InRange};
ghost use Rattle.starts.specs.Table.{Beside, Filled, Hit, Positive, First, tried_of};

use crate::Cycle;
use crate::divisor::gcd;

// The most timers of a list.
pub const MOST_CYCLES: usize = 8;

// The longest period, in tocks.
pub const LONGEST_CYCLE: u32 = 32768;

// Eight timers that take so many starts side by side take all (proofs/Enough).
pub const ENOUGH: u32 = 256;

// The starts that collide with a timer: those with the rest by the divisor.
#[derive(Clone, Copy)]
pub struct Residue {
    pub divisor: u32,
    pub rest: u32,
}

// A place of the table that no timer has.
const UNUSED: Residue = Residue {
    divisor: 1,
    rest: 0,
};

fn in_range(period: u32) -> bool
    ensures { Decides result (InRange period) }
{
    matches!(period, 1..=LONGEST_CYCLE)
}

#[tactic(auto, using(crate::specs::Divisor::gcd_pos))]
fn beside(timer: Cycle, period: u32) -> Residue
    requires { 0 < period }
    ensures { Beside timer period result }
{
    let divisor = gcd(timer.period, period);
    Residue {
        divisor,
        rest: timer.start % divisor,
    }
}

// Of each timer, in the list's order, beside a new one of the period; None where they are too many, or a period is out of range.
pub fn residues(timers: &[Cycle], period: u32) -> Option<[Residue; MOST_CYCLES]>
    ensures { Filled timers.now period result }
{
    if MOST_CYCLES < timers.len() || !in_range(period) {
        return None;
    }
    let mut residues = [UNUSED; MOST_CYCLES];
    for (k, timer) in timers.iter().enumerate() {
        if !in_range(timer.period) {
            return None;
        }
        residues[k] = beside(*timer, period);
    }
    Some(residues)
}

// Whether a start has the rest of one of the timers. A loop, as below: `any` and `find` are std's, and no code of std runs below an
// exported function (theorems/proofs/World).
fn hit(residues: &[Residue], start: u32) -> bool
    requires { Positive residues.now }
    ensures { Decides result (Hit residues.now start) }
{
    for residue in residues {
        if start % residue.divisor == residue.rest {
            return true;
        }
    }
    false
}

// How many starts are tried: those below the period, and no more than are enough. Not by std's `min`, for the same reason.
fn tried(period: u32) -> u32
    ensures { result ≡ tried_of period }
{
    if period < ENOUGH { period } else { ENOUGH }
}

// The smallest start that is not hit, of those that are tried for a new timer of the period.
pub fn first_free(residues: &[Residue], period: u32) -> Option<u32>
    requires { Positive residues.now }
    ensures { First (Hit residues.now) (tried_of period) result }
{
    let upto = tried(period);
    for start in 0..upto {
        if !hit(residues, start) {
            return Some(start);
        }
    }
    None
}
