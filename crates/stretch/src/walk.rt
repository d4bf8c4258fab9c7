// Which calls are refused, and the walk over the records. From one stretch to the next the sum takes in the reissues of the record that
// joins and loses those of the record that leaves: one step, whatever w is.
ghost use Rattle.std.specs.Prelude.{◌≡◌, ◌-◌, ◌*◌, ◌≤◌, length, sum};
ghost use Rattle.stretch.specs.Busiest.{counts, most_records, turned_away, better, best_upto};

use crate::{Record, Stretch};

// The most records of a list.
pub const MOST_RECORDS: usize = 4096;

// A list of n records that is too long, or w that is 0 or above n.
pub fn turned_away(n: usize, w: usize) -> bool
    ensures { result ≡ turned_away n w }
{
    MOST_RECORDS < n || w == 0 || n < w
}

#[tactic(auto, using(crate::proofs::Sums::head_joins))]
fn reissues(records: &[Record]) -> u32
    requires { length records.now ≤ most_records }
    ensures summed { result ≡ sum (counts records.now) }
    ensures small { result ≤ 65535 * length records.now }
{
    let mut sum = 0;
    for record in records {
        sum += record.reissues as u32;
    }
    sum
}

// A later stretch must be larger.
fn better(best: Stretch, sum: u32, place: usize) -> Stretch
    ensures { result ≡ better best sum place }
{
    if best.sum < sum {
        Stretch { sum, place }
    } else {
        best
    }
}

// The best of all stretches of w records.
#[tactic(auto, using(crate::proofs::Sums::slides, crate::proofs::Sums::best_more))]
pub fn over(records: &[Record], w: usize) -> Stretch
    requires few { length records.now ≤ most_records }
    requires whole { w ≤ length records.now }
    ensures { result ≡ best_upto w (counts records.now) (length records.now - w) }
{
    let mut sum = reissues(&records[..w]);
    let mut best = Stretch { sum, place: 0 };
    for (before, joins) in records[w..].iter().enumerate() {
        sum = sum + joins.reissues as u32 - records[before].reissues as u32;
        best = better(best, sum, before + 1);
    }
    best
}
