// The pairs behind the queues, a byte for the first and one for the other task, which starts only after it.
ghost use Rattle.std.specs.Prelude.{◌≡◌, length};
ghost use Rattle.ledger.specs.Lists.{all};
ghost use Rattle.ledger.specs.Config.{pairs_in, good_length, good_pair};

// The most pairs, on every memory.
pub const MOST_PAIRS: usize = 64;

// Whether a frame of this length has what is in front of the pairs, and behind it whole pairs, no more than there may be.
#[tactic(auto, unfolding(ledger::specs::Config::good_length))]
pub fn good_length(front: usize, length: usize) -> bool
    ensures { result ≡ good_length front length }
{
    front <= length && (length - front) % 2 == 0 && length - front <= 2 * MOST_PAIRS
}

// Both are tasks, the first the lower; and not the first configured idle, the other runnable.
#[tactic(auto, unfolding(ledger::specs::Config::good_pair, ledger::specs::Lists::at))]
fn good_pair(states: &[u8], first: u8, then: u8) -> bool
    ensures { result ≡ good_pair (length states.now) states.now (record { first = first; then = then }) }
{
    let a = first as usize;
    let b = then as usize;
    if a == 0 || a >= b || b > states.len() {
        return false;
    }
    states[a - 1] != 1 || states[b - 1] != 0
}

#[tactic(auto, using(ledger::proofs::Theorems::Twos::all_next, ledger::proofs::Theorems::Twos::all_not, ledger::proofs::Theorems::Twos::all_over))]
pub fn good_pairs(states: &[u8], pairs: &[u8]) -> bool
    ensures { result ≡ all (good_pair (length states.now) states.now) (pairs_in pairs.now) }
{
    // by pairs of bytes, for which std has `chunks_exact`, whose code the theorems about runs (theorems/proofs/World) cannot name
    for k in 0..pairs.len() / 2 {
        if !good_pair(states, pairs[2 * k], pairs[2 * k + 1]) {
            return false;
        }
    }
    true
}
