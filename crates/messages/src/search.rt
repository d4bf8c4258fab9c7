// The search in the records, over a test of one, and the three tests that it is made with.
ghost use Rattle.std.specs.Prelude.{◌≡◌, ℕ, ◌+◌, ◌*◌, ◌<◌, ◌≤◌, length, nat_eq};
ghost use Rattle.messages.specs.Pending.{pending_at, pending_in, numbers_in, for, behind, wanted_by};
ghost use Rattle.messages.specs.Searches.{record_room, Answered, Searched};

use crate::is_within;
use crate::lent::Messages;

// What a search gives: the place of the first message that passes its test, if one does, and how many messages it looked at.
// It counts in a byte, one for each message looked at, whichever task that is for.
#[derive(Clone, Copy)]
pub struct Search {
    pub place: Option<usize>,
    pub looked: u8,
}

// Looks for the first of so many records that passes. A loop, as std's `position` is code that the theorems about runs can't name.
fn first<F: Fn(usize) -> bool>(lying: u8, passes: F) -> Search
    requires { (k : ℕ) → k < lying → F.pre passes k }
    ensures answered { Answered (F.post passes) lying result.place result.looked }
    ensures never_past { result.looked ≤ lying }
{
    for k in 0..lying {
        if passes(k as usize) {
            return Search {
                place: Some(k as usize),
                looked: k + 1,
            };
        }
    }
    Search {
        place: None,
        looked: lying,
    }
}

impl<'a> Messages<'a> {
    // Looks for the first message with this number.
    pub fn number(&self, number: u8) -> Search
        ensures searched { Searched (λ y. nat_eq y number) (numbers_in self.now.count self.now.records.now) result.place result.looked }
        ensures never_past { result.looked ≤ record_room self.now.records.now }
    {
        first(self.count as u8, |k| self.records[k * 4 + 1] == number)
    }

    // Whether record k is for task `to`: its receiver is that number, or is no task, which means task 1.
    // For another task than 1, a record for others costs one compare.
    #[tactic(auto, using(crate::specs::Records::pending_bytes))]
    pub fn is_for(&self, k: usize, to: u8) -> bool
        requires { (k * 4 + 4 ≤ length self.now.records.now) × (1 ≤ to) × (to ≤ self.now.tasks) }
        ensures { result ≡ for to (pending_at self.now.tasks k self.now.records.now) }
    {
        self.records[k * 4] == to || to == 1 && !is_within(self.records[k * 4], self.tasks)
    }

    // Whether record k is for task `to`, from a higher sender.
    #[tactic(auto, using(crate::specs::Records::pending_bytes))]
    fn is_behind(&self, k: usize, to: u8, sender: u8) -> bool
        requires { (k < self.now.count) × (1 ≤ to) × (to ≤ self.now.tasks) }
        ensures { result ≡ behind to sender (pending_at self.now.tasks k self.now.records.now) }
    {
        self.is_for(k, to) && sender < self.records[k * 4 + 2]
    }

    // Whether record k is for task `to`, and from `from`, or from any if that is 0.
    #[tactic(auto, using(crate::specs::Records::pending_bytes), unfolding(ledger::specs::Services::Messages::wanted))]
    fn is_wanted(&self, k: usize, to: u8, from: u8) -> bool
        requires { (k < self.now.count) × (1 ≤ to) × (to ≤ self.now.tasks) }
        ensures { result ≡ wanted_by to from (pending_at self.now.tasks k self.now.records.now) }
    {
        self.is_for(k, to) && (from == 0 || from == self.records[k * 4 + 2])
    }

    // Looks for the first message of the same receiver from a higher sender: a new one goes before it, or else behind all.
    pub fn place(&self, to: u8, sender: u8) -> Search
        requires { (1 ≤ to) × (to ≤ self.now.tasks) }
        ensures searched { Searched (behind to sender) (pending_in self.now.tasks self.now.count self.now.records.now) result.place result.looked }
        ensures never_past { result.looked ≤ record_room self.now.records.now }
    {
        first(self.count as u8, |k| self.is_behind(k, to, sender))
    }

    // Looks for the first message for task `to` that is from `from`, or from any if that is 0.
    pub fn sender(&self, to: u8, from: u8) -> Search
        requires { (1 ≤ to) × (to ≤ self.now.tasks) }
        ensures searched { Searched (wanted_by to from) (pending_in self.now.tasks self.now.count self.now.records.now) result.place result.looked }
        ensures never_past { result.looked ≤ record_room self.now.records.now }
    {
        first(self.count as u8, |k| self.is_wanted(k, to, from))
    }
}
