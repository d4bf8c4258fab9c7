// The pending messages of all mailboxes: records of four bytes (receiver, number, sender, semaphore) at the start of a lent slice.
// A receiver that is none of the tasks is read as task 1, so that every record lies in a mailbox.
// They are read as a struct (lent.rt), and changed as a slice with their number n beside it, which lies elsewhere in the lent memory;
// `never_past` speaks of the room that the slice has for more.
// Promises what each search finds, its count never past G, and what each change makes of every mailbox, in the ledger's own functions.
// Rests on the crates ledger (what a mailbox is) and rows (records put in and taken out).
#![tactic(auto)]

pub mod lent;
pub mod search;

ghost use Rattle.std.specs.Prelude.{◌≡◌, ◌+◌, ◌-◌, ◌*◌, ◌^◌, ◌<◌, ◌≤◌, length, bit_or};
ghost use Rattle.ledger.specs.Lists.{within};
ghost use Rattle.messages.specs.Pending.{letter, letter_at, pending, numbers_in, occurs, complete_in};
ghost use Rattle.messages.specs.Changes.{Inserted, Found, Removed};
ghost use Rattle.messages.specs.Searches.{Bounded};

use crate::lent::Messages;

// A message, without its receiver.
#[derive(Clone, Copy)]
pub struct Message {
    pub number: u8,
    pub sender: u8,
    pub semaphore: u8,
}

// Whether a number is 1 to top. Less 1 and wrapped, 0 is past every top: one compare, where `(1..=top).contains` makes two for each record.
fn is_within(x: u8, top: usize) -> bool
    ensures { result ≡ within 1 top x }
{
    (x as usize).wrapping_sub(1) < top
}

// Puts a message in behind those of the same receiver from the same or a lower sender.
// It stays over a slice and a number, as `remove` does: a second struct, over a `&mut`, would serve these two alone, each with a bound beside it.
pub fn insert(b: &mut [u8], n: usize, tasks: usize, to: u8, message: Message)
    requires { Bounded (n + 1) b.old × (1 ≤ to) × (to ≤ tasks) }
    ensures { Inserted tasks n (pending to message.number message.sender message.semaphore) b.old b.new }
{
    let pending = Messages {
        records: b,
        count: n,
        tasks,
    };
    // A match, here and in `holds`: `unwrap_or` and `is_some` are calls, of code that the theorems about runs can't name.
    let place = match pending.place(to, message.sender).place {
        Some(k) => k,
        None => n,
    };
    rows::insert_at(
        b,
        n,
        4,
        place,
        &[to, message.number, message.sender, message.semaphore],
    );
}

// Takes record k out; the records behind it move up.
pub fn remove(b: &mut [u8], n: usize, k: usize)
    requires { (k < n) × (n * 4 ≤ length b.old) }
    ensures { Removed n k b.old b.new }
{
    rows::remove_at(b, n, 4, k);
}

// The numbers seen, bit x - 1 for x, with one more.
fn with(seen: u64, x: usize) -> u64
    requires { (1 ≤ x) × (x ≤ 64) }
    ensures { result ≡ bit_or seen (2 ^ (x - 1)) }
{
    seen | 1u64 << (x - 1)
}

impl<'a> Messages<'a> {
    // The message in record k.
    #[tactic(auto, using(crate::specs::Records::letter_bytes))]
    pub fn load(&self, k: usize) -> Message
        requires { k * 4 + 4 ≤ length self.now.records.now }
        ensures { letter result.number result.sender result.semaphore ≡ letter_at k self.now.records.now }
    {
        let i = k * 4;
        Message {
            number: self.records[i + 1],
            sender: self.records[i + 2],
            semaphore: self.records[i + 3],
        }
    }

    // The place of the first message for task `to` that is from `from`, or from any if that is 0, if there is one.
    // 0, and no Option: document 01's byte has 0 for any task, and the open request in a task's record keeps that byte.
    pub fn find(&self, to: u8, from: u8) -> Option<usize>
        requires { (1 ≤ to) × (to ≤ self.now.tasks) }
        ensures { Found self.now.tasks self.now.count to from self.now.records.now result }
    {
        self.sender(to, from).place
    }

    // Whether some record has a number.
    pub fn holds(&self, number: u8) -> bool
        ensures { result ≡ occurs number (numbers_in self.now.count self.now.records.now) }
    {
        matches!(self.number(number).place, Some(_))
    }

    // Whether the number of each record is 1 to most, and none is there twice: `count` bits are set.
    // A loop over the records' places, as `chunks_exact` is a call of std's.
    pub fn complete(&self, most: usize) -> bool
        requires { most ≤ 64 }
        ensures { result ≡ complete_in most (numbers_in self.now.count self.now.records.now) }
    {
        let mut seen: u64 = 0;
        for k in 0..self.count {
            let x = self.records[k * 4 + 1];
            if !is_within(x, most) {
                return false;
            }
            seen = with(seen, x as usize);
        }
        u64::count_ones(seen) == self.count as u32
    }
}
