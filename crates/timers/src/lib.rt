// Timers: rows of ten bytes in a lent slice. Row 0 is their clock (time, floor), rows 1 to count are task, semaphore, the time when due and the period.
// Promises that each method changes the timers that the bytes mean, whatever they are, as the ledger changes its own (specs/Timers, specs/Shown),
// and leaves rows in order where they were (specs/Upright).
// Rests on the crates rows (rows moved in a slice) and ledger (the definitions).
#![tactic(auto)]

ghost use Rattle.std.specs.Prelude.{◌≡◌, map, ◌+◌, ◌-◌, ◌*◌, ◌^◌, ◌<◌, ◌≤◌, min, length, is_none, unwrap_or};
ghost use Rattle.ledger.specs.Lists.{any, keep, insert_by};
ghost use Rattle.rows.specs.Four.{le4};
ghost use Rattle.rows.specs.Rows.{insert_at, remove_at};
ghost use Rattle.timers.specs.Timers.{row_of, timer, entry, left_at, record_at, records_in, timers_in, until_due};
ghost use Rattle.timers.specs.Timers.{tocks_left, started_for, stays, tocked, due_in, first_due, taken_due};
ghost use Rattle.timers.specs.Timers.{Leaves, SetDue, settled_by, handed_on, Placed, Lowered};

use rows::{get4, put4};

// Timers as they are lent: their rows, which may have room for more, and how many there are.
#[derive(Drop)]
pub struct Timers<'a> {
    pub rows: &'a mut [u8],
    pub count: usize,
    ghost room: { count * 10 + 10 ≤ length rows.now },
}

// What a timer keeps, whatever its time. Period 0 is that of one that is not cyclic, as in the four bytes of a row and in the ledger.
#[derive(Clone, Copy)]
pub struct Timer {
    pub task: u8,
    pub semaphore: u8,
    pub period: u32,
}

// How many timers come before a place, and a time before which none behind it is due.
#[derive(Clone, Copy)]
struct Found {
    at: usize,
    first: u32,
}

// The difference, or 0. Not std's `saturating_sub`: the theorems about runs know the code of the repository's own functions alone (`environment`, theorems/proofs/World).
fn minus(x: u32, y: u32) -> u32
    ensures { result ≡ x - y }
{
    if x < y { 0 } else { x - y }
}

// A time, but not before the floor, on a clock that is set back.
fn settled(x: u32, floor: u32, back: u32) -> u32
    ensures { result ≡ until_due back floor x }
{
    if x < floor {
        return minus(floor, back);
    }
    minus(x, back)
}

// The lesser of two. Not std's `min`, for the same reason as `minus`.
fn lesser(x: u32, y: u32) -> u32
    ensures { result ≡ min x y }
{
    if x < y { x } else { y }
}

// A record's ten bytes.
fn row_of(t: Timer, due: u32) -> [u8; 10]
    ensures { result ≡ row_of t.task t.semaphore due t.period }
{
    let mut row = [t.task, t.semaphore, 0, 0, 0, 0, 0, 0, 0, 0];
    put4(&mut row, 2, due);
    put4(&mut row, 6, t.period);
    row
}

// Whether timer k is for a task and a semaphore.
fn is_for(b: &[u8], k: usize, task: u8, semaphore: u8) -> bool
    requires { k * 10 + 20 ≤ length b.now }
    ensures { result ≡ started_for task semaphore (left_at 0 (record_at b.now k)) }
{
    b[k * 10 + 10] == task && b[k * 10 + 11] == semaphore
}

// Whether one of n timers is for a task and a semaphore. No method of `Timers`: the crate command is lent the bytes for reading alone.
pub fn has(b: &[u8], n: usize, task: u8, semaphore: u8) -> bool
    requires { n * 10 + 10 ≤ length b.now }
    ensures { result ≡ any (started_for task semaphore) (timers_in n b.now) }
{
    for k in 0..n {
        if is_for(b, k, task, semaphore) {
            return true;
        }
    }
    false
}

impl<'a> Timers<'a> {
    ghost use Rattle.timers.specs.Lent.{held, InOrder, Lent};

    // The clock's time.
    fn time(&self) -> u32
        ensures { result ≡ le4 self.now.rows.now 2 }
    {
        get4(self.rows, 2)
    }

    // The time before which no timer is due.
    fn floor(&self) -> u32
        ensures { result ≡ le4 self.now.rows.now 6 }
    {
        get4(self.rows, 6)
    }

    // The time at which record k is due.
    fn due_at(&self, k: usize) -> u32
        requires { k < self.now.count }
        ensures { result ≡ (record_at self.now.rows.now k).due }
    {
        get4(self.rows, k * 10 + 12)
    }

    // The period of record k.
    fn period_at(&self, k: usize) -> u32
        requires { k < self.now.count }
        ensures { result ≡ (record_at self.now.rows.now k).period }
    {
        get4(self.rows, k * 10 + 16)
    }

    // Record k is due at another time.
    fn set_due(&mut self, k: usize, x: u32)
        requires { k < self.old.count }
        ensures does { SetDue k x self.old.rows.now self.new.rows.now }
        ensures lent { Lent self.old self.new self.old.count }
    {
        put4(self.rows, k * 10 + 12, x);
    }

    // Each timer is due no earlier than the floor, on a clock that is set back.
    fn settle(&mut self, floor: u32, back: u32)
        ensures does { Leaves self.old.count self.old.rows.now self.new.rows.now (map (settled_by back floor) (records_in self.old.count self.old.rows.now)) }
        ensures lent { Lent self.old self.new self.old.count }
    {
        for k in 0..self.count {
            let x = self.due_at(k);
            self.set_due(k, settled(x, floor, back));
        }
    }

    // The time. The clock is set back first where the time of something that many tocks away would not fit its four bytes.
    fn time_before(&mut self, left: u32) -> u32
        ensures means { (result ≡ le4 self.new.rows.now 2) × (result + left < 2 ^ 32) × (held self.new ≡ held self.old) }
        ensures upright { InOrder self.old self.new }
        ensures lent { Lent self.old self.new self.old.count }
    {
        let time = self.time();
        if left <= u32::MAX - time {
            return time;
        }
        self.settle(0, time);
        put4(self.rows, 2, 0);
        let floor = self.floor();
        put4(self.rows, 6, minus(floor, time));
        0
    }

    // The place behind those that are due by a time. They are in order, so these end with the last that keeps no later time.
    fn place(&self, due: u32) -> Found
        ensures { Placed self.now.count due self.now.rows.now result.at result.first }
    {
        let mut first = u32::MAX;
        for k in (0..self.count).rev() {
            let time = self.due_at(k);
            if time <= due {
                return Found { at: k + 1, first };
            }
            first = lesser(time, first);
        }
        Found { at: 0, first }
    }

    // Lowers the floor to a time before it. No timer that was due at the floor is due earlier.
    fn lower(&mut self, due: u32)
        requires { due < le4 self.old.rows.now 6 }
        ensures means { Lowered self.old.count due self.old.rows.now self.new.rows.now }
        ensures upright { InOrder self.old self.new }
        ensures lent { Lent self.old self.new self.old.count }
    {
        let floor = self.floor();
        self.settle(floor, 0);
        put4(self.rows, 6, due);
    }

    // Puts a record in before record at, where there is room for one more.
    fn put_in(&mut self, at: usize, t: Timer, due: u32)
        requires { (at ≤ self.old.count) × (self.old.count * 10 + 20 ≤ length self.old.rows.now) }
        ensures does { Leaves (self.old.count + 1) self.old.rows.now self.new.rows.now (insert_at at (entry t.task t.semaphore due t.period) (records_in self.old.count self.old.rows.now)) }
        ensures lent { Lent self.old self.new (self.old.count + 1) }
    {
        rows::insert_at(self.rows, self.count + 1, 10, at + 1, &row_of(t, due));
        self.count += 1;
    }

    // Puts a timer in behind those that are due no later, where there is room for one more.
    pub fn insert(&mut self, t: Timer, left: u32)
        requires { self.old.count * 10 + 20 ≤ length self.old.rows.now }
        ensures means { held self.new ≡ insert_by tocks_left (timer t.task t.semaphore left t.period) (held self.old) }
        ensures upright { InOrder self.old self.new }
        ensures lent { Lent self.old self.new (self.old.count + 1) }
    {
        let due = self.time_before(left) + left;
        if due < self.floor() {
            self.lower(due);
            self.put_in(0, t, due);
            return;
        }
        let at = self.place(due).at;
        self.put_in(at, t, due);
    }

    // Whether a purge leaves timer k.
    fn is_left(&self, k: usize, task: u8, semaphore: Option<u8>) -> bool
        requires { k < self.now.count }
        ensures { result ≡ stays task (is_none semaphore) (unwrap_or semaphore 0) (left_at 0 (record_at self.now.rows.now k)) }
    {
        if self.rows[k * 10 + 10] != task {
            return true;
        }
        match semaphore {
            None => false,
            Some(semaphore) => self.rows[k * 10 + 11] != semaphore,
        }
    }

    // Makes record k ready to be taken out: the one before it is due no later than it was.
    fn hand_on(&mut self, k: usize)
        requires { k < self.old.count }
        ensures does { Leaves self.old.count self.old.rows.now self.new.rows.now (handed_on k (records_in self.old.count self.old.rows.now)) }
        ensures lent { Lent self.old self.new self.old.count }
    {
        if k == 0 {
            return;
        }
        let x = self.due_at(k - 1);
        let y = self.due_at(k);
        self.set_due(k - 1, lesser(x, y));
    }

    // Takes timer k out.
    fn remove(&mut self, k: usize)
        requires { k < self.old.count }
        ensures means { held self.new ≡ remove_at k (held self.old) }
        ensures upright { InOrder self.old self.new }
        ensures lent { Lent self.old self.new (self.old.count - 1) }
    {
        self.hand_on(k);
        rows::remove_at(self.rows, self.count + 1, 10, k + 1);
        self.count -= 1;
    }

    // Takes out the timers of a task on a semaphore, or all of the task where none is named.
    // From the last one back, so that the fewest rows are moved.
    pub fn purge(&mut self, task: u8, semaphore: Option<u8>)
        ensures means { (self.new.count ≤ self.old.count) × (held self.new ≡ keep (stays task (is_none semaphore) (unwrap_or semaphore 0)) (held self.old)) }
        ensures upright { InOrder self.old self.new }
        ensures lent { Lent self.old self.new self.new.count }
    {
        for k in (0..self.count).rev() {
            if !self.is_left(k, task, semaphore) {
                self.remove(k);
            }
        }
    }

    // A tock passes for each timer. Gives the number of those that are then due.
    // Before the floor none is due. From the floor on the timers are looked at, and where none is due, the floor goes up.
    pub fn pass(&mut self) -> usize
        ensures means { (result ≤ self.old.count) × (result ≡ due_in (held self.new)) × (held self.new ≡ map tocked (held self.old)) }
        ensures upright { InOrder self.old self.new }
        ensures lent { Lent self.old self.new self.old.count }
    {
        let time = self.time_before(1) + 1;
        put4(self.rows, 2, time);
        if time < self.floor() {
            return 0;
        }
        let due = self.place(time);
        if due.at == 0 {
            put4(self.rows, 6, due.first);
        }
        due.at
    }

    // Puts the first timer, which is due, in again with its period left. Only the timers before its new place are moved.
    fn put_again(&mut self, t: Timer)
        requires { 0 < due_in (held self.old) }
        ensures means { held self.new ≡ insert_by tocks_left (timer t.task t.semaphore t.period t.period) (remove_at 0 (held self.old)) }
        ensures upright { InOrder self.old self.new }
        ensures lent { Lent self.old self.new self.old.count }
    {
        let due = self.time_before(t.period) + t.period;
        let at = self.place(due).at;
        rows::replace_at(self.rows, self.count + 1, 10, 1, at, &row_of(t, due));
    }

    // Takes the first timer, which is due, out, and puts it in again if it is cyclic. Gives the semaphore that it signals.
    #[tactic(auto, using(crate::specs::Tocks::some_timer))]
    pub fn take_due(&mut self) -> u8
        requires { 0 < due_in (held self.old) }
        ensures means { (self.new.count ≤ self.old.count) × (result ≡ (first_due (held self.old)).semaphore) × (held self.new ≡ taken_due (held self.old)) }
        ensures upright { InOrder self.old self.new }
        ensures lent { Lent self.old self.new self.new.count }
    {
        let first = Timer {
            task: self.rows[10],
            semaphore: self.rows[11],
            period: self.period_at(0),
        };
        if first.period == 0 {
            self.remove(0);
        } else {
            self.put_again(first);
        }
        first.semaphore
    }
}
