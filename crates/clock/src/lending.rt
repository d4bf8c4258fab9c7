// The rows of the block, lent as timers, with the number of timers that there are.
// Functions of their own: what a struct was lent of a part of a slice, the check does not know to be back in the slice afterwards, but
// what a function was lent it does.
ghost use Rattle.std.specs.Prelude.{◌≡◌, map, ◌+◌, ◌*◌, ◌<◌, ◌≤◌, length, is_none, unwrap_or};
ghost use Rattle.ledger.specs.Lists.{keep, insert_by};
ghost use Rattle.timers.specs.Timers.{timer, timers_in, tocks_left, stays, tocked, due_in, first_due, taken_due, StaysUpright};

use timers::{Timer, Timers};

// Puts one in, where there is room for it.
pub fn insert(rows: &mut [u8], count: usize, t: Timer, left: u32)
    requires { count * 10 + 20 ≤ length rows.old }
    ensures means { timers_in (count + 1) rows.new ≡ insert_by tocks_left (timer t.task t.semaphore left t.period) (timers_in count rows.old) }
    ensures upright { StaysUpright count rows.old (count + 1) rows.new }
{
    let mut lent = Timers { rows, count };
    lent.insert(t, left);
}

// Takes out those of a task on a semaphore, or all of the task. Gives the number that is left.
pub fn purge(rows: &mut [u8], count: usize, task: u8, semaphore: Option<u8>) -> usize
    requires { count * 10 + 10 ≤ length rows.old }
    ensures means { (result ≤ count) × (timers_in result rows.new ≡ keep (stays task (is_none semaphore) (unwrap_or semaphore 0)) (timers_in count rows.old)) }
    ensures upright { StaysUpright count rows.old result rows.new }
{
    let mut lent = Timers { rows, count };
    lent.purge(task, semaphore);
    lent.count
}

// A tock passes for each. Gives the number of those that are then due.
pub fn pass(rows: &mut [u8], count: usize) -> usize
    requires { count * 10 + 10 ≤ length rows.old }
    ensures means { (result ≤ count) × (result ≡ due_in (timers_in count rows.new)) × (timers_in count rows.new ≡ map tocked (timers_in count rows.old)) }
    ensures upright { StaysUpright count rows.old count rows.new }
{
    let mut lent = Timers { rows, count };
    lent.pass()
}

// The semaphore that a due timer signals, and the number of timers now.
#[derive(Clone, Copy)]
pub struct Due {
    pub semaphore: u8,
    pub count: usize,
}

// Takes the first one, which is due, out, and puts it in again if it is cyclic.
pub fn take_due(rows: &mut [u8], count: usize) -> Due
    requires { (count * 10 + 10 ≤ length rows.old) × (0 < due_in (timers_in count rows.old)) }
    ensures means { (result.count ≤ count) × (result.semaphore ≡ (first_due (timers_in count rows.old)).semaphore) × (timers_in result.count rows.new ≡ taken_due (timers_in count rows.old)) }
    ensures upright { StaysUpright count rows.old result.count rows.new }
{
    let mut lent = Timers { rows, count };
    let semaphore = lent.take_due();
    Due {
        semaphore,
        count: lent.count,
    }
}
