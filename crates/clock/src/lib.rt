// The clock: ticks, tocks and timers, in place in the lent memory.
// Promises: each operation is the ledger's own change, for every ledger that the memory shows.
// Rests on tables (what the memory shows) and timers (rows of ten bytes in a slice), and on the ledger's definitions.
// The block `timers` and the shape stay two parameters: a struct of both would be no plainer, since the functions that are lent the tables
// too would have to ask that both have one shape.
#![tactic(auto, using(crate::specs::Held::some_byte, crate::specs::Held::records_in_lem, crate::specs::Ticks::clock_in, crate::specs::Ticks::most_ticks))]

ghost use Rattle.std.specs.Prelude.{◌≡◌, cond, not, suc, ◌+◌, ◌-◌, ◌<◌, ◌≤◌, ltb, length, get_or, is_none, unwrap_or};
ghost use Rattle.ledger.specs.Ledger.{set_clock};
ghost use Rattle.ledger.specs.Refusals.{have_timer};
ghost use Rattle.timers.specs.Timers.{due_in};
ghost use Rattle.timers.specs.Drained.{next_due, take_due};
ghost use Rattle.tables.specs.Decode.{count_of, left_of};
ghost use Rattle.tables.specs.Layout.{ticks_at};
ghost use Rattle.tables.specs.Lent.{Step, Goes};
ghost use Rattle.tables.specs.Shows.{Tells};
ghost use Rattle.clock.specs.Held.{Holds, held_in};
ghost use Rattle.clock.specs.Does.{DoesTimers, TellsTimers, Starts, purged};
ghost use Rattle.clock.specs.Ticks.{AfterTick};
ghost use Rattle.clock.specs.Tocks.{Advanced};

use tables::counts::count_of;
use tables::lent::Tables;
use tables::shape::{Shape, TICKS_AT};
use timers::Timer;

mod lending;

// The block `timers`: the number of timers, and behind it their rows with their clock.
const NUMBER_AT: usize = 0;

const ROWS_AT: usize = 1;

// The number of timers.
pub fn count(timers: &[u8], shape: Shape) -> usize
    requires { Holds shape (length timers.now) }
    ensures { (result ≤ shape.timers) × (result ≡ count_of shape.timers (get_or timers.now 0 0)) × TellsTimers shape timers.now (λ c L. length L.timers) result }
{
    count_of(shape.timers, timers[NUMBER_AT])
}

// Whether a task has a timer on a semaphore.
pub fn has(timers: &[u8], shape: Shape, task: u8, semaphore: u8) -> bool
    requires { Holds shape (length timers.now) }
    ensures { TellsTimers shape timers.now (λ c L. have_timer L task semaphore) result }
{
    let n = count(timers, shape);
    timers::has(&timers[ROWS_AT..], n, task, semaphore)
}

// Starts a timer, where a record is left for it. Period 0 is that of one that is not cyclic, as in the ledger.
// It is compiled into its callers, since each call would take a copy of the shape on the stack.
#[inline(always)]
pub fn start(timers: &mut [u8], shape: Shape, task: u8, semaphore: u8, left: u32, period: u32)
    requires { Holds shape (length timers.old) }
    ensures { Starts shape timers.old timers.new task semaphore left period }
{
    let n = count(timers, shape);
    if n >= shape.timers {
        return;
    }
    let timer = Timer {
        task,
        semaphore,
        period,
    };
    lending::insert(&mut timers[ROWS_AT..], n, timer, left);
    timers[NUMBER_AT] = (n + 1) as u8;
}

// Takes out a task's timers on a semaphore, or all of the task's where none is named.
pub fn purge(timers: &mut [u8], shape: Shape, task: u8, semaphore: Option<u8>)
    requires { Holds shape (length timers.old) }
    ensures { DoesTimers shape timers.old timers.new (λ c L. purged task (is_none semaphore) (unwrap_or semaphore 0) L) }
{
    let n = count(timers, shape);
    let left = lending::purge(&mut timers[ROWS_AT..], n, task, semaphore);
    timers[NUMBER_AT] = left as u8;
}

// Takes the first due timer out, and puts it in again if it is cyclic. Gives the semaphore that it signals.
pub fn take_due(timers: &mut [u8], shape: Shape) -> u8
    requires { Holds shape (length timers.old) × (0 < due_in (held_in shape timers.old)) }
    ensures fewer { due_in (held_in shape timers.new) ≡ due_in (held_in shape timers.old) - 1 }
    ensures tells { TellsTimers shape timers.old (λ c L. (next_due L).semaphore) result }
    ensures does { DoesTimers shape timers.old timers.new (λ c L. take_due L) }
{
    let n = count(timers, shape);
    let due = lending::take_due(&mut timers[ROWS_AT..], n);
    timers[NUMBER_AT] = due.count as u8;
    due.semaphore
}

// A tock passes for every timer. Gives the number of those that are then due.
fn pass(timers: &mut [u8], shape: Shape) -> usize
    requires { Holds shape (length timers.old) }
    ensures { (result ≤ shape.timers) × (result ≡ due_in (held_in shape timers.new)) × DoesTimers shape timers.old timers.new (λ c L. set_clock (suc L.N) L.ticks L) }
{
    let n = count(timers, shape);
    lending::pass(&mut timers[ROWS_AT..], n)
}

// The tick's record: the ticks left in the tock, and the ticks per tock.
#[derive(Clone, Copy)]
pub struct Ticks {
    pub left: usize,
    pub pertock: usize,
}

// One tick in the record. Gives whether a tock passed.
fn count_tick(ticks: &mut Ticks) -> bool
    requires { (1 ≤ ticks.old.left) × (ticks.old.left ≤ ticks.old.pertock) }
    ensures { AfterTick ticks.old.pertock ticks.old.left ticks.new.left result × (ticks.new.pertock ≡ ticks.old.pertock) }
{
    if ticks.left > 1 {
        ticks.left -= 1;
        return false;
    }
    ticks.left = ticks.pertock;
    true
}

// Ticks left, all of a tock where the byte says none or more.
fn left_of(ticks: usize, x: u8) -> usize
    requires { 1 ≤ ticks }
    ensures { (1 ≤ result) × (result ≤ ticks) × (result ≡ left_of ticks x) }
{
    let left = x as usize;
    if left == 0 || left > ticks {
        ticks
    } else {
        left
    }
}

// The ticks left in the tock.
fn ticks_left(tables: &Tables<'_>) -> usize
    ensures { (1 ≤ result) × (result ≤ tables.now.shape.ticks) × (result ≡ left_of tables.now.shape.ticks (get_or tables.now.bytes.now ticks_at 0)) }
{
    left_of(tables.shape.ticks, tables.bytes[TICKS_AT])
}

// One tick in the tables. Gives whether a tock passed.
fn tick(tables: &mut Tables<'_>) -> bool
    ensures tells { Tells tables.old.shape tables.old.bytes.now (λ c L. not (ltb (suc L.ticks) c.K)) result }
    ensures does { Goes tables.old tables.new (λ c L. set_clock L.N (cond result 0 (suc L.ticks)) L) }
{
    let left = ticks_left(tables);
    let mut ticks = Ticks {
        left,
        pertock: tables.shape.ticks,
    };
    let tock = count_tick(&mut ticks);
    tables.bytes[TICKS_AT] = ticks.left as u8;
    tock
}

// One tick. Gives how often a caller has to take a due timer and signal its semaphore.
pub fn advance(tables: &mut Tables<'_>, timers: &mut [u8]) -> usize
    requires { Holds tables.old.shape (length timers.old) }
    ensures { Step tables.old tables.new (λ s d d'. Advanced s d timers.old d' timers.new result) }
{
    if tick(tables) {
        return pass(timers, tables.shape);
    }
    0
}
