// The fresh memory of an accepted configuration.
ghost use Rattle.std.specs.Prelude.{◌≡◌, ◌*◌, ◌≤◌, length, replicate};
ghost use Rattle.ledger.specs.Config.{config_in, config_refusal};
ghost use Rattle.tables.specs.Layout.{Fits};
ghost use Rattle.tables.specs.Shows.{Of};
ghost use Rattle.configuration.specs.Fresh.{kind_of, idle_of, FreshTables};
ghost use Rattle.configuration.specs.Written.{Begun, Marked};
ghost use Rattle.configuration.specs.Started.{timers_bytes, Started};

use crate::frame::states;
use tables::planes::put_bit;
use tables::shape::{PLANES_AT, RECORDS_AT, Shape, TICKS_AT};

// The front of the block `timers`: their number and their clock.
const TIMERS_FRONT: usize = 11;

// Not by a slice's `fill`, a function of std, whose code the theorems about runs (crates/theorems, World) cannot have.
fn fill(part: &mut [u8], v: u8)
    ensures { part.new ≡ replicate (length part.old) v }
{
    for byte in part.iter_mut() {
        *byte = v;
    }
}

// The kind of a fresh task's outcome: begin if it is runnable, plain if it is idle.
fn kind_of(state: u8) -> u8
    ensures { result ≡ kind_of state }
{
    if state == 0 { 1 } else { 0 }
}

// The outcomes of the tasks' records.
fn begin(states: &[u8], records: &mut [u8])
    requires { length records.old ≡ 6 * length states.now }
    ensures { Begun states.now records.old records.new (length states.now) }
{
    for (i, state) in states.iter().enumerate() {
        records[i * 6] = kind_of(*state);
    }
}

// The idle tasks, a bit each. Their plane is the first.
fn mark_idle(states: &[u8], planes: &mut [u8])
    requires { (length planes.old ≡ 64) × (length states.now ≤ 126) }
    ensures { Marked states.now planes.old planes.new (length states.now) }
{
    for (i, state) in states.iter().enumerate() {
        planes[i / 8] = put_bit(planes[i / 8], i % 8, *state != 0);
    }
}

// The tables up to the messages. The bytes behind stay.
fn fresh_tables(states: &[u8], ticks: u8, tables: &mut [u8], shape: Shape)
    requires { Fits shape (length tables.old) × (length states.now ≡ shape.tasks) }
    ensures { FreshTables shape ticks states.now tables.new }
{
    let end = shape.messageat;
    fill(&mut tables[0..end], 0);
    mark_idle(states, &mut tables[PLANES_AT..RECORDS_AT]);
    let at = shape.recordat;
    let behind = shape.semaphoreat;
    begin(states, &mut tables[at..behind]);
    tables[TICKS_AT] = ticks;
}

// The fresh tables, slots and timers of an accepted frame.
pub fn start(frame: &[u8], tables: &mut [u8], slots: &mut [u8], timers: &mut [u8], shape: Shape)
    requires { (config_refusal frame.now ≡ 0) × Of (config_in frame.now) shape × (shape.end ≤ length tables.old)
        × (16 * shape.tasks ≤ length slots.old) × (timers_bytes shape ≤ length timers.old) }
    ensures { Started frame.now tables.new slots.new timers.new }
{
    fresh_tables(states(frame), frame[5], tables, shape);
    let end = 16 * shape.tasks;
    fill(&mut slots[0..end], 0);
    fill(&mut timers[0..TIMERS_FRONT], 0);
}
