// The archive for C: the functions of mcx11 under C's calling convention, each with the clauses of the function that it calls.
// Promises: what mcx11 promises of the function of the same name, for every argument; no call asks anything of its caller.
// Rests on mcx11, and on a caller that lends each slice as a pointer with its length, and each number as a pointer.
#![tactic(auto)]

ghost use Rattle.std.specs.Prelude.{◌≡◌, length};
ghost use Rattle.ledger.specs.Lines as lines;
ghost use Rattle.ledger.specs.Time as time;
ghost use Rattle.ledger.specs.Config as limits;
ghost use Rattle.stretch.specs.Busiest.{busiest_of, Gives};
ghost use Rattle.starts.specs.Starts.{Leaves};
ghost use Rattle.mcx11.specs.Results.{Returns, returned_tocks};
ghost use Rattle.mcx11.specs.Contract.{memory, Configures, Frames};

use starts::Cycle;
use stretch::Record;

// Reads a line of digits into the front of frame.
#[unsafe(no_mangle)]
pub extern "C" fn mcx11_read_line(line: &[u8], frame: &mut [u8]) -> i32
    ensures { Returns (lines.read_line (length frame.old) line.now) frame.old frame.new result }
{
    mcx11::mcx11_read_line(line, frame)
}

// Writes a frame's digits into the front of line.
#[unsafe(no_mangle)]
pub extern "C" fn mcx11_write_line(frame: &[u8], line: &mut [u8]) -> i32
    ensures { Returns (lines.write_line (length line.old) frame.now) line.old line.new result }
{
    mcx11::mcx11_write_line(frame, line)
}

// Milliseconds as tocks of per milliseconds each.
#[unsafe(no_mangle)]
pub extern "C" fn mcx11_milliseconds(ms: u16, per: u16) -> i32
    ensures { result ≡ returned_tocks (time.milliseconds ms per) }
{
    mcx11::mcx11_milliseconds(ms, per)
}

// The busiest stretch of w records: 0 with its sum and its place, or the number that refuses the call.
#[unsafe(no_mangle)]
pub extern "C" fn mcx11_busiest(
    records: &[Record],
    w: usize,
    sum: &mut u32,
    place: &mut usize,
) -> u8
    ensures { Gives (busiest_of records.now w) sum.old place.old sum.new place.new result }
{
    mcx11::mcx11_busiest(records, w, sum, place)
}

// A start for a new timer of the period that collides with none of the timers: 0 with the smallest, or that there is none, or the number
// that refuses the call.
#[unsafe(no_mangle)]
pub extern "C" fn mcx11_free_start(timers: &[Cycle], period: u32, start: &mut u32) -> u8
    ensures { Leaves timers.now period start.old start.new result }
{
    mcx11::mcx11_free_start(timers, period, start)
}

// Configures the ride controller.
#[unsafe(no_mangle)]
pub extern "C" fn mcx11_configure_blocks(
    frame: &[u8],
    config: &mut [u8],
    tables: &mut [u8],
    slots: &mut [u8],
    timers: &mut [u8],
    answer: &mut [u8],
) -> u8
    ensures { Configures limits.controller frame.now (memory config.old tables.old slots.old timers.old answer.old)
        (memory config.new tables.new slots.new timers.new answer.new) result }
{
    mcx11::entries::mcx11_configure_blocks(frame, config, tables, slots, timers, answer)
}

// Carries out a frame on the ride controller.
#[unsafe(no_mangle)]
pub extern "C" fn mcx11_frame_blocks(
    frame: &[u8],
    config: &[u8],
    tables: &mut [u8],
    slots: &mut [u8],
    timers: &mut [u8],
    answer: &mut [u8],
) -> u8
    ensures { Frames limits.controller frame.now (memory config.now tables.old slots.old timers.old answer.old)
        (memory config.now tables.new slots.new timers.new answer.new) result }
{
    mcx11::entries::mcx11_frame_blocks(frame, config, tables, slots, timers, answer)
}

// Configures the brake module.
#[unsafe(no_mangle)]
pub extern "C" fn mcx11_module_configure_blocks(
    frame: &[u8],
    config: &mut [u8],
    tables: &mut [u8],
    slots: &mut [u8],
    timers: &mut [u8],
    answer: &mut [u8],
) -> u8
    ensures { Configures limits.brake_module frame.now (memory config.old tables.old slots.old timers.old answer.old)
        (memory config.new tables.new slots.new timers.new answer.new) result }
{
    mcx11::entries::mcx11_module_configure_blocks(frame, config, tables, slots, timers, answer)
}

// Carries out a frame on the brake module.
#[unsafe(no_mangle)]
pub extern "C" fn mcx11_module_frame_blocks(
    frame: &[u8],
    config: &[u8],
    tables: &mut [u8],
    slots: &mut [u8],
    timers: &mut [u8],
    answer: &mut [u8],
) -> u8
    ensures { Frames limits.brake_module frame.now (memory config.now tables.old slots.old timers.old answer.old)
        (memory config.now tables.new slots.new timers.new answer.new) result }
{
    mcx11::entries::mcx11_module_frame_blocks(frame, config, tables, slots, timers, answer)
}
