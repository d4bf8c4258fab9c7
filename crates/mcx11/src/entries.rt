// The exported functions of the executive: the ride controller's, and those of the brake module, which has less memory.
// Each gives the number: 0 accepted, 11 where the lent memory is short or, for a frame, broken; then nothing is written.
ghost use Rattle.ledger.specs.Config as limits;
ghost use Rattle.mcx11.specs.Contract.{memory, Configures, Frames};

use configuration::limits::{brake_module, controller};
use refusals::returned;

// Configures the ride controller.
pub fn mcx11_configure_blocks(
    frame: &[u8],
    config: &mut [u8],
    tables: &mut [u8],
    slots: &mut [u8],
    timers: &mut [u8],
    answer: &mut [u8],
) -> u8
    ensures { Configures limits.controller frame.now (memory config.old tables.old slots.old timers.old answer.old)
        (memory config.new tables.new slots.new timers.new answer.new) result }
{
    returned(crate::by_limits::configure(
        controller(),
        frame,
        config,
        tables,
        slots,
        timers,
        answer,
    ))
}

// Carries out a frame on the ride controller.
pub fn mcx11_frame_blocks(
    frame: &[u8],
    config: &[u8],
    tables: &mut [u8],
    slots: &mut [u8],
    timers: &mut [u8],
    answer: &mut [u8],
) -> u8
    ensures { Frames limits.controller frame.now (memory config.now tables.old slots.old timers.old answer.old)
        (memory config.now tables.new slots.new timers.new answer.new) result }
{
    returned(crate::by_limits::frame(controller(), frame, config, tables, slots, timers, answer))
}

// Configures the brake module.
pub fn mcx11_module_configure_blocks(
    frame: &[u8],
    config: &mut [u8],
    tables: &mut [u8],
    slots: &mut [u8],
    timers: &mut [u8],
    answer: &mut [u8],
) -> u8
    ensures { Configures limits.brake_module frame.now (memory config.old tables.old slots.old timers.old answer.old)
        (memory config.new tables.new slots.new timers.new answer.new) result }
{
    returned(crate::by_limits::configure(
        brake_module(),
        frame,
        config,
        tables,
        slots,
        timers,
        answer,
    ))
}

// Carries out a frame on the brake module.
pub fn mcx11_module_frame_blocks(
    frame: &[u8],
    config: &[u8],
    tables: &mut [u8],
    slots: &mut [u8],
    timers: &mut [u8],
    answer: &mut [u8],
) -> u8
    ensures { Frames limits.brake_module frame.now (memory config.now tables.old slots.old timers.old answer.old)
        (memory config.now tables.new slots.new timers.new answer.new) result }
{
    returned(crate::by_limits::frame(brake_module(), frame, config, tables, slots, timers, answer))
}
