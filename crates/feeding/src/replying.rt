// The answer to a line, in the answer block.
ghost use Rattle.std.specs.Prelude.{◌≤◌, length};
ghost use Rattle.ledger.specs.Lines.{frame_of};
ghost use Rattle.answer.specs.Written.{answer_bytes};
ghost use Rattle.configuration.specs.Layout.{Lends};
ghost use Rattle.parts.specs.Parts.{kept_frame};
ghost use Rattle.mcx11.specs.Contract.{memory, sizes_of};
ghost use Rattle.ledger.specs.Config as limits;
ghost use Rattle.mcx11.specs.Sizes.{Full};
ghost use Rattle.feeding.specs.Replies.{FirstReply, RefusesLine, GoesOn};

use super::Stage;
use configuration::limits::controller;
use line::LONGEST_FRAME;
use tables::shape::Shape;

// The answer to the first line: it is to be a configuration.
pub fn reply_first(
    line: &[u8],
    config: &mut [u8],
    tables: &mut [u8],
    slots: &mut [u8],
    timers: &mut [u8],
    answer: &mut [u8],
) -> Stage
    requires { Full limits.controller (memory config.old tables.old slots.old timers.old answer.old) }
    ensures { FirstReply (frame_of line.now) (memory config.new tables.new slots.new timers.new answer.new) result }
{
    let mut frame = [0u8; LONGEST_FRAME];
    match line::read(line, &mut frame) {
        Err(_) => {
            answer::refuse_configuration(1, answer);
            Stage::Ended
        }
        Ok(n) => {
            let r = mcx11::entries::mcx11_configure_blocks(
                &frame[..n],
                config,
                tables,
                slots,
                timers,
                answer,
            );
            if r == 0 { Stage::Running } else { Stage::Ended }
        }
    }
}

// The frame of the configuration that the block keeps.
fn by_frame(config: &[u8]) -> Option<Shape>
    requires { (sizes_of limits.controller).config ≤ length config.now }
    ensures { Lends limits.controller (kept_frame config.now) result }
{
    let limits = controller();
    if !mcx11::lent::counts(limits, config) {
        return None;
    }
    configuration::block::lent(limits, parts::kept_frame(config))
}

// The answer to a line that is no frame.
fn refuse_line(config: &[u8], tables: &[u8], slots: &[u8], answer: &mut [u8])
    requires { ((sizes_of limits.controller).config ≤ length config.now) × ((sizes_of limits.controller).tables ≤ length tables.now)
        × ((sizes_of limits.controller).slots ≤ length slots.now) × (answer_bytes ≤ length answer.old) }
    ensures { RefusesLine config.now tables.now slots.now answer.old answer.new }
{
    if let Some(shape) = by_frame(config) {
        mcx11::by_limits::tell(tables, slots, shape, 1, answer);
    }
}

// The answer to any other line.
pub fn reply_next(
    line: &[u8],
    config: &[u8],
    tables: &mut [u8],
    slots: &mut [u8],
    timers: &mut [u8],
    answer: &mut [u8],
)
    requires { Full limits.controller (memory config.now tables.old slots.old timers.old answer.old) }
    ensures { GoesOn (frame_of line.now) (memory config.now tables.old slots.old timers.old answer.old)
        (memory config.now tables.new slots.new timers.new answer.new) }
{
    let mut frame = [0u8; LONGEST_FRAME];
    match line::read(line, &mut frame) {
        Err(_) => refuse_line(config, tables, slots, answer),
        Ok(n) => {
            mcx11::entries::mcx11_frame_blocks(&frame[..n], config, tables, slots, timers, answer);
        }
    }
}
