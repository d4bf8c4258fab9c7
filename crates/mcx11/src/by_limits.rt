// The executive over its limits: a configuration, and a frame. Each lends on the parts of the blocks that the configuration needs.
ghost use Rattle.std.specs.Prelude.{◌≡◌, true, ◌+◌, ◌*◌, ◌≤◌, length};
ghost use Rattle.answer.specs.Written.{answer_bytes};
ghost use Rattle.ledger.specs.Config.{config_in, config_refusal, config_refusal_by};
ghost use Rattle.tables.specs.Layout.{Fits};
ghost use Rattle.tables.specs.Shows.{Of};
ghost use Rattle.configuration.specs.Limits.{limits_of, Made};
ghost use Rattle.configuration.specs.Block.{counts_rule};
ghost use Rattle.configuration.specs.Started.{timers_bytes};
ghost use Rattle.refusals.specs.Numbers.{number_in};
ghost use Rattle.parts.specs.Parts.{part_at, ends};
ghost use Rattle.mcx11.specs.Contract as contract;
ghost use Rattle.mcx11.specs.Contract.{memory, Begins, Configures, Frames};
ghost use Rattle.mcx11.specs.Sizes.{sizes_in, RoomForMarks};
ghost use Rattle.mcx11.specs.Inside.{Room, StepsInside, Sized, FramesInside};
ghost use Rattle.mcx11.specs.Begun.{TellsNow, Places};

use crate::lent::{CONFIG_MARK, SLOTS_MARK, Sizes, TABLES_MARK, TIMERS_MARK};
use configuration::limits::Limits;
use executive::frames::step;
use parts::PART_AT;
use refusals::Refusal;
use tables::shape::Shape;

// A frame to the parts of blocks that are lent well, with the configuration's frame that is kept.
fn feed(
    frame: &[u8],
    kept: &[u8],
    tables: &mut [u8],
    slots: &mut [u8],
    timers: &mut [u8],
    shape: Shape,
    answer: &mut [u8],
) -> Result<(), Refusal>
    requires { Room shape kept.now tables.old slots.old timers.old × (answer_bytes ≤ length answer.old) }
    ensures { StepsInside shape frame.now kept.now tables.old slots.old timers.old answer.old
        tables.new slots.new timers.new answer.new (number_in result) }
{
    let tables_end = PART_AT + shape.end;
    let slots_end = PART_AT + 16 * shape.tasks;
    let timers_end = PART_AT + (11 + 10 * shape.timers);
    step(
        frame,
        kept,
        &mut tables[PART_AT..tables_end],
        &mut slots[PART_AT..slots_end],
        &mut timers[PART_AT..timers_end],
        shape,
        answer,
    )
}

// A frame to blocks that meet the limits, with the configuration's frame that is kept. Where the rest of the rules is broken nothing is
// written. No `?` and no `ok_or`, here and below: no code of std runs below an exported function (theorems/proofs/World).
pub fn inside(
    limits: Limits,
    frame: &[u8],
    kept: &[u8],
    tables: &mut [u8],
    slots: &mut [u8],
    timers: &mut [u8],
    answer: &mut [u8],
) -> Result<(), Refusal>
    requires { Made (limits_of limits) × (counts_rule (limits_of limits) kept.now ≡ true) × Sized (limits_of limits) tables.old slots.old timers.old answer.old }
    ensures { FramesInside (limits_of limits) frame.now kept.now tables.old slots.old timers.old answer.old
        tables.new slots.new timers.new answer.new (number_in result) }
{
    let Some(shape) = crate::lent::test(limits, kept, tables) else {
        return Err(Refusal::Memory);
    };
    feed(frame, kept, tables, slots, timers, shape, answer)
}

// A frame. Where the lent memory is short or broken nothing is written. This is compiled into each entry, so that the limits are tested
// there, with numbers that the compiler knows; the rest is one function for both.
#[inline(always)]
pub fn frame(
    limits: Limits,
    frame: &[u8],
    config: &[u8],
    tables: &mut [u8],
    slots: &mut [u8],
    timers: &mut [u8],
    answer: &mut [u8],
) -> Result<(), Refusal>
    requires { Made (limits_of limits) }
    ensures { Frames (limits_of limits) frame.now (memory config.now tables.old slots.old timers.old answer.old)
        (memory config.now tables.new slots.new timers.new answer.new) (number_in result) }
{
    let n = crate::lent::sizes_of(limits);
    if !crate::lent::meets_limits(limits, n, config, tables, slots, timers, answer.len()) {
        return Err(Refusal::Memory);
    }
    let kept = parts::kept_frame(config);
    inside(limits, frame, kept, tables, slots, timers, answer)
}

// Sets the marks of all blocks.
fn mark_blocks(n: Sizes, config: &mut [u8], tables: &mut [u8], slots: &mut [u8], timers: &mut [u8])
    requires { RoomForMarks (sizes_in n) (length config.old) (length tables.old) (length slots.old) (length timers.old) }
    ensures { (config.new ≡ ends contract.config_mark n.config config.old) × (tables.new ≡ ends contract.tables_mark n.tables tables.old)
        × (slots.new ≡ ends contract.slots_mark n.slots slots.old) × (timers.new ≡ ends contract.timers_mark n.timers timers.old) }
{
    parts::mark_ends(config, n.config, CONFIG_MARK);
    parts::mark_ends(tables, n.tables, TABLES_MARK);
    parts::mark_ends(slots, n.slots, SLOTS_MARK);
    parts::mark_ends(timers, n.timers, TIMERS_MARK);
}

// The fresh tables, slots and timers of an accepted frame, in their parts.
fn place(frame: &[u8], tables: &mut [u8], slots: &mut [u8], timers: &mut [u8], shape: Shape)
    requires { (config_refusal frame.now ≡ 0) × Of (config_in frame.now) shape × (part_at + shape.end ≤ length tables.old) × (part_at + 16 * shape.tasks ≤ length slots.old)
        × (part_at + timers_bytes shape ≤ length timers.old) }
    ensures { Places shape frame.now tables.old slots.old timers.old tables.new slots.new timers.new }
{
    let tables_end = PART_AT + shape.end;
    let slots_end = PART_AT + 16 * shape.tasks;
    let timers_end = PART_AT + (11 + 10 * shape.timers);
    configuration::fresh::start(
        frame,
        &mut tables[PART_AT..tables_end],
        &mut slots[PART_AT..slots_end],
        &mut timers[PART_AT..timers_end],
        shape,
    );
}

// The answer that shows the running task, with a number and no reissues.
pub fn tell(tables: &[u8], slots: &[u8], shape: Shape, number: u8, answer: &mut [u8])
    requires { Fits shape shape.end × (part_at + shape.end ≤ length tables.now) × (part_at + 16 * shape.tasks ≤ length slots.now) × (answer_bytes ≤ length answer.old) }
    ensures { TellsNow shape tables.now slots.now number answer.old answer.new }
{
    let tables_end = PART_AT + shape.end;
    let slots_end = PART_AT + 16 * shape.tasks;
    let running = tables::tasks::running(&tables[PART_AT..tables_end], shape);
    answer::write(
        &tables[PART_AT..tables_end],
        &slots[PART_AT..slots_end],
        shape,
        running,
        number,
        0,
        answer,
    );
}

// The memory of an accepted configuration, and its answer.
fn begin(
    limits: Limits,
    frame: &[u8],
    config: &mut [u8],
    tables: &mut [u8],
    slots: &mut [u8],
    timers: &mut [u8],
    answer: &mut [u8],
)
    requires { Made (limits_of limits) × (config_refusal_by (limits_of limits) frame.now ≡ 0)
        × (contract.full_size (limits_of limits) (memory config.old tables.old slots.old timers.old answer.old) ≡ true) }
    ensures { Begins (limits_of limits) frame.now (memory config.old tables.old slots.old timers.old answer.old)
        (memory config.new tables.new slots.new timers.new answer.new) 0 }
{
    let n = crate::lent::sizes_of(limits);
    let shape = configuration::block::shape_of(frame);
    mark_blocks(n, config, tables, slots, timers);
    parts::keep_frame(frame, config);
    place(frame, tables, slots, timers, shape);
    tell(tables, slots, shape, 0, answer);
}

// A configuration. Where a lent block is short nothing is written.
pub fn configure(
    limits: Limits,
    frame: &[u8],
    config: &mut [u8],
    tables: &mut [u8],
    slots: &mut [u8],
    timers: &mut [u8],
    answer: &mut [u8],
) -> Result<(), Refusal>
    requires { Made (limits_of limits) }
    ensures { Configures (limits_of limits) frame.now (memory config.old tables.old slots.old timers.old answer.old)
        (memory config.new tables.new slots.new timers.new answer.new) (number_in result) }
{
    let n = crate::lent::sizes_of(limits);
    if !crate::lent::has_sizes(
        n,
        config.len(),
        tables.len(),
        slots.len(),
        timers.len(),
        answer.len(),
    ) {
        return Err(Refusal::Memory);
    }
    if let Err(refusal) = configuration::frame::refusal_by(limits, frame) {
        answer::refuse_configuration(u8::from(refusal), answer);
        return Err(refusal);
    }
    begin(limits, frame, config, tables, slots, timers, answer);
    Ok(())
}
