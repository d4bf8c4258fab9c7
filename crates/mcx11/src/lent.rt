// The test for number 11: the sizes of the lent blocks, their marks, the configuration that they hold, and the messages.
ghost use Rattle.std.specs.Prelude.{◌≡◌, true, cond, ◌&&◌, ◌+◌, ◌≤◌, leb, length};
ghost use Rattle.tables.specs.Layout.{Fits};
ghost use Rattle.mailboxes.specs.Room.{sound_in};
ghost use Rattle.ledger.specs.Config as limit;
ghost use Rattle.configuration.specs.Limits.{limits_of, Made};
ghost use Rattle.configuration.specs.Block.{counts_rule};
ghost use Rattle.parts.specs.Parts.{part_at, frame_at, marked_by, part, kept_frame};
ghost use Rattle.mcx11.specs.Contract.{sizes_of, config_mark, tables_mark, slots_mark, timers_mark};
ghost use Rattle.mcx11.specs.Sizes.{sizes_in, RoomForMarks};
ghost use Rattle.mcx11.specs.Tested.{MeetsLimits, Tested};

use configuration::limits::Limits;
use parts::{FRAME_AT, PART_AT};
use tables::shape::{RECORDS_AT, Shape};

// The fixed sizes of the lent blocks.
#[derive(Clone, Copy)]
pub struct Sizes {
    pub config: usize,
    pub tables: usize,
    pub slots: usize,
    pub timers: usize,
    pub answer: usize,
}

// Four bytes at both ends of each block: MCXC, MCXT, MCXS and MCXR.
pub const CONFIG_MARK: u32 = 0x4358434D;

pub const TABLES_MARK: u32 = 0x5458434D;

pub const SLOTS_MARK: u32 = 0x5358434D;

pub const TIMERS_MARK: u32 = 0x5258434D;

// The most that a configuration within the limits needs, with the marks.
#[tactic(auto, unfolding(crate::specs::Contract::sizes_of))]
pub fn sizes_of(limits: Limits) -> Sizes
    ensures { sizes_in result ≡ sizes_of (limits_of limits) }
{
    let frame = configuration::limits::longest(limits);
    let tasks = limits.tasks as usize;
    let queues = limits.queues as usize;
    let messages = limits.messages as usize;
    let timers = limits.timers as usize;
    let bytes = limits.bytes as usize;
    Sizes {
        config: FRAME_AT + frame + 4,
        tables: PART_AT + (RECORDS_AT + 22 * tasks + 255 + 2 * queues + 4 * messages + bytes) + 4,
        slots: PART_AT + 16 * tasks + 4,
        timers: PART_AT + (11 + 10 * timers) + 4,
        answer: 21,
    }
}

// Whether blocks of these lengths have their sizes. The lengths come one by one: a second `Sizes` would only be made to be taken apart.
pub fn has_sizes(
    n: Sizes,
    config: usize,
    tables: usize,
    slots: usize,
    timers: usize,
    answer: usize,
) -> bool
    ensures { result ≡ (leb n.config config && leb n.tables tables && leb n.slots slots && leb n.timers timers && leb n.answer answer) }
{
    n.config <= config
        && n.tables <= tables
        && n.slots <= slots
        && n.timers <= timers
        && n.answer <= answer
}

// Whether each block has its own mark at both ends.
fn is_marked(n: Sizes, config: &[u8], tables: &[u8], slots: &[u8], timers: &[u8]) -> bool
    requires { RoomForMarks (sizes_in n) (length config.now) (length tables.now) (length slots.now) (length timers.now) }
    ensures { result ≡ (marked_by config_mark n.config config.now && marked_by tables_mark n.tables tables.now
        && marked_by slots_mark n.slots slots.now && marked_by timers_mark n.timers timers.now) }
{
    parts::is_marked(config, n.config, CONFIG_MARK)
        && parts::is_marked(tables, n.tables, TABLES_MARK)
        && parts::is_marked(slots, n.slots, SLOTS_MARK)
        && parts::is_marked(timers, n.timers, TIMERS_MARK)
}

// How long the frame is that the block keeps, and how much there is of each.
pub fn counts(limits: Limits, config: &[u8]) -> bool
    requires { frame_at + limit.longest (limits_of limits) + 4 ≤ length config.now }
    ensures { result ≡ counts_rule (limits_of limits) (kept_frame config.now) }
{
    let n = parts::frame_length(config);
    configuration::block::counts(limits, &config[FRAME_AT..], n)
}

// What the limits are asked for: the sizes, the marks, and how much there is of each. The sizes are handed in, so that the compiler
// finds this short enough to put it into each entry, with the entry's own numbers.
pub fn meets_limits(
    limits: Limits,
    n: Sizes,
    config: &[u8],
    tables: &[u8],
    slots: &[u8],
    timers: &[u8],
    answer: usize,
) -> bool
    requires { sizes_in n ≡ sizes_of (limits_of limits) }
    ensures { MeetsLimits (limits_of limits) config.now tables.now slots.now timers.now answer result }
{
    has_sizes(
        n,
        config.len(),
        tables.len(),
        slots.len(),
        timers.len(),
        answer,
    ) && is_marked(n, config, tables, slots, timers)
        && counts(limits, config)
}

// The messages of tables with this shape.
fn by_messages(tables: &[u8], shape: Shape) -> Option<Shape>
    requires { Fits shape shape.end × (part_at + shape.end ≤ length tables.now) }
    ensures { result ≡ cond (sound_in shape (part shape.end tables.now)) (Some shape) None }
{
    let end = PART_AT + shape.end;
    if mailboxes::sound(&tables[PART_AT..end], shape) {
        return Some(shape);
    }
    None
}

// The rest: the shape of the frame that is kept, where it and the messages keep the rules. No `?`, which calls code of std.
pub fn test(limits: Limits, kept: &[u8], tables: &[u8]) -> Option<Shape>
    requires { Made (limits_of limits) × (counts_rule (limits_of limits) kept.now ≡ true) × ((sizes_of (limits_of limits)).tables ≤ length tables.now) }
    ensures { Tested (limits_of limits) kept.now tables.now result }
{
    let Some(shape) = configuration::block::lent(limits, kept) else {
        return None;
    };
    by_messages(tables, shape)
}
