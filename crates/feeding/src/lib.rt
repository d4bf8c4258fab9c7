// A session's input fed in blocks: its lines cut out, answered by the executive, and the answers printed, all in lent memory.
// Promises: whatever the blocks are, what is printed is the ledger's `output` of the whole input (proofs/Whole, proofs/Session).
// Rests on mcx11 for the executive, on line for digits, on tables for a length's byte, and on configuration, parts and answer for the answer
// to a line that is no frame.
#![tactic(auto)]

mod gathering; // gathering.rt: the bytes of a line, up to its end
mod printing; // printing.rt: an answer as a line of output
mod replying; // replying.rt: the answer to a line

ghost use Rattle.std.specs.Prelude.{◌≡◌, ◌+◌, ◌*◌, ◌≤◌, ◌<◌, length, drop};
ghost use Rattle.rows.specs.Splice.{cut};
ghost use Rattle.mcx11.specs.Contract.{memory};
ghost use Rattle.ledger.specs.Config as limits;
ghost use Rattle.mcx11.specs.Sizes.{Full};
ghost use Rattle.feeding.specs.Line.{most};
ghost use Rattle.feeding.specs.Feeds.{begun, again, Says, lent, Feeds, Ends};

pub use gathering::HELD;
use gathering::{Gathered, gather};
use printing::print;
use replying::{reply_first, reply_next};

// Before the first line; configured; ended by a refused configuration.
#[derive(Clone, Copy)]
pub enum Stage {
    First,
    Running,
    Ended,
}

// How far the input is fed: the next byte of the block, the stage, the bytes held of a line that has no end yet, and the bytes
// of the output that are printed.
#[derive(Clone, Copy)]
pub struct Reached {
    pub next: usize,
    pub stage: Stage,
    pub held: usize,
    pub printed: usize,
}

// Nothing is fed yet.
pub fn start() -> Reached
    ensures { result ≡ begun }
{
    Reached {
        next: 0,
        stage: Stage::First,
        held: 0,
        printed: 0,
    }
}

// What is printed is written out, and the next block is to be fed.
pub fn next_block(reached: Reached) -> Reached
    ensures { result ≡ again reached }
{
    Reached {
        next: 0,
        printed: 0,
        ..reached
    }
}

// What a whole line leads to.
#[derive(Clone, Copy)]
pub struct Answered {
    pub stage: Stage,
    pub printed: usize,
}

// Answers a whole line.
fn answer_line(
    line: &[u8],
    stage: Stage,
    config: &mut [u8],
    tables: &mut [u8],
    slots: &mut [u8],
    timers: &mut [u8],
    answer: &mut [u8],
    out: &mut [u8],
    printed: usize,
) -> Answered
    requires { Full limits.controller (memory config.old tables.old slots.old timers.old answer.old) × (printed + 41 ≤ length out.old) }
    ensures { let m = memory config.old tables.old slots.old timers.old answer.old in
        let m' = memory config.new tables.new slots.new timers.new answer.new in
        (result.printed ≤ printed + 41) × Says line.now stage m out.old printed m' out.new result }
{
    match stage {
        Stage::First => {
            let stage = reply_first(line, config, tables, slots, timers, answer);
            Answered {
                stage,
                printed: print(answer, out, printed),
            }
        }
        Stage::Running => {
            reply_next(line, config, tables, slots, timers, answer);
            Answered {
                stage: Stage::Running,
                printed: print(answer, out, printed),
            }
        }
        Stage::Ended => Answered {
            stage: Stage::Ended,
            printed,
        },
    }
}

// Feeds the input up to the end of a line, or to its own end.
fn turn(
    input: &[u8],
    reached: Reached,
    line: &mut [u8],
    config: &mut [u8],
    tables: &mut [u8],
    slots: &mut [u8],
    timers: &mut [u8],
    answer: &mut [u8],
    out: &mut [u8],
) -> Reached
    requires { (reached.next < length input.now) × (reached.held ≤ most) × (reached.printed + 41 ≤ length out.old)
        × (most ≤ length line.old) × Full limits.controller (memory config.old tables.old slots.old timers.old answer.old) }
    ensures { let x = lent line.old (memory config.old tables.old slots.old timers.old answer.old) out.old in
        let x' = lent line.new (memory config.new tables.new slots.new timers.new answer.new) out.new in
        (reached.next < result.next) × (result.next ≤ length input.now) × (result.held ≤ most) × (result.printed ≤ reached.printed + 41)
        × Feeds (cut input.now reached.next result.next) reached x result x' }
{
    match gather(input, reached.next, line, reached.held) {
        Gathered::Part { held } => Reached {
            next: input.len(),
            held,
            ..reached
        },
        Gathered::Line { next, held } => {
            let a = answer_line(
                &line[..held],
                reached.stage,
                config,
                tables,
                slots,
                timers,
                answer,
                out,
                reached.printed,
            );
            Reached {
                next,
                stage: a.stage,
                held: 0,
                printed: a.printed,
            }
        }
    }
}

// Feeds the rest of a block. The output has to have room for 41 bytes for each byte of it.
pub fn feed(
    input: &[u8],
    reached: Reached,
    line: &mut [u8],
    config: &mut [u8],
    tables: &mut [u8],
    slots: &mut [u8],
    timers: &mut [u8],
    answer: &mut [u8],
    out: &mut [u8],
) -> Reached
    requires { (reached.next ≤ length input.now) × (reached.held ≤ most) × (reached.printed ≤ 41 * reached.next) × (41 * length input.now ≤ length out.old)
        × (most ≤ length line.old) × Full limits.controller (memory config.old tables.old slots.old timers.old answer.old) }
    ensures { let x = lent line.old (memory config.old tables.old slots.old timers.old answer.old) out.old in
        let x' = lent line.new (memory config.new tables.new slots.new timers.new answer.new) out.new in
        (result.next ≡ length input.now) × (result.held ≤ most) × (result.printed ≤ length out.old)
        × Feeds (drop reached.next input.now) reached x result x' }
{
    let mut r = reached;
    // A turn goes on by a line or a part of one, so that no `for` counts the turns.
    while r.next < input.len() {
        r = turn(input, r, line, config, tables, slots, timers, answer, out);
    }
    r
}

// The end of the input: a line without an end is a line, unless it is empty. Gives the bytes that are printed.
pub fn finish(
    reached: Reached,
    line: &[u8],
    config: &mut [u8],
    tables: &mut [u8],
    slots: &mut [u8],
    timers: &mut [u8],
    answer: &mut [u8],
    out: &mut [u8],
) -> usize
    requires { (reached.held ≤ most) × (reached.printed + 41 ≤ length out.old) × (most ≤ length line.now) × Full limits.controller (memory config.old tables.old slots.old timers.old answer.old) }
    ensures { let x = lent line.now (memory config.old tables.old slots.old timers.old answer.old) out.old in
        (result ≤ reached.printed + 41) × Ends reached x out.new result }
{
    let end = reached.held;
    if end == 0 {
        return reached.printed;
    }
    let a = answer_line(
        &line[..end],
        reached.stage,
        config,
        tables,
        slots,
        timers,
        answer,
        out,
        reached.printed,
    );
    a.printed
}
