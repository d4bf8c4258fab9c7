// Whether a frame is accepted, or what it is refused for; the lent memory is only read.
// Promises: the number is the ledger's refusal, for every ledger shown.
// Rests on the crates that read the memory: tables, mailboxes, clock and queues, on configuration for a queue's ring, and on refusals.
#![tactic(auto)]

pub mod codes;
pub mod fields;
pub mod firsts;
pub mod input;
pub mod state;

ghost use Rattle.std.specs.Prelude.{◌≡◌, ◌≤◌, length, IfOk};
ghost use Rattle.ledger.specs.Lists.{byte};
ghost use Rattle.clock.specs.Held.{Holds};
ghost use Rattle.ledger.specs.Config.{config_in};
ghost use Rattle.command.specs.Configured.{Framed};
ghost use Rattle.command.specs.Codes.{IsCode, number_by};
ghost use Rattle.command.specs.Refused.{Refuses};

use codes::Code;
use refusals::Refusal;
use tables::lent::Tables;

// All checks of a frame whose code has this number. A number and no `Code`, which would be handed over through memory: the compiler then
// makes one function of all codes, and a frame takes 100 to 200 instructions more.
fn checked(
    number: u8,
    frame: &[u8],
    config: &[u8],
    tables: &Tables<'_>,
    timers: &[u8],
    me: u8,
) -> Result<Code, Refusal>
    requires { (5 ≤ length frame.now) × (byte 0 frame.now ≡ number) × Framed config.now tables.now.shape
        × Holds tables.now.shape (length timers.now) × (me ≤ tables.now.shape.tasks) }
    ensures refuses { Refuses (config_in config.now) tables.now.shape frame.now me tables.now.bytes.now timers.now (number_by result) }
    ensures code { IfOk result (IsCode (byte 0 frame.now)) }
{
    // No `?`, here and below: it calls functions of std, whose code the theorems about runs (theorems/proofs/World) cannot name.
    let Ok(code) = Code::try_from(number) else {
        return Err(Refusal::Code);
    };
    let u = codes::row(code);
    if let Err(refusal) = input::input(u, frame, config, tables.shape, me) {
        return Err(refusal);
    }
    let a = fields::meant_task(u.a, me, frame[1]);
    let b = fields::meant_semaphore(u.b, tables.shape, me, a, frame[2]);
    if let Err(refusal) = state::state(
        u,
        config,
        tables.bytes,
        timers,
        tables.shape,
        a,
        b,
        frame[4],
    ) {
        return Err(refusal);
    }
    Ok(code)
}

// What a frame is refused for while task `me` runs, or its code where it is accepted.
// One call for each code, so that each is compiled with its own row of the table.
pub fn refusal(
    frame: &[u8],
    config: &[u8],
    tables: &Tables<'_>,
    timers: &[u8],
    me: u8,
) -> Result<Code, Refusal>
    requires { Framed config.now tables.now.shape × Holds tables.now.shape (length timers.now) × (me ≤ tables.now.shape.tasks) }
    ensures refuses { Refuses (config_in config.now) tables.now.shape frame.now me tables.now.bytes.now timers.now (number_by result) }
    ensures code { IfOk result (IsCode (byte 0 frame.now)) }
{
    if frame.len() < 5 {
        return Err(Refusal::Length);
    }
    match frame[0] {
        0x01 => checked(0x01, frame, config, tables, timers, me),
        0x02 => checked(0x02, frame, config, tables, timers, me),
        0x03 => checked(0x03, frame, config, tables, timers, me),
        0x04 => checked(0x04, frame, config, tables, timers, me),
        0x05 => checked(0x05, frame, config, tables, timers, me),
        0x06 => checked(0x06, frame, config, tables, timers, me),
        0x07 => checked(0x07, frame, config, tables, timers, me),
        0x08 => checked(0x08, frame, config, tables, timers, me),
        0x09 => checked(0x09, frame, config, tables, timers, me),
        0x0A => checked(0x0A, frame, config, tables, timers, me),
        0x0B => checked(0x0B, frame, config, tables, timers, me),
        0x0C => checked(0x0C, frame, config, tables, timers, me),
        0x0D => checked(0x0D, frame, config, tables, timers, me),
        0x0E => checked(0x0E, frame, config, tables, timers, me),
        0x0F => checked(0x0F, frame, config, tables, timers, me),
        0x10 => checked(0x10, frame, config, tables, timers, me),
        0x11 => checked(0x11, frame, config, tables, timers, me),
        0x12 => checked(0x12, frame, config, tables, timers, me),
        _ => Err(Refusal::Code),
    }
}
