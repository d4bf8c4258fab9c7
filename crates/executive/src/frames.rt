// A frame, fed to a memory whose configuration and shape are known.
ghost use Rattle.std.specs.Prelude.{◌≡◌, true, ◌≤◌, length};
ghost use Rattle.answer.specs.Written.{answer_bytes};
ghost use Rattle.ledger.specs.Config.{config_in};
ghost use Rattle.ledger.specs.Lists.{byte};
ghost use Rattle.command.specs.Codes.{IsCode};
ghost use Rattle.mailboxes.specs.Room.{sound_in};
ghost use Rattle.refusals.specs.Numbers.{number_in};
ghost use Rattle.tables.specs.Lent.{Step};
ghost use Rattle.executive.specs.Suits.{Suits, Beside};
ghost use Rattle.executive.specs.Carried.{Passed};
ghost use Rattle.executive.specs.Stepped.{Acts, Steps};

use crate::lent::Lent;
use crate::settling::Settled;
use command::codes::Code;
use refusals::Refusal;
use tables::lent::Tables;
use tables::shape::Shape;

// The effect of an accepted frame, and settling. The blocks are put together here, where they are lent at one lifetime: in `step`, which goes on with
// them afterwards, the check does not cover that.
fn act<'a, 'b>(
    code: Code,
    me: u8,
    frame: &[u8],
    config: &'a [u8],
    tables: &'a mut Tables<'b>,
    slots: &'a mut [u8],
    timers: &mut [u8],
) -> Settled
    requires { (5 ≤ length frame.now) × IsCode (byte 0 frame.now) code × Beside config.now tables.old.shape (length slots.old) (length timers.old) × Passed (config_in config.now) tables.old.shape me frame.now tables.old.bytes.now }
    ensures { Step tables.old tables.new (λ s d d'. Acts (config_in config.now) s me frame.now
        d slots.old timers.old d' slots.new timers.new result) }
{
    let mut lent = Lent {
        config,
        tables,
        slots,
    };
    crate::carrying::carried(code, me, frame, &mut lent, timers);
    crate::settling::settle(&mut lent)
}

// The tables come as bytes with a shape beside them, and what it asks of these in its contract: mcx11 lends them so, and its theorems
// (mcx11/specs/Inside) speak of them so.
pub fn step(
    frame: &[u8],
    config: &[u8],
    tables: &mut [u8],
    slots: &mut [u8],
    timers: &mut [u8],
    shape: Shape,
    answer: &mut [u8],
) -> Result<(), Refusal>
    requires { Suits config.now shape (length tables.old) (length slots.old) (length timers.old) × (answer_bytes ≤ length answer.old) × (sound_in shape tables.old ≡ true) }
    ensures { Steps (config_in config.now) shape frame.now
        tables.old slots.old timers.old answer.old
        tables.new slots.new timers.new answer.new (number_in result) }
{
    let mut laid = Tables {
        bytes: tables,
        shape,
    };
    let me = laid.running();
    let code = match command::refusal(frame, config, &laid, timers, me) {
        Ok(code) => code,
        Err(refusal) => {
            answer::write(tables, slots, shape, me, u8::from(refusal), 0, answer);
            return Err(refusal);
        }
    };
    let settled = act(code, me, frame, config, &mut laid, slots, timers);
    let running = settled.running;
    let reissues = settled.reissues as u8;
    answer::write(tables, slots, shape, running, 0, reissues, answer);
    Ok(())
}
