// Tasks: suspended or resumed, ended, begun anew.
ghost use Rattle.std.specs.Prelude.{length};
ghost use Rattle.tables.specs.Decode.{view_blocks, view_outcome};
ghost use Rattle.tables.specs.Encoded.{Narrow};
ghost use Rattle.tables.specs.Layout.{OneOf};
ghost use Rattle.tables.specs.Lent.{Goes, GoesWithTimers};
ghost use Rattle.clock.specs.Held.{Holds};
ghost use Rattle.ledger.specs.Ledger.{task, set_task, set_suspended};
ghost use Rattle.services.specs.Tasks.{anew};
ghost use Rattle.ledger.specs.Services as ledger;

use tables::blocks::{Block, Blocks};
use tables::lent::Tables;
use tables::tasks::{Outcome, Request};

// A task that nothing keeps from running.
const FREE: Blocks = Blocks {
    idle: false,
    suspended: false,
    event: false,
    message: false,
};

// Suspend, or resume.
pub fn set_suspended(tables: &mut Tables<'_>, t: u8, on: bool)
    requires { OneOf tables.old.shape.tasks t }
    ensures { Goes tables.old tables.new (λ c L. set_suspended t on L) }
{
    tables.set_block(t, Block::Suspended, on);
}

// Blocks, outcome and no open request, all at once.
fn set_record(tables: &mut Tables<'_>, t: u8, b: Blocks, o: Outcome)
    requires { OneOf tables.old.shape.tasks t × Narrow o }
    ensures { Goes tables.old tables.new (λ c L. set_task t (anew (view_blocks b) (view_outcome o (task L t).slot) (task L t).slot) L) }
{
    tables.set_blocks(t, b);
    tables.set_outcome(t, o);
    tables.set_request(t, Request::None);
}

pub fn execute(tables: &mut Tables<'_>, a: u8)
    requires { OneOf tables.old.shape.tasks a }
    ensures { Goes tables.old tables.new (λ c L. ledger.execute a L) }
{
    tables.withdraw(a);
    set_record(tables, a, FREE, Outcome::Begin);
}

// The wait is withdrawn and the timers go; then the messages are dropped, which may free their senders; last, the record of an idle task.
pub fn terminate(tables: &mut Tables<'_>, timers: &mut [u8], a: u8)
    requires { Holds tables.old.shape (length timers.old) × OneOf tables.old.shape.tasks a }
    ensures { GoesWithTimers tables.old timers.old tables.new timers.new (λ c L. ledger.terminate a L) }
{
    tables.withdraw(a);
    clock::purge(timers, tables.shape, a, None);
    crate::message::drop_messages(tables, a);
    let idle = Blocks { idle: true, ..FREE };
    set_record(tables, a, idle, Outcome::Plain);
}
