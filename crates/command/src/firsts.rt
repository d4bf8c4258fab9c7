// 26: a task that is to start only after another, which is idle.
ghost use Rattle.std.specs.Prelude.{length};
ghost use Rattle.ledger.specs.Lists.{any};
ghost use Rattle.ledger.specs.Config.{pair_of, pairs_in, config_in};
ghost use Rattle.ledger.specs.Refusals.{holds_back, meets26};
ghost use Rattle.tables.specs.Layout.{Fits};
ghost use Rattle.command.specs.Codes.{view_a};
ghost use Rattle.command.specs.Configured.{Framed};
ghost use Rattle.command.specs.Firsts.{HasPlanes, ToldBy};
ghost use Rattle.command.specs.State.{TellsOf};

use crate::codes::FieldA;
use crate::fields::outside;
use tables::shape::Shape;

// Whether a pair keeps task a from its start. A first that is no task is not idle. Of the shape the number of tasks alone is asked.
fn holds_back(tables: &[u8], tasks: usize, a: u8, first: u8, then: u8) -> bool
    requires { HasPlanes tasks tables.now }
    ensures { ToldBy tasks tables.now (λ c L. holds_back L a (pair_of first then)) result }
{
    then == a && !outside(tasks, first as usize) && tables::blocks::is_idle(tables, first)
}

// Whether one of these pairs does. It stays a function of its own in the compiled program, aside from the frame's way: in the middle of a
// whole frame its loop has too few registers, and a pair took 26 instructions in place of 15.
#[cold]
#[inline(never)]
fn some_holds_back(pairs: &[u8], tables: &[u8], tasks: usize, a: u8) -> bool
    requires { HasPlanes tasks tables.now }
    ensures { ToldBy tasks tables.now (λ c L. any (holds_back L a) (pairs_in pairs.now)) result }
{
    // by pairs of bytes, for which std has `chunks_exact`, whose code the theorems about runs (theorems/proofs/World) cannot name
    for k in 0..pairs.len() / 2 {
        if holds_back(tables, tasks, a, pairs[2 * k], pairs[2 * k + 1]) {
            return true;
        }
    }
    false
}

// The pairs lie behind the queues: by the shape, whose numbers are at hand, where `configuration::frame` would read them again.
#[tactic(auto, unfolding(ledger::specs::Refusals::meets26))]
pub fn before_first(kind: FieldA, config: &[u8], tables: &[u8], shape: Shape, a: u8) -> bool
    requires { Framed config.now shape × Fits shape (length tables.now) }
    ensures { TellsOf (config_in config.now) shape tables.now (λ c L. meets26 c L (view_a kind) a) result }
{
    if let FieldA::ToStart = kind {
        let from = 8 + shape.tasks + 2 * shape.queues;
        return some_holds_back(&config[from..], tables, shape.tasks, a);
    }
    false
}
