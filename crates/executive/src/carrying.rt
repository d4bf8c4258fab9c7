// The effect of an accepted frame.
ghost use Rattle.std.specs.Prelude.{◌≡◌, true, cond, ◌≤◌, length, get_or};
ghost use Rattle.ledger.specs.Lists.{byte};
ghost use Rattle.ledger.specs.Config.{config_in};
ghost use Rattle.ledger.specs.Ledger.{plain, set_outcome};
ghost use Rattle.tables.specs.Layout.{OneOf, count_at};
ghost use Rattle.tables.specs.Lent.{Goes};
ghost use Rattle.clock.specs.Held.{Holds};
ghost use Rattle.command.specs.Codes.{view_code, IsCode};
ghost use Rattle.executive.specs.Lent.{Step};
ghost use Rattle.executive.specs.Carried.{Meant, Effects, Passed, Carries};

use crate::lent::Lent;
use command::codes::Code;
use tables::lent::Tables;
use tables::semaphores::Semaphore;
use tables::tasks::Outcome;

// An accepted service first sets the caller's outcome to plain. The number of messages stays.
// The flag is the row's, and `me` is there without it: an Option of a caller would only be made of the two, to be taken apart here.
#[tactic(auto, unfolding(tables::specs::Decode::view_outcome))]
fn prepare(service: bool, tables: &mut Tables<'_>, me: u8)
    requires { service ≡ true → OneOf tables.old.shape.tasks me }
    ensures does { Goes tables.old tables.new (λ c L. cond service (set_outcome me plain L) L) }
    ensures count { get_or tables.new.bytes.now count_at 0 ≡ get_or tables.old.bytes.now count_at 0 }
{
    if service {
        tables.set_outcome(me, Outcome::Plain);
    }
}

// The effect of a code; `a` and `b` are the meant task or queue and semaphore.
#[tactic(auto, unfolding(ledger::specs::Services::effect, ledger::specs::Refusals::fields, ledger::specs::Refusals::value_x, ledger::specs::Refusals::behind_x, ledger::specs::Refusals::is_message, tables::specs::Decode::view_semaphore))]
fn serve(code: Code, me: u8, a: u8, b: u8, frame: &[u8], lent: &mut Lent<'_, '_>, timers: &mut [u8])
    requires { (5 ≤ length frame.now) × Holds lent.old.tables.now.shape (length timers.old)
        × Meant (config_in lent.old.config.now) lent.old.tables.now.shape (view_code code) me a b frame.now lent.old.tables.now.bytes.now }
    ensures { Step lent.old lent.new (λ c s d z d' z'. Effects c s (view_code code) me a b frame.now d z timers.old d' z' timers.new) }
{
    match code {
        Code::Wait => services::semaphore::wait(lent.tables, me, b),
        Code::Signal => services::semaphore::signal_by(lent.tables, me, b),
        Code::Pend => lent.tables.set_semaphore(b, Semaphore::Pending),
        Code::Send => services::message::send(lent.tables, me, a, b, frame[4]),
        Code::Sendw => services::message::sendw(lent.tables, me, a, b, frame[4]),
        Code::Receive => services::message::receive(lent.tables, me, a),
        Code::Dequeue => crate::queue::dequeue(lent, me, a),
        Code::Enqueue => crate::queue::enqueue(lent.tables, lent.config, me, a, frame),
        Code::Resume => services::task::set_suspended(lent.tables, a, false),
        Code::Suspend => services::task::set_suspended(lent.tables, a, true),
        Code::Terminate => services::task::terminate(lent.tables, timers, a),
        Code::Execute => services::task::execute(lent.tables, a),
        Code::Delay => {
            let v = tocks::tock_value_at(frame[3], frame[4]);
            crate::timer::delay(lent.tables, timers, a, b, v);
        }
        Code::Timer => {
            let v = tocks::tock_value_at(frame[3], frame[4]);
            crate::timer::start(timers, lent.tables.shape, a, b, v);
        }
        Code::Purge => clock::purge(
            timers,
            lent.tables.shape,
            a,
            crate::timer::named(frame[4], b),
        ),
        Code::Tick => services::timer::tick(lent.tables, timers),
        Code::InterruptExit => {
            services::semaphore::signal(lent.tables, b);
        }
        Code::SeasonTimer => {
            let v = tocks::long_tock_value_at(frame[3], frame[4], frame[5], frame[6]);
            crate::timer::start(timers, lent.tables.shape, a, b, v);
        }
    }
}

// The effect of an accepted frame with this code, while task `me` runs, with the fields that it means.
pub fn carried(code: Code, me: u8, frame: &[u8], lent: &mut Lent<'_, '_>, timers: &mut [u8])
    requires { (5 ≤ length frame.now) × IsCode (byte 0 frame.now) code × Holds lent.old.tables.now.shape (length timers.old)
        × Passed (config_in lent.old.config.now) lent.old.tables.now.shape me frame.now lent.old.tables.now.bytes.now }
    ensures { Step lent.old lent.new (λ c s d z d' z'. Carries c s me frame.now d z timers.old d' z' timers.new) }
{
    let u = command::codes::row(code);
    let a = command::fields::meant_task(u.a, me, frame[1]);
    let b = command::fields::meant_semaphore(u.b, lent.tables.shape, me, a, frame[2]);
    prepare(u.service, lent.tables, me);
    serve(code, me, a, b, frame, lent, timers);
}

// The effect of an accepted frame, while task `me` runs, by the code that its first byte is. A frame that has just been tested has its code at
// hand, and is carried out by `carried`.
pub fn carry_out(me: u8, frame: &[u8], lent: &mut Lent<'_, '_>, timers: &mut [u8])
    requires { Holds lent.old.tables.now.shape (length timers.old)
        × Passed (config_in lent.old.config.now) lent.old.tables.now.shape me frame.now lent.old.tables.now.bytes.now }
    ensures { Step lent.old lent.new (λ c s d z d' z'. Carries c s me frame.now d z timers.old d' z' timers.new) }
{
    let Ok(code) = Code::try_from(frame[0]) else {
        return;
    };
    carried(code, me, frame, lent, timers);
}
