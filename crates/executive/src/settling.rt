// Settling: while the running task has an open request, that is closed and issued again.
ghost use Rattle.std.specs.Prelude.{◌≡◌, true, ◌≤◌, take};
ghost use Rattle.tables.specs.Layout.{OneOf};
ghost use Rattle.tables.specs.Lent.{Step as TablesStep, Goes};
ghost use Rattle.tables.specs.Shows.{waiting_in, Tells};
ghost use Rattle.ledger.specs.Config.{config_in};
ghost use Rattle.command.specs.Configured.{Framed};
ghost use Rattle.ledger.specs.Ledger as ledger;
ghost use Rattle.ledger.specs.Services as ledger_services;
ghost use Rattle.ledger.specs.Session as session;
ghost use Rattle.executive.specs.Lent.{Step};
ghost use Rattle.executive.specs.Suits.{DoesOf, DoesWithSlotsOf};
ghost use Rattle.executive.specs.Kept.{Runs, Reissues, Ends};

use crate::lent::Lent;
use crate::queue::ring;
use refusals::Refusal;
use tables::lent::Tables;
use tables::tasks::{Outcome, Request};

// The task that runs when settling ends, and the number of reissues.
#[derive(Clone, Copy)]
pub struct Settled {
    pub running: u8,
    pub reissues: usize,
}

fn receive_again(tables: &mut Tables<'_>, t: u8, from: u8)
    requires { OneOf tables.old.shape.tasks t }
    ensures { Goes tables.old tables.new (λ c L. session.issue_again c t (ledger.receive from) (ledger.set_request t ledger.none L)) }
{
    tables.set_request(t, Request::None);
    services::message::receive(tables, t, from);
}

fn dequeue_again(lent: &mut Lent<'_, '_>, t: u8, q: u8)
    requires { OneOf lent.old.tables.now.shape.tasks t × OneOf lent.old.tables.now.shape.queues q }
    ensures { Step lent.old lent.new (λ c s d z d' z'. DoesWithSlotsOf c s d z d' z'
        (λ c L. session.issue_again c t (ledger.dequeue q) (ledger.set_request t ledger.none L))) }
{
    let r = ring(lent.config, lent.tables.shape, q);
    lent.tables.set_request(t, Request::None);
    if queues::count(lent.tables, r, q) != 0 {
        services::queue::complete_dequeue(lent.tables, lent.slots, r, t, q);
        return;
    }
    if queues::take_waits(lent.tables, r, q) {
        lent.tables
            .set_outcome(t, Outcome::Refused(u8::from(Refusal::SemaphoreWaiting)));
        return;
    }
    services::queue::wait_to_dequeue(lent.tables, t, q);
}

fn enqueue_again(tables: &mut Tables<'_>, config: &[u8], t: u8, q: u8)
    requires { Framed config.now tables.old.shape × OneOf tables.old.shape.tasks t × OneOf tables.old.shape.queues q }
    ensures { TablesStep tables.old tables.new (λ s d d'. DoesOf (config_in config.now) s d d'
        (λ c L. session.issue_again c t (ledger.enqueue q (take (ledger_services.shape c q).width (waiting_in s d t))) (ledger.set_request t ledger.none L))) }
{
    let r = ring(config, tables.shape, q);
    let width = r.width;
    let mut entry = [0u8; 16];
    tables.copy_waiting(t, &mut entry);
    tables.set_request(t, Request::None);
    if queues::count(tables, r, q) < r.depth {
        services::queue::complete_enqueue(tables, r, t, q, &entry[0..width]);
        return;
    }
    if queues::put_waits(tables, r, q) {
        tables.set_outcome(t, Outcome::Refused(u8::from(Refusal::SemaphoreWaiting)));
        return;
    }
    services::queue::wait_to_enqueue(tables, t, q, &entry[0..width]);
}

// Whether task t has an open request; the null task has none.
fn is_open(tables: &Tables<'_>, t: u8) -> bool
    requires { t ≤ tables.now.shape.tasks }
    ensures { (result ≡ true → 1 ≤ t) × Tells tables.now.shape tables.now.bytes.now (λ c L. session.is_open (ledger.task L t).request) result }
{
    if t == 0 {
        return false;
    }
    !matches!(tables.task(t).request, Request::None)
}

// The open request of the running task, closed and issued again.
fn reissue(lent: &mut Lent<'_, '_>, running: u8)
    requires { OneOf lent.old.tables.now.shape.tasks running }
    ensures { Step lent.old lent.new (λ c s d z d' z'. Reissues c s d z d' z' running) }
{
    let request = lent.tables.task(running).request;
    match request {
        Request::None => {}
        Request::Receive(from) => receive_again(lent.tables, running, from),
        Request::Dequeue(q) => dequeue_again(lent, running, q),
        Request::Enqueue(q) => enqueue_again(lent.tables, lent.config, running, q),
    }
}

// The loop, where the first task to run has an open request. It stands apart, so that a frame without reissues does not pay for it.
fn settle_open(lent: &mut Lent<'_, '_>, first: u8) -> Settled
    requires { OneOf lent.old.tables.now.shape.tasks first × Runs lent.old.tables.now.shape lent.old.tables.now.bytes.now first true }
    ensures { Step lent.old lent.new (λ c s d z d' z'. Ends c s d z d' z' result) }
{
    let limit = 2 * lent.tables.shape.tasks;
    let mut running = first;
    for n in 0..limit {
        reissue(lent, running);
        running = lent.tables.running();
        if !is_open(lent.tables, running) {
            return Settled {
                running,
                reissues: n + 1,
            };
        }
    }
    Settled {
        running,
        reissues: limit,
    }
}

pub fn settle(lent: &mut Lent<'_, '_>) -> Settled
    ensures { Step lent.old lent.new (λ c s d z d' z'. Ends c s d z d' z' result) }
{
    let running = lent.tables.running();
    if !is_open(lent.tables, running) {
        return Settled {
            running,
            reissues: 0,
        };
    }
    settle_open(lent, running)
}
