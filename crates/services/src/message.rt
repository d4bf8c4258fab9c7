// Messages: send, with or without a wait; receive, issued now or again; and messages that are dropped.
ghost use Rattle.std.specs.Prelude.{ltb, length};
ghost use Rattle.tables.specs.Layout.{OneOf};
ghost use Rattle.tables.specs.Lent.{Goes};
ghost use Rattle.tables.specs.Shows.{Tells};
ghost use Rattle.mailboxes.specs.Room.{Roomy};
ghost use Rattle.ledger.specs.Ledger as ledger;
ghost use Rattle.ledger.specs.Services as ledger_services;
ghost use Rattle.ledger.specs.Dropped.{drop_first};

use messages::Message;
use tables::blocks::Block;
use tables::lent::Tables;
use tables::tasks::{Outcome, Request};

pub fn send(tables: &mut Tables<'_>, t: u8, a: u8, b: u8, x: u8)
    requires { OneOf tables.old.shape.tasks t × OneOf tables.old.shape.tasks a × Roomy tables.old.shape tables.old.bytes.now }
    ensures { Goes tables.old tables.new (λ c L. ledger_services.send t a b x L) }
{
    let message = Message {
        number: x,
        sender: t,
        semaphore: b,
    };
    mailboxes::insert(tables, a, message);
    tables.set_block(a, Block::Message, false);
    tables.set_outcome(t, Outcome::Semaphore(b));
}

pub fn sendw(tables: &mut Tables<'_>, t: u8, a: u8, b: u8, x: u8)
    requires { OneOf tables.old.shape.tasks t × OneOf tables.old.shape.tasks a × Roomy tables.old.shape tables.old.bytes.now × OneOf tables.old.shape.semaphores b }
    ensures { Goes tables.old tables.new (λ c L. ledger_services.wait_for t b (ledger_services.send t a b x L)) }
{
    send(tables, t, a, b, x);
    crate::semaphore::wait_for(tables, t, b);
}

pub fn receive(tables: &mut Tables<'_>, t: u8, from: u8)
    requires { OneOf tables.old.shape.tasks t }
    ensures { Goes tables.old tables.new (λ c L. ledger_services.issue c t (ledger.receive from) L) }
{
    match mailboxes::take(tables, t, from) {
        None => {
            tables.set_block(t, Block::Message, true);
            tables.set_request(t, Request::Receive(from));
        }
        Some(m) => {
            let outcome = Outcome::Message(m.number, m.sender, m.semaphore);
            tables.set_outcome(t, outcome);
        }
    }
}

// Takes the first message out of the mailbox of task t and signals its semaphore. Tells whether there was one.
fn drop_first(tables: &mut Tables<'_>, t: u8) -> bool
    requires { OneOf tables.old.shape.tasks t }
    ensures does { Goes tables.old tables.new (λ c L. drop_first t (ledger.mailbox L t) L) }
    ensures tells { Tells tables.old.shape tables.old.bytes.now (λ c L. ltb 0 (length (ledger.mailbox L t))) result }
{
    let Some(message) = mailboxes::take(tables, t, 0) else {
        return false;
    };
    crate::semaphore::signal(tables, message.semaphore);
    true
}

// Nobody will receive the messages in the mailbox of task t: each is taken out, in mailbox order, and its semaphore signalled.
// No mailbox holds more messages than there are.
pub fn drop_messages(tables: &mut Tables<'_>, t: u8)
    requires { OneOf tables.old.shape.tasks t }
    ensures { Goes tables.old tables.new (λ c L. ledger_services.drop_messages t L) }
{
    for _ in 0..tables.shape.messages {
        if !drop_first(tables, t) {
            return;
        }
    }
}
