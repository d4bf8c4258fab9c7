// The mailboxes in the lent memory: the region of the messages, and their number in the clock's region.
// Promises: each change is the ledger's own, for every ledger that the memory shows, and each answer is that ledger's.
// Rests on tables, for what the memory shows, and on messages, for what a change of the records makes of every mailbox.
#![tactic(auto)]

ghost use Rattle.std.specs.Prelude.{◌≡◌, length};
ghost use Rattle.tables.specs.Layout.{OneOf, Fits};
ghost use Rattle.tables.specs.Lent.{Goes};
ghost use Rattle.tables.specs.Shows.{Tells};
ghost use Rattle.ledger.specs.Lists.{find};
ghost use Rattle.ledger.specs.Ledger.{mailbox};
ghost use Rattle.ledger.specs.Services.{wanted};
ghost use Rattle.ledger.specs.Refusals.{inamailbox};
ghost use Rattle.mailboxes.specs.Mail.{PendingIn};
ghost use Rattle.mailboxes.specs.Room.{Roomy, sound_in};
ghost use Rattle.mailboxes.specs.Received.{view_received, inserted, taken};

use messages::Message;
use messages::lent::Messages;
use tables::counts::count_of;
use tables::lent::Tables;
use tables::shape::{COUNT_AT, Shape};

// The messages that are pending in the tables, as they are lent to be read. It is compiled into its callers, as `pending_in` is.
#[inline(always)]
fn pending<'a>(tables: &'a Tables<'_>) -> Messages<'a>
    ensures { PendingIn tables.now.shape tables.now.bytes.now result }
{
    pending_in(tables.bytes, tables.shape)
}

// The same in bytes beside their shape, as `holds` and `sound` are lent them.
#[inline(always)]
fn pending_in<'a>(bytes: &'a [u8], shape: Shape) -> Messages<'a>
    requires { Fits shape (length bytes.now) }
    ensures { PendingIn shape bytes.now result }
{
    let at = shape.messageat;
    let end = shape.bodyat;
    Messages {
        records: &bytes[at..end],
        count: count_of(shape.messages, bytes[COUNT_AT]),
        tasks: shape.tasks,
    }
}

// Whether the message of a number lies in a mailbox. Over bytes beside a shape, as `sound` is: a `&mut` would ask more.
pub fn holds(tables: &[u8], shape: Shape, number: u8) -> bool
    requires { Fits shape (length tables.now) }
    ensures { Tells shape tables.now (λ c L. inamailbox L number) result }
{
    pending_in(tables, shape).holds(number)
}

// Puts a message into the mailbox of task `to`, where there is room for one more.
pub fn insert(tables: &mut Tables<'_>, to: u8, message: Message)
    requires { OneOf tables.old.shape.tasks to × Roomy tables.old.shape tables.old.bytes.now }
    ensures { Goes tables.old tables.new (λ c L. inserted to message.number message.sender message.semaphore L) }
{
    let n = count_of(tables.shape.messages, tables.bytes[COUNT_AT]);
    let at = tables.shape.messageat;
    let end = tables.shape.bodyat;
    messages::insert(
        &mut tables.bytes[at..end],
        n,
        tables.shape.tasks,
        to,
        message,
    );
    tables.bytes[COUNT_AT] = (n + 1) as u8;
}

// Takes the first message for task t that is from `from`, or from any if that is 0 (as in document 01's byte), if there is one.
// It is compiled into its callers, which saves each a call and the stack for it.
#[inline(always)]
pub fn take(tables: &mut Tables<'_>, t: u8, from: u8) -> Option<Message>
    requires { OneOf tables.old.shape.tasks t }
    ensures tells { Tells tables.old.shape tables.old.bytes.now (λ c L. find (wanted from) (mailbox L t)) (view_received result) }
    ensures does { Goes tables.old tables.new (λ c L. taken result t from L) }
{
    let pending = pending(tables);
    let n = pending.count;
    // No `?`, which calls code of std that the theorems about runs can't name.
    let Some(k) = pending.find(t, from) else {
        return None;
    };
    let message = pending.load(k);
    let at = tables.shape.messageat;
    let end = tables.shape.bodyat;
    messages::remove(&mut tables.bytes[at..end], n, k);
    tables.bytes[COUNT_AT] = (n - 1) as u8;
    Some(message)
}

// Whether there is room for one more message, or else each that lies in the memory is one of those that there are, and lies there once.
// It stays over bytes beside a shape, as what may not change needs it: `mcx11::lent::test` is lent `&[u8]`, and a `&mut` would ask more.
// Each frame asks it, so the number is read by itself: off `pending_in`'s answer a frame took 17 instructions more.
pub fn sound(tables: &[u8], shape: Shape) -> bool
    requires { Fits shape (length tables.now) }
    ensures { result ≡ sound_in shape tables.now }
{
    let n = count_of(shape.messages, tables[COUNT_AT]);
    if n < shape.messages {
        return true;
    }
    pending_in(tables, shape).complete(shape.messages)
}
