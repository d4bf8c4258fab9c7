// The task records: six bytes of outcome and open request. The entry of an open enqueue waits in sixteen bytes beside it.
ghost use Rattle.std.specs.Prelude.{◌≡◌, ◌≤◌, length, get_or};
ghost use Rattle.rows.specs.Splice.{splice};
ghost use Rattle.tables.specs.Decode.{outcome_of, outcome_bytes, request_of, request_bytes, view_outcome, view_request};
ghost use Rattle.tables.specs.Layout.{OneOf, Fits, count_at};
ghost use Rattle.tables.specs.Encoded.{AsksFor, Narrow};
ghost use Rattle.tables.specs.Shows.{record_in, waiting_in, AsWide, Tells};
ghost use Rattle.ledger.specs.Ledger as ledger;
ghost use Rattle.ledger.specs.Ledger.{set_outcome, set_request, task};

use crate::blocks::Blocks;
use crate::lent::Tables;
use crate::planes::first_free;
use crate::shape::{PLANES_AT, RECORDS_AT, Shape};

// `Refused` has its number as the byte that it is in a record, where any byte is one.
#[derive(Clone, Copy)]
pub enum Outcome {
    Plain,
    Begin,
    Message(u8, u8, u8),
    Entry(u8),
    Refused(u8),
    Semaphore(u8),
    Woke(u8),
}

// The open request: none, a receive from a task (0 for any, as in a frame and in a record), a dequeue, an enqueue (its bytes wait beside
// it).
#[derive(Clone, Copy)]
pub enum Request {
    None,
    Receive(u8),
    Dequeue(u8),
    Enqueue(u8),
}

#[derive(Clone, Copy)]
pub struct Task {
    pub blocks: Blocks,
    pub outcome: Outcome,
    pub request: Request,
}

// The kinds of outcome, as a record names them; any other byte is plain.
const PLAIN: u8 = 0;

const BEGIN: u8 = 1;

const MESSAGE: u8 = 2;

const ENTRY: u8 = 3;

const REFUSED: u8 = 4;

const SEMAPHORE: u8 = 5;

const WOKE: u8 = 6;

// And those of open request; any other byte is none.
const NONE: u8 = 0;

const RECEIVE: u8 = 1;

const DEQUEUE: u8 = 2;

const ENQUEUE: u8 = 3;

// No `From` here and in `request_of`: the bytes are some of a row's, and a request is read by the number of queues.
fn outcome_of(k: u8, a: u8, b: u8, c: u8) -> Outcome
    ensures { result ≡ outcome_of k a b c }
{
    match k {
        BEGIN => Outcome::Begin,
        MESSAGE => Outcome::Message(a, b, c),
        ENTRY => Outcome::Entry(a),
        REFUSED => Outcome::Refused(a),
        SEMAPHORE => Outcome::Semaphore(a),
        WOKE => Outcome::Woke(a),
        _ => Outcome::Plain,
    }
}

// The bytes of an outcome: its kind and three more.
impl From<Outcome> for [u8; 4] {
    ghost from_gives = { λ o bytes. bytes ≡ outcome_bytes o };

    fn from(o: Outcome) -> [u8; 4] {
        match o {
            Outcome::Plain => [PLAIN, 0, 0, 0],
            Outcome::Begin => [BEGIN, 0, 0, 0],
            Outcome::Message(a, b, c) => [MESSAGE, a, b, c],
            Outcome::Entry(a) => [ENTRY, a, 0, 0],
            Outcome::Refused(a) => [REFUSED, a, 0, 0],
            Outcome::Semaphore(a) => [SEMAPHORE, a, 0, 0],
            Outcome::Woke(a) => [WOKE, a, 0, 0],
        }
    }
}

fn request_of(queues: usize, k: u8, a: u8) -> Request
    ensures { result ≡ request_of queues k a }
{
    let queue = a != 0 && a as usize <= queues;
    match k {
        RECEIVE => Request::Receive(a),
        DEQUEUE if queue => Request::Dequeue(a),
        ENQUEUE if queue => Request::Enqueue(a),
        _ => Request::None,
    }
}

// The bytes of a request: its kind and one more.
impl From<Request> for [u8; 2] {
    ghost from_gives = { λ q bytes. bytes ≡ request_bytes q };

    fn from(q: Request) -> [u8; 2] {
        match q {
            Request::None => [NONE, 0],
            Request::Receive(a) => [RECEIVE, a],
            Request::Dequeue(a) => [DEQUEUE, a],
            Request::Enqueue(a) => [ENQUEUE, a],
        }
    }
}

fn outcome_in(row: &[u8]) -> Outcome
    requires { length row.now ≡ 6 }
    ensures { result ≡ outcome_of (get_or row.now 0 0) (get_or row.now 1 0) (get_or row.now 2 0) (get_or row.now 3 0) }
{
    outcome_of(row[0], row[1], row[2], row[3])
}

fn request_in(row: &[u8], queues: usize) -> Request
    requires { length row.now ≡ 6 }
    ensures { (result ≡ request_of queues (get_or row.now 4 0) (get_or row.now 5 0)) × AsksFor queues result }
{
    request_of(queues, row[4], row[5])
}

// It is compiled into its callers, since each call would take a copy of the shape on the stack.
#[inline(always)]
pub fn load(tables: &[u8], shape: Shape, t: u8) -> Task
    requires { Fits shape (length tables.now) × OneOf shape.tasks t }
    ensures { (result ≡ record_in shape tables.now t) × AsksFor shape.queues result.request }
{
    let blocks = crate::blocks::load(tables, shape, t);
    let at = shape.recordat + (t as usize - 1) * 6;
    let end = at + 6;
    let outcome = outcome_in(&tables[at..end]);
    let request = request_in(&tables[at..end], shape.queues);
    Task {
        blocks,
        outcome,
        request,
    }
}

fn put_outcome(row: &mut [u8], o: Outcome)
    requires { length row.old ≡ 6 }
    ensures { row.new ≡ splice row.old 0 (outcome_bytes o) }
{
    rows::copy_in(&<[u8; 4]>::from(o), row, 0);
}

fn put_request(row: &mut [u8], q: Request)
    requires { length row.old ≡ 6 }
    ensures { row.new ≡ splice row.old 4 (request_bytes q) }
{
    rows::copy_in(&<[u8; 2]>::from(q), row, 4);
}

// The lowest runnable task, else 0, which is document 01's number of the null task. Here and in `load` over bytes that are lent for reading
// alone, as the answer is written from them.
pub fn running(tables: &[u8], shape: Shape) -> u8
    requires { Fits shape (length tables.now) }
    ensures { (result ≤ shape.tasks) × Tells shape tables.now (λ c L. ledger.running L) result }
{
    let Some(i) = first_free(&tables[PLANES_AT..RECORDS_AT]) else {
        return 0;
    };
    if i < shape.tasks { (i + 1) as u8 } else { 0 }
}

impl<'a> Tables<'a> {
    ghost use Rattle.tables.specs.Lent.{Goes, GoesIf};

    // The lowest runnable task, else 0, of tables that are lent for writing too.
    pub fn running(&self) -> u8
        ensures { (result ≤ self.now.shape.tasks) × Tells self.now.shape self.now.bytes.now (λ c L. ledger.running L) result }
    {
        running(self.bytes, self.shape)
    }

    // It is compiled into its callers, as `load` is.
    #[inline(always)]
    pub fn task(&self, t: u8) -> Task
        requires { OneOf self.now.shape.tasks t }
        ensures { (result ≡ record_in self.now.shape self.now.bytes.now t) × AsksFor self.now.shape.queues result.request }
    {
        load(self.bytes, self.shape, t)
    }

    // An entry is what the slot holds. The number of messages stays, and with it the room for one more.
    pub fn set_outcome(&mut self, t: u8, o: Outcome)
        requires { OneOf self.old.shape.tasks t × Narrow o }
        ensures does { Goes self.old self.new (λ c L. set_outcome t (view_outcome o (task L t).slot) L) }
        ensures count { get_or self.new.bytes.now count_at 0 ≡ get_or self.old.bytes.now count_at 0 }
    {
        let at = self.shape.recordat + (t as usize - 1) * 6;
        let end = at + 6;
        put_outcome(&mut self.bytes[at..end], o);
    }

    // An enqueue's bytes are those that wait.
    pub fn set_request(&mut self, t: u8, q: Request)
        requires { OneOf self.old.shape.tasks t × AsksFor self.old.shape.queues q }
        ensures { Goes self.old self.new (λ c L. set_request t (view_request c q (waiting_in self.old.shape self.old.bytes.now t)) L) }
    {
        let at = self.shape.recordat + (t as usize - 1) * 6;
        let end = at + 6;
        put_request(&mut self.bytes[at..end], q);
    }

    // Copies the entry that waits to be put out of the tables. Into a slice, and not an array: that its length stays is told of slices alone.
    pub fn copy_waiting(&self, t: u8, entry: &mut [u8])
        requires { OneOf self.now.shape.tasks t × (length entry.old ≡ 16) }
        ensures { entry.new ≡ waiting_in self.now.shape self.now.bytes.now t }
    {
        let at = self.shape.waitingat + (t as usize - 1) * 16;
        let end = at + 16;
        rows::copy_in(&self.bytes[at..end], entry, 0);
    }

    // Opens an enqueue with its bytes.
    pub fn set_enqueue(&mut self, t: u8, q: u8, entry: &[u8])
        requires { OneOf self.old.shape.tasks t × OneOf self.old.shape.queues q × (length entry.now ≤ 16) }
        ensures { GoesIf self.old self.new (AsWide q entry.now) (λ c L. set_request t (ledger.enqueue q entry.now) L) }
    {
        let at = self.shape.waitingat + (t as usize - 1) * 16;
        rows::copy_in(entry, self.bytes, at);
        self.set_request(t, Request::Enqueue(q));
    }
}
