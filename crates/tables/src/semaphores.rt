// The semaphores, a byte each.
ghost use Rattle.std.specs.Prelude.{◌≡◌, map, length};
ghost use Rattle.tables.specs.Decode.{state_of, state_byte, cleared_of, view_semaphore};
ghost use Rattle.tables.specs.Layout.{OneOf, Fits};
ghost use Rattle.tables.specs.Encoded.{Waiter};
ghost use Rattle.tables.specs.Shows.{Tells};
ghost use Rattle.ledger.specs.Ledger.{semaphore_of, set_semaphore};
ghost use Rattle.ledger.specs.Refusals.{is_waiting};
ghost use Rattle.ledger.specs.Services.{withdraw_wait};

use crate::lent::Tables;
use crate::shape::Shape;

#[derive(Clone, Copy)]
pub enum Semaphore {
    Pending,
    Done,
    Waiting(u8),
}

// What a byte says of a semaphore, among so many tasks: no `From`, which would be lent the byte alone.
fn state_of(tasks: usize, x: u8) -> Semaphore
    ensures { result ≡ state_of tasks x }
{
    match x {
        0 => Semaphore::Pending,
        t if t as usize <= tasks => Semaphore::Waiting(t),
        _ => Semaphore::Done,
    }
}

// The byte of a semaphore.
impl From<Semaphore> for u8 {
    ghost from_gives = { λ s byte. byte ≡ state_byte s };

    fn from(s: Semaphore) -> u8 {
        match s {
            Semaphore::Pending => 0,
            Semaphore::Done => 255,
            Semaphore::Waiting(t) => t,
        }
    }
}

fn cleared(x: u8, t: u8) -> u8
    ensures { result ≡ cleared_of t x }
{
    if x == t { 0 } else { x }
}

fn clear_all(part: &mut [u8], t: u8)
    ensures { part.new ≡ map (cleared_of t) part.old }
{
    for x in part.iter_mut() {
        *x = cleared(*x, t);
    }
}

// It is compiled into its callers, since each call would take a copy of the shape on the stack.
#[inline(always)]
pub fn load(tables: &[u8], shape: Shape, b: u8) -> Semaphore
    requires { Fits shape (length tables.now) × OneOf shape.semaphores b }
    ensures tells { Tells shape tables.now (λ c L. semaphore_of L b) (view_semaphore result) }
    ensures waiter { Waiter shape.tasks result }
{
    let at = shape.semaphoreat + (b as usize - 1);
    state_of(shape.tasks, tables[at])
}

// Whether a semaphore is WAITING.
pub fn is_waiting(tables: &[u8], shape: Shape, b: u8) -> bool
    requires { Fits shape (length tables.now) × OneOf shape.semaphores b }
    ensures { Tells shape tables.now (λ c L. is_waiting (semaphore_of L b)) result }
{
    matches!(load(tables, shape, b), Semaphore::Waiting(_))
}

impl<'a> Tables<'a> {
    ghost use Rattle.tables.specs.Lent.{Goes};

    // Of tables that are lent for writing too.
    pub fn semaphore(&self, b: u8) -> Semaphore
        requires { OneOf self.now.shape.semaphores b }
        ensures tells { Tells self.now.shape self.now.bytes.now (λ c L. semaphore_of L b) (view_semaphore result) }
        ensures waiter { Waiter self.now.shape.tasks result }
    {
        load(self.bytes, self.shape, b)
    }

    pub fn set_semaphore(&mut self, b: u8, s: Semaphore)
        requires { OneOf self.old.shape.semaphores b × Waiter self.old.shape.tasks s }
        ensures { Goes self.old self.new (λ c L. set_semaphore b (view_semaphore s) L) }
    {
        let at = self.shape.semaphoreat + (b as usize - 1);
        self.bytes[at] = u8::from(s);
    }

    // Whether a semaphore of such tables is WAITING.
    pub fn is_waiting(&self, b: u8) -> bool
        requires { OneOf self.now.shape.semaphores b }
        ensures { Tells self.now.shape self.now.bytes.now (λ c L. is_waiting (semaphore_of L b)) result }
    {
        is_waiting(self.bytes, self.shape, b)
    }

    // The semaphore that is WAITING with a task becomes PENDING.
    pub fn withdraw(&mut self, t: u8)
        requires { OneOf self.old.shape.tasks t }
        ensures { Goes self.old self.new (λ c L. withdraw_wait t L) }
    {
        let at = self.shape.semaphoreat;
        let end = self.shape.waitingat;
        clear_all(&mut self.bytes[at..end], t);
    }
}
