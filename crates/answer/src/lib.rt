// The answer to a frame, written into a lent block: its length in byte 0, the answer from byte 1 on.
// Promises: it is the ledger's answer, byte by byte, for every ledger that the memory shows; the bytes behind it stay.
// Rests on tables for the running task's outcome, and on rows for the copy of an entry.
#![tactic(auto)]

ghost use Rattle.std.specs.Prelude.{◌≡◌, ◌-◌, ◌*◌, ◌≤◌, length, take};
ghost use Rattle.rows.specs.Rows.{row_at};
ghost use Rattle.tables.specs.Decode.{view_outcome};
ghost use Rattle.tables.specs.Layout.{Fits};
ghost use Rattle.ledger.specs.Ledger as ledger;
ghost use Rattle.ledger.specs.Session as session;
ghost use Rattle.answer.specs.Written.{answer_bytes, written, parts, line};
ghost use Rattle.answer.specs.Answered.{Answers};

use tables::counts::count_of;
use tables::shape::Shape;
use tables::tasks::Outcome;

// What stands before the outcome. The number is a byte, and no `Refusal`: `write` says what it writes for every number.
#[derive(Clone, Copy)]
struct Head {
    number: u8,
    running: u8,
    reissues: u8,
}

// A kind and the bytes of its value.
fn put(answer: &mut [u8], head: Head, kind: u8, value: &[u8])
    requires { (answer_bytes ≤ length answer.old) × (length value.now ≤ 16) }
    ensures { answer.new ≡ written (parts head kind value.now) answer.old }
{
    answer[0] = (value.len() + 4) as u8;
    answer[1] = head.number;
    answer[2] = head.running;
    answer[3] = head.reissues;
    answer[4] = kind;
    rows::copy_short(value, answer, 5);
}

// The entry in the slot of task t: 16 bytes at most.
fn put_entry(answer: &mut [u8], head: Head, width: u8, slots: &[u8], t: u8)
    requires { (answer_bytes ≤ length answer.old) × (1 ≤ t) × (16 * t ≤ length slots.now) }
    ensures { answer.new ≡ written (line head (ledger.entry (take width (row_at 16 (t - 1) slots.now)))) answer.old }
{
    let at = (t as usize - 1) * 16;
    let end = at + count_of(16, width);
    put(answer, head, 3, &slots[at..end]);
}

// An outcome of task t. It is compiled into its caller, so that neither the head nor the outcome is handed over through memory.
#[inline(always)]
fn put_outcome(answer: &mut [u8], head: Head, o: Outcome, slots: &[u8], t: u8)
    requires { (answer_bytes ≤ length answer.old) × (1 ≤ t) × (16 * t ≤ length slots.now) }
    ensures { answer.new ≡ written (line head (view_outcome o (row_at 16 (t - 1) slots.now))) answer.old }
{
    match o {
        Outcome::Plain => put(answer, head, 0, &[]),
        Outcome::Begin => put(answer, head, 1, &[]),
        Outcome::Message(m, s, b) => put(answer, head, 2, &[m, s, b]),
        Outcome::Entry(w) => put_entry(answer, head, w, slots, t),
        Outcome::Refused(n) => put(answer, head, 4, &[n]),
        Outcome::Semaphore(b) => put(answer, head, 5, &[b]),
        Outcome::Woke(w) => put(answer, head, 6, &[w]),
    }
}

// The answer with the number that a frame was refused with, 0 if it was accepted.
// It is compiled into its callers, since each call would take a copy of the shape on the stack.
#[inline(always)]
pub fn write(
    tables: &[u8],
    slots: &[u8],
    shape: Shape,
    running: u8,
    number: u8,
    reissues: u8,
    answer: &mut [u8],
)
    requires { Fits shape (length tables.now) × (16 * shape.tasks ≤ length slots.now) × (answer_bytes ≤ length answer.old) × (running ≤ shape.tasks) }
    ensures { Answers shape tables.now slots.now running number reissues answer.old answer.new }
{
    let head = Head {
        number,
        running,
        reissues,
    };
    if running == 0 {
        put(answer, head, 0, &[]);
        return;
    }
    let k = tables::tasks::load(tables, shape, running);
    put_outcome(answer, head, k.outcome, slots, running);
}

// The answer to a refused configuration.
pub fn refuse_configuration(number: u8, answer: &mut [u8])
    requires { answer_bytes ≤ length answer.old }
    ensures { answer.new ≡ written (session.refused_configuration number) answer.old }
{
    let head = Head {
        number,
        running: 0,
        reissues: 0,
    };
    put(answer, head, 0, &[]);
}
