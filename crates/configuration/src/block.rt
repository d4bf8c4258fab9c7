// What the frame in the lent configuration block says.
ghost use Rattle.std.specs.Prelude.{◌≡◌, true, ◌<◌, ◌≤◌, length};
ghost use Rattle.rows.specs.Splice.{cut};
ghost use Rattle.ledger.specs.Lists.{byte};
ghost use Rattle.ledger.specs.Config.{longest, config_in, config_refusal};
ghost use Rattle.tables.specs.Shows.{Of};
ghost use Rattle.queues.specs.Rings.{ring_of};
ghost use Rattle.configuration.specs.Limits.{limits_of, Made};
ghost use Rattle.configuration.specs.Block.{counts_rule};
ghost use Rattle.configuration.specs.Layout.{front_bytes, laid_out, Lends};

use crate::frame::{few_enough, front, good_values, room, shapes, taken};
use crate::limits::Limits;
use queues::Ring;
use tables::shape::{RECORDS_AT, Shape};

// The regions of the tables that a frame asks for, one behind the other, with this much room for the entries of the queues.
fn laid(frame: &[u8], room: u32) -> Shape
    requires { (8 ≤ length frame.now) × (room ≤ 4096) }
    ensures { result ≡ laid_out (byte 0 frame.now) (byte 1 frame.now) (byte 2 frame.now) (byte 3 frame.now) (byte 4 frame.now) (byte 5 frame.now) room }
{
    let tasks = frame[0] as usize;
    let named = frame[1] as usize;
    let queues = frame[2] as usize;
    let messages = frame[4] as usize;
    let semaphores = named + tasks + 2 * queues;
    let recordat = RECORDS_AT;
    let semaphoreat = recordat + 6 * tasks;
    let waitingat = semaphoreat + semaphores;
    let ringat = waitingat + 16 * tasks;
    let messageat = ringat + 2 * queues;
    let bodyat = messageat + 4 * messages;
    Shape {
        tasks,
        named,
        semaphores,
        queues,
        timers: frame[3] as usize,
        messages,
        ticks: frame[5] as usize,
        recordat,
        semaphoreat,
        waitingat,
        ringat,
        messageat,
        bodyat,
        end: bodyat + room as usize,
    }
}

// The shape that an accepted frame asks for.
pub fn shape_of(frame: &[u8]) -> Shape
    requires { config_refusal frame.now ≡ 0 }
    ensures { Of (config_in frame.now) result }
{
    laid(frame, taken(shapes(frame)))
}

// The structure rule of number 11, in two steps. First how long the frame is, which is the first n of the block's bytes, and how much
// there is of each: all that the limits are asked for, but for the bytes of the queues.
pub fn counts(limits: Limits, bytes: &[u8], n: usize) -> bool
    requires { longest (limits_of limits) < length bytes.now }
    ensures { result ≡ counts_rule (limits_of limits) (cut bytes.now 0 n) }
{
    n <= crate::limits::longest(limits) && n >= front(bytes) && few_enough(limits, bytes)
}

// Then the rest, and the shape of a frame that keeps the rule. Its initial states are not read again, and of its pairs any bytes mean
// pairs.
pub fn lent(limits: Limits, frame: &[u8]) -> Option<Shape>
    requires { Made (limits_of limits) × (counts_rule (limits_of limits) frame.now ≡ true) }
    ensures { Lends (limits_of limits) frame.now result }
{
    if !good_values(frame) {
        return None;
    }
    let room = room(shapes(frame));
    if room > limits.bytes {
        return None;
    }
    Some(laid(frame, room))
}

// The ring of queue q. Its entries lie behind those of the queues before it.
pub fn ring_of(frame: &[u8], shape: Shape, q: usize) -> Ring
    requires { (front_bytes shape ≤ length frame.now) × Of (config_in frame.now) shape × (1 ≤ q) × (q ≤ shape.queues) }
    ensures { result ≡ ring_of (config_in frame.now) shape q }
{
    let at = 8 + shape.tasks;
    let here = at + 2 * (q - 1);
    Ring {
        width: frame[here] as usize,
        depth: frame[here + 1] as usize,
        base: shape.bodyat + taken(&frame[at..here]) as usize,
    }
}
