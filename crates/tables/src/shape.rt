// The configuration's numbers and where each table begins, derived once a frame.

// The first regions begin at the same byte in every configuration: the ticks left, the number of messages, the planes.
pub const TICKS_AT: usize = 0;

pub const COUNT_AT: usize = 1;

pub const PLANES_AT: usize = 2;

// The records lie behind the planes.
pub const RECORDS_AT: usize = 66;

#[derive(Clone, Copy)]
pub struct Shape {
    pub tasks: usize,
    pub named: usize,
    pub semaphores: usize,
    pub queues: usize,
    pub timers: usize,
    pub messages: usize,
    pub ticks: usize,
    pub recordat: usize,
    pub semaphoreat: usize,
    pub waitingat: usize,
    pub ringat: usize,
    pub messageat: usize,
    pub bodyat: usize,
    pub end: usize,
}
