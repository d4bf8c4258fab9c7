// What each accepted request does to the lent memory: one function a service, the tick, the interrupt exit.
// Promises: each is the ledger's own function, for every ledger that the memory shows.
// Rests on tables, queues, mailboxes and clock for the memory's items.
#![tactic(auto)]

pub mod message;
pub mod queue;
pub mod semaphore;
pub mod task;
pub mod timer;
