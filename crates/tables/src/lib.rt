// The lent memory: its layout, which ledgers it shows, and the tables of tasks and semaphores in place on its bytes.
// Promises: each load is what the bytes say, and each store is the ledger's own change, for every ledger that is shown.
// Rests on the ledger's definitions; rows, rings, messages and timers say what bytes in rows mean.
#![tactic(auto)]

pub mod blocks;
pub mod counts;
pub mod lent;
pub mod planes;
pub mod semaphores;
pub mod shape;
pub mod tasks;
