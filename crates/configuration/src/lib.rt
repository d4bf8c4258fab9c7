// The configuration: a frame accepted or refused, what the lent configuration block says, and the fresh tables.
// Promises: the refusal is the ledger's, the shape and the rings are the block's, and a start shows the fresh ledger.
// Rests on the ledger's definitions, on tables for the memory, on queues for the rings, on rows for copies, and on refusals.
#![tactic(auto)]

pub mod block;
pub mod frame;
pub mod fresh;
pub mod limits;
pub mod pairs;
