// A frame: its number, the effect, settling, the answer.
// Promises: the number, the answer and the memory after are the ledger's, for every ledger that the memory shows.
// Rests on command, services, answer and configuration, and on refusals for the number.
#![tactic(auto)]

pub mod carrying;
pub mod frames;
pub mod lent;
pub mod queue;
pub mod settling;
pub mod timer;
