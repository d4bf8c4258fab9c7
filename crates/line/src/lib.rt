// Lines of digits and frames, both ways, on slices that the caller lends.
// Promises: the ledger's own read_line and write_line (Lines), for every line, frame and buffer; with a number nothing is written.
// Rests on refusals, for what a call is refused for, and on the ledger's definitions.
#![tactic(auto)]

mod reading; // reading.rt: a line to a frame
mod writing; // writing.rt: a frame to a line

pub use reading::read;
pub use writing::write;

// The most bytes of a frame. Its line has two digits for each.
pub const LONGEST_FRAME: usize = 326;
