// Functions of byte slices at the kit's machine: what their theorems buy of their runs, in specs/; what a host does that stores and lends
// other values (specs/Rows, specs/Loans), and what a call with them does (specs/Lent, specs/Hosts). No code here.
// Promises: a routine that meets its contract runs from every memory that holds its slices, ends, and leaves bytes of which the
// contract holds (proofs/Runs), and so does one that is lent other values, each in a block of its own (specs/Hosts); the machine has
// one run from one memory (specs/One).
// Rests on nothing but the kit's logic: its machine, its closed model and its theorem of adequacy.
#![tactic(auto)]
