// The theorems about the exported functions and the session program's, in specs/ and proofs/: what docs/SHEET.md cites. No code.
// Promises: demand 3 of every list of calls (proofs/Demand3) and of every run on the kit's machine (proofs/EveryRun), for the ride controller
// and the brake module (proofs/BothRun), and of both that no timer misses a turn (proofs/TurnsKept); executives that meet the contracts
// agree by the same limits (specs/Agree), and by any limits on a configuration that both accept (specs/Alike); the other exported
// functions' runs, and those of feed and finish (proofs/LineRuns, proofs/BusiestRuns, proofs/FreeStartRuns,
// proofs/ProgramRuns).
// Rests on the contracts of mcx11 and feeding, and on running for what a theorem says of a run.
#![tactic(auto)]
