// The ledger: document 01 as definitions, in specs/. No code and no tables here.
// Promises: proofs/Theorems holds what is proved of the definitions alone, specs/Examples the paper's marked examples,
// specs/Readings what is read where the paper leaves room, specs/TurnExamples sessions whose turns are counted.
// Rests on nothing but the checker and its library of numbers and lists.
#![tactic(auto)]
