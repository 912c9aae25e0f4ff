// The programs that build the conditions of a unit's accesses have definitions and theorems, in specs/ and proofs/, and no code that runs.
#![tactic(auto)]
