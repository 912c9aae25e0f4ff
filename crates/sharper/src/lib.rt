// What it is for a list of accesses to be sharper, under one assignment, has definitions and theorems, in specs/ and proofs/, and no code that runs.
#![tactic(auto)]
