// What units of several cells mean under one assignment has definitions and theorems, in specs/ and proofs/, and no code that runs.
#![tactic(auto)]
