// What the panel was promised has definitions and theorems, in specs/ and proofs/, and no code that runs.
#![tactic(auto)]
