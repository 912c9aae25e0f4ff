// The language of written formulas has definitions and theorems, in specs/ and proofs/, and no code that runs.
#![tactic(auto)]
