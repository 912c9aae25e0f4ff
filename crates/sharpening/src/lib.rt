// The sharpening of an input has definitions and theorems, in specs/ and proofs/, and no code that runs.
#![tactic(auto)]
