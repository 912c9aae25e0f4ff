// The lines of text that a case prints have definitions and theorems, in specs/ and proofs/, and no code that runs.
#![tactic(auto)]
