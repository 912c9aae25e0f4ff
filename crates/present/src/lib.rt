// What Ite builds where its answer has a node has one theorem, in specs/ and proofs/, and no code that runs.
#![tactic(auto)]
