// The form of a case file: what its bytes say, as definitions with their laws in specs/ and proofs/; no code runs here.
#![tactic(auto)]

// What the kind byte of an access selects.
#[derive(Clone, Copy)]
pub enum Kind {
    Write,
    Read,
    Assert,
    Check,
    Unknown,
}
