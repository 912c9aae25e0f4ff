// What the panel's memory means under one assignment, where each condition is its value: its sizes. What is said of them stands in specs/ and proofs/; no code runs here.
#![tactic(auto)]

// A memory of n address bits and w data bits.
#[derive(Clone, Copy)]
pub struct Sizes {
    pub n: u32,
    pub w: u32,
}
