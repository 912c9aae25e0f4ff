// The operations that build conditions: the store that they build in. What each leaves and means stands in specs/ and proofs/; no code runs here.
#![tactic(auto)]

// How many nodes there are, and whether a node was needed past the capacity. Once full, nothing is built any more.
// A flag and no error: each operation could not fail and cannot, and answers node 0 in a full store, whose count `conditions_test` prints.
#[derive(Clone, Copy)]
pub struct Store {
    pub count: u32,
    pub full: bool,
}
