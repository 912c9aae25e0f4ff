// The node search of Make: its answer. What it is and what is true of it stands in specs/ and proofs/; no code runs here.
#![tactic(auto)]

// The node at which the search ended, if there is one, and how many nodes it compared.
#[derive(Clone, Copy)]
pub struct Searched {
    pub found: Option<u32>,
    pub compared: u32,
}
