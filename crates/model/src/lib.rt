// The record of a memory, and the node numbers of the three domains. What the calls make of it stands in specs/ and proofs/; no code runs here.
#![tactic(auto)]

use semantics::Sizes;

// "The record has n, w, node count, entry count, assert condition, check condition."
#[derive(Clone, Copy)]
pub struct Fields {
    pub sizes: Sizes,
    pub count: u32,
    pub entries: u32,
    pub asserted: u32,
    pub checked: u32,
}

// A node number of the control domain.
#[derive(Clone, Copy)]
pub struct ControlNode(pub u32);

// A node number of the address domain.
#[derive(Clone, Copy)]
pub struct AddressNode(pub u32);

// A node number of the data domain.
#[derive(Clone, Copy)]
pub struct DataNode(pub u32);

// The two halves of a value that may be X, each a node of the same domain.
#[derive(Clone, Copy)]
pub struct Pair<N> {
    pub h: N,
    pub l: N,
}
