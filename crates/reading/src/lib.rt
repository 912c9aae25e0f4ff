// What is read of a case file, from its bytes: numbers, the sections before the accesses, and each access in its place. No access is done here.
#![tactic(auto)]

mod bytes;
mod kinds;
mod reader;
mod sections;

pub use bytes::{number_at, read_numbers};
pub use format::Kind;
pub use kinds::{ends_of, kind_of, operands};
pub use reader::Reader;
pub use sections::load_sections;
use semantics::Sizes;

// Where control, address and data end among the nodes of an access.
#[derive(Clone, Copy)]
pub struct Ends {
    pub control: usize,
    pub address: usize,
    pub word: usize,
}

// An access in the file: its kind, its port, which a read alone has, and the byte where its nodes begin.
#[derive(Clone, Copy)]
pub struct Access {
    pub kind: Kind,
    pub port: u32,
    pub from: usize,
}

// What the sections hold: the sizes, the node count, the count of accesses and the byte where they begin.
#[derive(Clone, Copy)]
pub struct Loaded {
    pub sizes: Sizes,
    pub count: u32,
    pub accesses: u32,
    pub at: usize,
}
