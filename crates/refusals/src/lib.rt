// The rows of the table by which a call or a case is refused, and their numbers.
#![tactic(auto)]

ghost use Rattle.std.specs.Prelude.{◌≡◌};

// By what a call or a case is refused, in the table's order.
#[derive(Clone, Copy, PartialEq, Eq)]
pub enum Refusal {
    Sizes,
    Store,
    Contents,
    Lengths,
    Nodes,
    Neither,
    UnknownAddress,
    ListFull,
    StoreFull,
    EndsEarly,
    UnknownKind,
    BytesLeft,
    BufferShort,
    Port,
    Language,
    Depth,
}

impl Refusal {
    ghost use Rattle.refusals.specs.Refusal.{number};

    // The row's number.
    pub fn number(self) -> u32
        ensures { result ≡ number self }
    {
        match self {
            Refusal::Sizes => 1,
            Refusal::Store => 2,
            Refusal::Contents => 3,
            Refusal::Lengths => 4,
            Refusal::Nodes => 5,
            Refusal::Neither => 6,
            Refusal::UnknownAddress => 7,
            Refusal::ListFull => 8,
            Refusal::StoreFull => 9,
            Refusal::EndsEarly => 10,
            Refusal::UnknownKind => 11,
            Refusal::BytesLeft => 12,
            Refusal::BufferShort => 13,
            Refusal::Port => 14,
            Refusal::Language => 15,
            Refusal::Depth => 16,
        }
    }
}
