// Row 1: n and w in their ranges; and how many words an address, a cell and an access's data have.
#![tactic(auto)]

ghost use Rattle.std.specs.Prelude.{◌≡◌, [], ◌*◌};
ghost use Rattle.semantics.specs.Sizes.{cell_bits, data_bits};
ghost use Rattle.model.specs.Record.{size};
ghost use Rattle.model.specs.Rows.{row1};
ghost use Rattle.model.specs.Step.{fresh_record};

use semantics::Sizes;

// Whether row 1 accepts these sizes.
pub fn in_range(z: Sizes) -> bool
    ensures { result ≡ row1 (fresh_record z) [] }
{
    (1 <= z.n) & (z.n <= 8) & (1 <= z.w) & (z.w <= 16)
}

// The words of an address.
pub fn address_words(z: Sizes) -> usize
    ensures { result ≡ 2 * z.n }
{
    2 * (z.n as usize)
}

// The words of a cell, as an entry has them and a look finds them.
pub fn cell_words(z: Sizes) -> usize
    ensures { result ≡ 2 * cell_bits z }
{
    2 * (z.w as usize)
}

// The words of the data of a write, of a read's answer and of what a port holds.
pub fn data_words(z: Sizes) -> usize
    ensures { result ≡ 2 * data_bits z }
{
    2 * (z.w as usize)
}

// The words of an entry.
pub fn entry_words(z: Sizes) -> usize
    ensures { result ≡ size (fresh_record z) }
{
    2 + address_words(z) + cell_words(z)
}
