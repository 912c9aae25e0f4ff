// The kinds of accesses.
ghost use Rattle.std.specs.Prelude.{◌≡◌, ◌+◌, ◌*◌, ◌≤◌};
ghost use Rattle.format.specs.Kinds.{kind_of, is_known};
ghost use Rattle.reading.specs.Layout.{lead_of, port_of, ends_of, size_of};

use super::Ends;
use format::Kind;
use semantics::Sizes;

// The kind that a byte selects. No `From`: it would have to stand beside `Kind` in `format`, and the crates of the book hold no code.
pub fn kind_of(b: u8) -> Kind
    ensures { result ≡ kind_of b }
{
    match b {
        1 => Kind::Write,
        2 => Kind::Read,
        3 => Kind::Assert,
        4 => Kind::Check,
        _ => Kind::Unknown,
    }
}

// Whether the byte selected one.
pub fn is_known(kind: Kind) -> bool
    ensures { result ≡ is_known kind }
{
    !matches!(kind, Kind::Unknown)
}

// Where control, address and data end, which stand in this order.
fn ends(control: usize, z: Sizes) -> Ends
    requires { control ≤ 2 }
    ensures { (result.control ≡ control) × (result.address ≡ control + 2 * z.n) × (result.word ≡ control + 2 * z.n + 2 * z.w) }
{
    let address = control + 2 * (z.n as usize);
    Ends {
        control,
        address,
        word: address + 2 * (z.w as usize),
    }
}

// Where control, address and data end among the nodes of an access of this kind. A read has no data.
pub fn ends_of(kind: Kind, z: Sizes) -> Ends
    ensures value { result ≡ ends_of kind z.n z.w }
    ensures rising { (result.control ≤ result.address) × (result.address ≤ result.word) }
    ensures whole { result.word ≡ size_of kind z.n z.w }
{
    match kind {
        Kind::Write => ends(2, z),
        Kind::Read => ends(2, Sizes { w: 0, ..z }),
        Kind::Assert | Kind::Check => ends(1, z),
        Kind::Unknown => Ends {
            control: 0,
            address: 0,
            word: 0,
        },
    }
}

// How many nodes an access of this kind has.
pub fn operands(kind: Kind, z: Sizes) -> usize
    ensures { result ≡ size_of kind z.n z.w }
{
    ends_of(kind, z).word
}

// How many bytes stand between the kind byte and the nodes: a read's port.
pub fn lead(kind: Kind) -> usize
    ensures { result ≡ lead_of kind }
{
    match kind {
        Kind::Read => 1,
        _ => 0,
    }
}

// The port of an access, by the byte after its kind.
pub fn port_of(kind: Kind, b: u8) -> u32
    ensures { result ≡ port_of kind b }
{
    match kind {
        Kind::Read => u32::from(b),
        _ => 0,
    }
}
