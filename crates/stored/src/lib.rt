// The stored inputs of the test programs: items of eight numbers, each of four bytes, low byte first; and what they print.
#![tactic(auto)]

mod changes;
mod elements;

ghost use Rattle.std.specs.Prelude.{◌≡◌, ◌≤◌, ◌∷◌, ◌+◌, ◌*◌, decimal, OnOk};
ghost use Rattle.std.specs.Io.KnownBytes.{Appends};

pub use changes::changed;
pub use elements::{Element, digest};
pub use input::read_full;
use std::io;
use std::io::{Read, Write};

pub type Words = [u32; 49160];

pub type Bytes = [u8; 65600];

// What the numbers say is said by the program that reads them.
#[derive(Clone, Copy)]
pub struct Item {
    pub kind: u32,
    pub a: u32,
    pub b: u32,
    pub c: u32,
    pub d: u32,
    pub e: u32,
    pub f: u32,
    pub g: u32,
}

// What an item is by its kind: the end of the input, elements to put into a buffer, a record, or what is the program's own.
#[derive(Clone, Copy, PartialEq, Eq)]
pub enum Kind {
    End,
    Put,
    Record,
    Own,
}

impl From<u32> for Kind {
    fn from(kind: u32) -> Kind {
        match kind {
            0 => Kind::End,
            9 => Kind::Put,
            10 => Kind::Record,
            _ => Kind::Own,
        }
    }
}

// The next number, 0 past the end.
pub fn number<R: Read>(input: &mut R) -> io::Result<u32> {
    let mut b = [0u8; 4];
    read_full(input, &mut b)?;
    Ok(u32::from_le_bytes(b))
}

pub fn next<R: Read>(input: &mut R) -> io::Result<Item> {
    Ok(Item {
        kind: number(input)?,
        a: number(input)?,
        b: number(input)?,
        c: number(input)?,
        d: number(input)?,
        e: number(input)?,
        f: number(input)?,
        g: number(input)?,
    })
}

// Puts c elements from place b on, where the buffer has those places: the first is that of the word e, and each next stands d places on, and its word is more by f.
pub fn put<T: Element>(x: Item, to: &mut [T]) {
    let mut at = x.b;
    let mut word = x.e;
    for _ in 0..x.c {
        if let Some(place) = to.get_mut(at as usize) {
            *place = T::low(word);
        }
        at = at.wrapping_add(x.d);
        word = word.wrapping_add(x.f);
    }
}

// The number of two halves.
pub fn joined(low: u32, high: u32) -> u64
    ensures { result ≡ low + 4294967296 * high }
{
    u64::from(low) + 4294967296 * u64::from(high)
}

// A length, or the most that it may be.
pub fn length(x: u32, most: usize) -> usize
    ensures { result ≤ most }
{
    most.min(x as usize)
}

pub fn bytes<W: Write>(out: &mut W, s: &[u8]) -> io::Result<()>
    ensures { OnOk result (Appends (W.contents out.old) (W.contents out.new) s.now) }
{
    out.write_all(s)
}

pub fn decimal<W: Write>(out: &mut W, x: u64) -> io::Result<()>
    ensures { OnOk result (Appends (W.contents out.old) (W.contents out.new) (decimal x)) }
{
    write!(out, "{x}")
}

// A number after a space.
pub fn wide<W: Write>(out: &mut W, x: u64) -> io::Result<()>
    ensures { OnOk result (Appends (W.contents out.old) (W.contents out.new) (32 ∷ decimal x)) }
{
    write!(out, " {x}")
}

pub fn word<W: Write>(out: &mut W, x: u32) -> io::Result<()>
    ensures { OnOk result (Appends (W.contents out.old) (W.contents out.new) (32 ∷ decimal x)) }
{
    wide(out, u64::from(x))
}

// The words of a record.
pub type RecordWords = [u32; 6];

pub fn record<W: Write>(out: &mut W, r: &RecordWords) -> io::Result<()> {
    for x in r {
        word(out, *x)?;
    }
    Ok(())
}
