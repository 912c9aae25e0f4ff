// The decision diagrams at their limits. An item of the input is words for a store, a question about words, or a count of nodes with which operations begin;
// the operations are the items that follow. Each prints a line of numbers.
#![tactic(auto)]

mod asked;
mod built;

use conditions::{Builder, Store, Table};
use std::io;
use std::io::{BufReader, BufWriter, Read, Write};
use stored::{Item, Words, length};

// Whether the words and the count a are a store in standard form, and the operations on it if they are.
fn begin<R: Read, W: Write>(
    input: &mut R,
    out: &mut W,
    x: Item,
    words: &mut [u32],
) -> io::Result<()> {
    let standard = nodes::is_standard(words, x.a);
    stored::word(out, u32::from(standard))?;
    stored::bytes(out, b"\n")?;
    if standard {
        let mut table: Table = [0; 32768];
        let mut build = Builder {
            words,
            table: &mut table,
            store: Store {
                count: x.a,
                full: false,
            },
        };
        built::run(input, out, &mut build)?;
    }
    Ok(())
}

// Clears the nodes from a on, if there are as many.
fn clear(x: Item, words: &mut [u32]) {
    if x.a <= nodes::capacity(words.len()) {
        nodes::clear(words, x.a);
    }
}

// An item on the first b words.
fn lend<R: Read, W: Write>(
    input: &mut R,
    out: &mut W,
    x: Item,
    words: &mut [u32],
) -> io::Result<()> {
    let m = length(x.b, words.len());
    if x.kind == 3 {
        clear(x, &mut words[..m]);
        return Ok(());
    }
    begin(input, out, x, &mut words[..m])
}

// So many words from place a on.
fn show<W: Write>(out: &mut W, a: u32, many: u32, words: &Words) -> io::Result<()> {
    for k in 0..many {
        if let Some(word) = words.get(a.wrapping_add(k) as usize) {
            stored::word(out, *word)?;
        }
    }
    stored::bytes(out, b"\n")
}

// The capacity of so many words.
fn capacity<W: Write>(out: &mut W, many: u32) -> io::Result<()> {
    stored::word(out, nodes::capacity(many as usize))?;
    stored::bytes(out, b"\n")
}

// 1 begins operations, 2 asks for a capacity, 3 clears, 4 shows words, 9 puts them.
fn run<R: Read, W: Write>(
    input: &mut R,
    out: &mut W,
    x: Item,
    words: &mut Words,
) -> io::Result<()> {
    match x.kind {
        2 => capacity(out, x.a),
        4 => show(out, x.a, x.b, words),
        9 => {
            stored::put(x, words);
            Ok(())
        }
        _ => lend(input, out, x, words),
    }
}

// All items, on words of zeros at first.
fn run_all<R: Read, W: Write>(input: &mut R, out: &mut W) -> io::Result<()> {
    let mut words: Words = [0; 49160];
    for _ in 0..1_000_000 {
        let x = stored::next(input)?;
        if x.kind == 0 {
            return Ok(());
        }
        run(input, out, x, &mut words)?;
    }
    Ok(())
}

fn main(rt: HostRuntime) -> io::Result<()> {
    let mut input = BufReader::new(rt.alloc(), rt.stdin())?;
    let mut out = BufWriter::new(rt.alloc(), rt.stdout())?;
    run_all(&mut input, &mut out)?;
    out.flush()
}
