// Runs the stored calls of written formulas. An item of the input is a record, words or bytes to put into a buffer, or a call on what they then hold.
// A line for each call: its number, what it returned, its out-words, the record, and every word that it changed in a buffer, lent or not.
#![tactic(auto)]

mod buffers;

use buffers::Buffers;
use std::io;
use std::io::{BufReader, BufWriter, Read, Write};
use stored::Kind;

// All items, on buffers of zeros at first.
fn run_all<R: Read, W: Write>(input: &mut R, out: &mut W) -> io::Result<()> {
    let mut buffers = Buffers {
        record: [0; 6],
        nodes: [0; 49160],
        list: [0; 49160],
        text: [0; 65600],
        table: [0; 49160],
        answer: [0; 49160],
    };
    for _ in 0..1_000_000 {
        let x = stored::next(input)?;
        match Kind::from(x.kind) {
            Kind::End => return Ok(()),
            Kind::Put => buffers.put(x),
            Kind::Record => buffers.record = [x.a, x.b, x.c, x.d, x.e, x.f],
            Kind::Own => buffers.call(out, x)?,
        }
    }
    Ok(())
}

fn main(rt: HostRuntime) -> io::Result<()> {
    let mut input = BufReader::new(rt.alloc(), rt.stdin())?;
    let mut out = BufWriter::new(rt.alloc(), rt.stdout())?;
    run_all(&mut input, &mut out)?;
    out.flush()
}
