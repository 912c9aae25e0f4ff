// Runs the stored case files. Standard input has them one after the other, each after an item that says the lengths of what is lent to it and its own.
// Of each it prints a line: its number; what the call returned and counted; the record; a digest of each buffer, also past what was lent. Then the text, if it was accepted.
#![tactic(auto)]

use std::io;
use std::io::{BufReader, BufWriter, Read, Write};
use stored::{Item, Kind, RecordWords, digest, length, wide};

// What a call returned and counted, and the record.
#[derive(Clone, Copy)]
struct Done {
    row: u32,
    count: u64,
    record: RecordWords,
}

fn tell<W: Write>(out: &mut W, d: Done) -> io::Result<()> {
    let r = d.record;
    stored::word(out, d.row)?;
    wide(out, d.count)?;
    stored::record(out, &r)
}

// The text of an accepted case.
fn text_of<W: Write>(out: &mut W, d: Done, text: &[u8]) -> io::Result<()> {
    let n = d.count as usize;
    if d.row == 0 && n <= text.len() {
        stored::bytes(out, &text[..n])?;
    }
    Ok(())
}

// The digests, of node words and list words from e and f on.
fn digests<W: Write>(
    out: &mut W,
    x: Item,
    words: &[u32],
    list: &[u32],
    text: &[u8],
) -> io::Result<()> {
    wide(out, digest(words, x.e as usize))?;
    wide(out, digest(list, x.f as usize))?;
    wide(out, digest(text, 0))?;
    stored::bytes(out, b"\n")
}

// The call, lent a words, b list words and c bytes. The record's words and the count are 7 before.
fn lend(x: Item, case: &[u8], words: &mut [u32], list: &mut [u32], text: &mut [u8]) -> Done {
    let mut record = [7u32; 6];
    let mut count: u64 = 7;
    let m = length(x.a, words.len());
    let k = length(x.b, list.len());
    let t = length(x.c, text.len());
    let row = capi_cases::md_case(
        case,
        &mut words[..m],
        &mut list[..k],
        &mut text[..t],
        &mut record,
        &mut count,
    );
    Done { row, count, record }
}

// A case and what is said of it, on buffers in which no part is 0, a node, a variable or a byte of text.
fn run<W: Write>(out: &mut W, x: Item, case: &[u8]) -> io::Result<()> {
    let mut words = [0x8000_0007u32; 60100];
    let mut list = [0x8000_0007u32; 30100];
    let mut text = [0x87u8; 65636];
    let d = lend(x, case, &mut words, &mut list, &mut text);
    tell(out, d)?;
    digests(out, x, &words, &list, &text)?;
    text_of(out, d, &text)
}

// The next case, of d bytes, of which the call is lent g. Whether there was one.
fn next<R: Read, W: Write>(
    input: &mut R,
    out: &mut W,
    case: &mut [u8],
    number: u32,
) -> io::Result<bool> {
    let x = stored::next(input)?;
    if Kind::from(x.kind) == Kind::End {
        return Ok(false);
    }
    let size = length(x.d, case.len());
    let lent = length(x.g, case.len());
    stored::read_full(input, &mut case[..size])?;
    stored::bytes(out, b"case")?;
    stored::word(out, number)?;
    stored::bytes(out, b":")?;
    run(out, x, &case[..lent])?;
    Ok(true)
}

// As much as the largest of the stored cases has, 81,938 bytes, and some more.
fn run_all<R: Read, W: Write>(input: &mut R, out: &mut W) -> io::Result<()> {
    let mut case = [0u8; 82000];
    for number in 0..1_000_000 {
        if !next(input, out, &mut case, number)? {
            return Ok(());
        }
    }
    Ok(())
}

fn main(rt: HostRuntime) -> io::Result<()> {
    let mut input = BufReader::new(rt.alloc(), rt.stdin())?;
    let mut out = BufWriter::new(rt.alloc(), rt.stdout())?;
    run_all(&mut input, &mut out)?;
    out.flush()
}
