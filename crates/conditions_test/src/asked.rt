// Questions about the nodes b, c and d of a store.
ghost use Rattle.std.specs.Prelude.{◌<◌, ◌≤◌, length};

use conditions::Builder;
use search::Searched;
use std::io;
use std::io::Write;
use stored::{Item, joined};
use text::{Text, Writer};

// 21: the value under the assignment whose halves are e and f; 22: whether an argument may name e; 23: whether b and c are neither somewhere; 24: whether b, c and d hold together.
fn truth(x: Item, build: &Builder) -> bool
    requires { (x.b < build.now.store.count) × (x.c < build.now.store.count) × (x.d < build.now.store.count) }
{
    let d = build.view();
    match x.kind {
        21 => conditions::evaluate(d, x.b, joined(x.e, x.f)),
        22 => conditions::is_user(d, x.e),
        23 => conditions::neither(d, x.b, x.c),
        _ => conditions::together(d, x.b, x.c, x.d),
    }
}

// Where the text ends, and whether its buffer was full.
fn tell<W: Write>(out: &mut W, t: Text) -> io::Result<()> {
    stored::bytes(out, b" at ")?;
    stored::decimal(out, t.at as u64)?;
    stored::word(out, u32::from(t.full))?;
    stored::bytes(out, b"\n")
}

// A node's text in the first bytes of a buffer, of which so many are shown.
fn put_text<W: Write>(
    out: &mut W,
    buf: &mut [u8],
    room: usize,
    shown: usize,
    build: &Builder,
    node: u32,
) -> io::Result<()>
    requires { (room ≤ length buf.old) × (shown ≤ length buf.old) × (node < build.now.store.count) }
{
    let mut w = Writer::new(&mut buf[..room]);
    conditions::put_condition(&mut w, build.view(), node);
    let t = w.text;
    stored::bytes(out, &buf[..shown])?;
    tell(out, t)
}

// Whether a search found a node, which, and how many nodes it compared.
fn tell_search<W: Write>(out: &mut W, r: Searched) -> io::Result<()> {
    stored::word(out, u32::from(r.found.is_some()))?;
    stored::word(out, r.found.unwrap_or(0))?;
    stored::word(out, r.compared)?;
    stored::bytes(out, b"\n")
}

// The search for the node with the words a, b and c, if b and c are nodes.
pub fn look<W: Write>(out: &mut W, x: Item, build: &Builder) -> io::Result<()> {
    let count = build.store.count;
    if x.b < count && x.c < count {
        let r = searching::search(build.words, count, x.a, x.b, x.c);
        return tell_search(out, r);
    }
    stored::bytes(out, b" 2 0 0\n")
}

// 25: the text in e of 20 bytes, each of which is a dot before; 26: in 65,536, of which 29 are shown.
pub fn ask<W: Write>(out: &mut W, x: Item, build: &Builder) -> io::Result<()>
    requires { (x.b < build.now.store.count) × (x.c < build.now.store.count) × (x.d < build.now.store.count) }
{
    match x.kind {
        26 => put_text(out, &mut [0; 65536], 65536, 29, build, x.b),
        25 if x.e <= 20 => put_text(out, &mut [b'.'; 20], x.e as usize, 20, build, x.b),
        25 => Ok(()),
        _ => {
            let holds = truth(x, build);
            stored::word(out, u32::from(holds))?;
            stored::bytes(out, b"\n")
        }
    }
}
