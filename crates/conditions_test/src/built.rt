// Operations one after the other, in one store and with one table.
ghost use Rattle.std.specs.Prelude.{◌<◌};

use crate::asked;
use conditions::{Builder, Store};
use std::io;
use std::io::{Read, Write};
use stored::Item;

// The variable is a, and the nodes are b, c and d.
fn operate(x: Item, build: &mut Builder) -> u32
    requires { (x.a < 64) × (x.b < build.old.store.count) × (x.c < build.old.store.count) × (x.d < build.old.store.count) }
{
    match x.kind {
        11 => build.variable(x.a),
        12 => build.ite(x.b, x.c, x.d),
        13 => build.not(x.b),
        14 => build.and(x.b, x.c),
        15 => build.or(x.b, x.c),
        _ => build.any(x.b),
    }
}

// The node, the count and whether the store is full.
fn tell<W: Write>(out: &mut W, node: u32, store: Store) -> io::Result<()> {
    stored::word(out, node)?;
    stored::word(out, store.count)?;
    stored::word(out, u32::from(store.full))?;
    stored::bytes(out, b"\n")
}

// An operation, or a question that builds nothing.
fn act<W: Write>(out: &mut W, x: Item, build: &mut Builder) -> io::Result<()>
    requires { (x.a < 64) × (x.b < build.old.store.count) × (x.c < build.old.store.count) × (x.d < build.old.store.count) }
{
    if x.kind < 20 {
        let node = operate(x, build);
        return tell(out, node, build.store);
    }
    asked::ask(out, x, build)
}

// The same, if the variable and the nodes are some. 27 is a search, for any words.
fn step<W: Write>(out: &mut W, x: Item, build: &mut Builder) -> io::Result<()> {
    if x.kind == 27 {
        return asked::look(out, x, build);
    }
    let count = build.store.count;
    if x.a < 64 && x.b < count && x.c < count && x.d < count {
        return act(out, x, build);
    }
    stored::bytes(out, b"no node\n")
}

// All items up to one that is no operation.
pub fn run<R: Read, W: Write>(input: &mut R, out: &mut W, build: &mut Builder) -> io::Result<()> {
    for _ in 0..1_000_000 {
        let x = stored::next(input)?;
        if x.kind < 11 {
            return Ok(());
        }
        step(out, x, build)?;
    }
    Ok(())
}
