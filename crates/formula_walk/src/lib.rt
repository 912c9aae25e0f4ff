// A written formula is read by three functions that call one another. A first walk over its text counts the predicates that it names; later ones build its conditions, and write the
// triples of one step each.
#![tactic(auto)]

ghost use Rattle.std.specs.Prelude.{◌≡◌, ◌+◌, ◌<◌, ◌≤◌, true, suc, length, get_or, drop};
ghost use Rattle.formulas.specs.Language.{formula, conjunction, unit};
ghost use Rattle.conditions.specs.Builder.{Did};
ghost use Rattle.conditions.specs.User.{is_user};
ghost use Rattle.tokens.specs.Contract.{starts, TookAt, when_token};
ghost use Rattle.formula_walk.specs.Contract.{out_of, put, listed_by, MayCount, condition_in, Behind, NamedAt, Closed, inner_of, Walks, ArrowIs, Begins, BegunIs, Goes, Ended, MayWalk, Walked};

use conditions::{Builder, Diagrams};
use refusals::Refusal;
use tokens::{Fault, Token};

// What a walk does: it counts the predicates, and builds nothing; or it builds the conditions, and writes the triples of one step.
#[derive(Clone, Copy)]
pub enum Pass {
    Count,
    List(u32),
}

// What a walk goes by: the number of predicates in the table, and the nodes that were there before.
#[derive(Clone, Copy)]
pub struct Plan {
    pub pass: Pass,
    pub predicates: usize,
    pub count: u32,
}

// What is open around a place: how many more may be, how many N are, and the condition.
#[derive(Clone, Copy)]
pub struct Around {
    pub allowed: u32,
    pub step: u32,
    pub condition: u32,
}

// How far a walk has come: its place, and how many predicates it has counted, or triples written.
#[derive(Clone, Copy)]
pub struct Walk {
    pub at: usize,
    pub listed: usize,
}

// Behind the byte at a walk's place, and its spaces.
fn behind(text: &[u8], y: Walk) -> Walk
    requires { y.at < length text.now }
    ensures { Behind text.now y result }
{
    Walk {
        at: tokens::spaces(text, y.at + 1),
        listed: y.listed,
    }
}

// A triple, where there is space for it.
fn put_triple(out: &mut [u32], listed: usize, o: Around, named: u32) -> usize
    ensures { out_of out.new result ≡ put (record { step = o.step; condition = o.condition; named = named }) (out_of out.old listed) }
{
    if listed < out.len() / 3 {
        let k = 3 * listed;
        out[k..k + 3].copy_from_slice(&[o.step, o.condition, named]);
        return listed + 1;
    }
    listed
}

// A predicate is counted; or its triple is written, if it is of the pass's step.
fn list(out: &mut [u32], pass: Pass, listed: usize, o: Around, named: u32) -> usize
    requires { MayCount pass listed }
    ensures { out_of out.new result ≡ listed_by pass (record { step = o.step; condition = o.condition; named = named }) (out_of out.old listed) }
{
    match pass {
        Pass::Count => listed + 1,
        Pass::List(k) => {
            if o.step == k {
                put_triple(out, listed, o, named)
            } else {
                listed
            }
        }
    }
}

// The condition inside an arrow.
fn condition_in(build: &mut Builder, pass: Pass, c: u32, b: u32) -> u32
    requires { (c < build.old.store.count) × (b < build.old.store.count) }
    ensures { Did build.old build.new result (condition_in pass c b) }
{
    match pass {
        Pass::Count => c,
        Pass::List(_) => build.and(c, b),
    }
}

// `m` and its number.
fn predicate(text: &[u8], out: &mut [u32], g: Plan, o: Around, x: Walk) -> Result<Walk, Fault>
    requires { Begins g o text.now x × (starts 109 (drop x.at text.now) ≡ true) }
    ensures { NamedAt g o text.now out.old x out.new result }
{
    let t = tokens::predicate_token(text, x.at, g.predicates)?;
    Ok(Walk {
        at: t.at,
        listed: list(out, g.pass, x.listed, o, t.number),
    })
}

// Behind a formula in parentheses.
fn close(text: &[u8], y: Walk) -> Result<Walk, Fault>
    requires { y.at ≤ length text.now }
    ensures { Closed text.now y result }
{
    if !tokens::stands(text, y.at, b')') {
        return Err(Fault {
            refusal: Refusal::Language,
            at: y.at,
        });
    }
    Ok(behind(text, y))
}

// What is open inside an arrow, an `N` or parentheses, with so many more N and this condition.
fn inner(o: Around, more: u32, condition: u32) -> Around
    requires { (0 < o.allowed) × (o.step + o.allowed ≤ 32) × (more ≤ 1) }
    ensures { result ≡ inner_of o more condition }
{
    Around {
        allowed: o.allowed - 1,
        step: o.step + more,
        condition,
    }
}

// `b`, its number and the arrow, at the letter.
fn arrow(text: &[u8], build: &Builder, g: Plan, o: Around, at: usize) -> Result<Token, Fault>
    requires { (at < length text.now) × (2 ≤ g.count) × (g.count ≤ build.now.store.count) }
    ensures { TookAt text.now result (when_token (is_user build.now.words.now g.count) o.allowed (get_or text.now at 0) (drop (suc at) text.now)) }
{
    let d = Diagrams {
        words: build.words,
        count: g.count,
    };
    tokens::when_token(text, at, d, o.allowed)
}

// `b`, its number and the arrow, if they stand here: the condition inside them, and the place behind them.
fn begin_formula(
    text: &[u8],
    build: &mut Builder,
    g: Plan,
    o: Around,
    x: Walk,
) -> Result<Option<(Around, Walk)>, Fault>
    requires { Walks g o text.now build.old x }
    ensures { ArrowIs g o text.now build.old x build.new result }
{
    if !tokens::stands(text, x.at, b'b') {
        return Ok(None);
    }
    let t = arrow(text, build, g, o, x.at)?;
    let c = condition_in(build, g.pass, o.condition, t.number);
    let y = Walk {
        at: t.at,
        listed: x.listed,
    };
    Ok(Some((inner(o, 0, c), y)))
}

// How a unit begins: with a predicate, and it is done; with `N`; or with `(`.
#[derive(Clone, Copy)]
enum Begun {
    Done(Walk),
    Next(Around, Walk),
    Group(Around, Walk),
}

// A predicate, `N` or `(`.
fn begin_unit(text: &[u8], out: &mut [u32], g: Plan, o: Around, x: Walk) -> Result<Begun, Fault>
    requires { Begins g o text.now x }
    ensures { BegunIs g o text.now out.old x out.new result }
{
    if tokens::stands(text, x.at, b'm') {
        let y = predicate(text, out, g, o, x)?;
        return Ok(Begun::Done(y));
    }
    let next = tokens::stands(text, x.at, b'N');
    let group = tokens::stands(text, x.at, b'(');
    if !(next | group) {
        return Err(Fault {
            refusal: Refusal::Language,
            at: x.at,
        });
    }
    let t = tokens::opener_token(text, x.at, o.allowed)?;
    let y = Walk {
        at: t.at,
        listed: x.listed,
    };
    if next {
        return Ok(Begun::Next(inner(o, 1, o.condition), y));
    }
    Ok(Begun::Group(inner(o, 0, o.condition), y))
}

// A conjunction, or `b` number `->` formula.
#[cycle(conjunction_formula_unit)]
fn formula(
    text: &[u8],
    build: &mut Builder,
    out: &mut [u32],
    g: Plan,
    o: Around,
    x: Walk,
) -> Result<Walk, Fault>
    requires { Walks g o text.now build.old x }
    ensures { Goes g o formula text.now build.old out.old x build.new out.new result }
{
    let b = begin_formula(text, build, g, o, x)?;
    match b {
        None => conjunction(text, build, out, g, o, x),
        Some((a, y)) => formula(text, build, out, g, a, y),
    }
}

// Units joined by `&`.
#[cycle(conjunction_formula_unit)]
fn conjunction(
    text: &[u8],
    build: &mut Builder,
    out: &mut [u32],
    g: Plan,
    o: Around,
    x: Walk,
) -> Result<Walk, Fault>
    requires { Walks g o text.now build.old x }
    ensures { Goes g o conjunction text.now build.old out.old x build.new out.new result }
{
    let mut y = unit(text, build, out, g, o, x)?;
    while tokens::stands(text, y.at, b'&') {
        let z = behind(text, y);
        y = unit(text, build, out, g, o, z)?;
    }
    Ok(y)
}

// `m` number, `N` unit, or a formula in parentheses.
#[cycle(conjunction_formula_unit)]
fn unit(
    text: &[u8],
    build: &mut Builder,
    out: &mut [u32],
    g: Plan,
    o: Around,
    x: Walk,
) -> Result<Walk, Fault>
    requires { Walks g o text.now build.old x }
    ensures { Goes g o unit text.now build.old out.old x build.new out.new result }
{
    let b = begin_unit(text, out, g, o, x)?;
    match b {
        Begun::Done(y) => Ok(y),
        Begun::Next(a, y) => unit(text, build, out, g, a, y),
        Begun::Group(a, y) => {
            let z = formula(text, build, out, g, a, y)?;
            close(text, z)
        }
    }
}

// Behind a whole formula: the text ends there, or what follows is outside the language.
fn ended(text: &[u8], y: Walk) -> Result<Walk, Fault>
    requires { y.at ≤ length text.now }
    ensures { Ended text.now y result }
{
    if y.at < text.len() {
        return Err(Fault {
            refusal: Refusal::Language,
            at: y.at,
        });
    }
    Ok(y)
}

// A walk over a whole text, with so many triples already written.
pub fn walk_text(
    text: &[u8],
    build: &mut Builder,
    out: &mut [u32],
    g: Plan,
    listed: usize,
) -> Result<Walk, Fault>
    requires { MayWalk g build.old listed }
    ensures { Walked g text.now build.old out.old listed build.new out.new result }
{
    let x = Walk {
        at: tokens::spaces(text, 0),
        listed,
    };
    let o = Around {
        allowed: 32,
        step: 0,
        condition: 1,
    };
    let y = formula(text, build, out, g, o, x)?;
    ended(text, y)
}
