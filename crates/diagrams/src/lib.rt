// What the nodes of a decision diagram mean: a node's value under an assignment, and the parts of three nodes at their least variable.
#![tactic(auto)]

ghost use Rattle.std.specs.Prelude.{◌≡◌, ◌^◌, ◌<◌};
ghost use Rattle.nodes.specs.Words.{child_at};
ghost use Rattle.diagrams.specs.Value.{value};
ghost use Rattle.diagrams.specs.Assignment.{bit_at};
ghost use Rattle.diagrams.specs.Witness.{witness_of};
ghost use Rattle.diagrams.specs.Parts.{part_of, parts_of};
ghost use Rattle.diagrams.specs.Keys.{key_of, slot_of};

use nodes::Diagrams;

// The least top variable of three nodes, their low parts and their high parts.
#[derive(Clone, Copy)]
pub struct Parts {
    pub v: u32,
    pub f0: u32,
    pub g0: u32,
    pub h0: u32,
    pub f1: u32,
    pub g1: u32,
    pub h1: u32,
}

// A node's low child, or its high child.
fn child(d: Diagrams, upper: bool, node: u32) -> u32
    requires { node < d.count }
    ensures { result ≡ child_at upper d.entry.words.now node }
{
    if upper { d.high(node) } else { d.low(node) }
}

// A node's low part at a variable, or its high part: a node on another variable stands for both.
#[tactic(auto, unfolding(crate::specs::Parts::part_of))]
fn part(d: Diagrams, upper: bool, v: u32, node: u32) -> u32
    requires { node < d.count }
    ensures { result ≡ part_of upper d.entry.words.now v node }
{
    if d.top(node) != v {
        return node;
    }
    child(d, upper, node)
}

// The least top variable of three nodes, and their parts at it.
pub fn divide(d: Diagrams, f: u32, g: u32, h: u32) -> Parts
    requires { (f < d.count) × (g < d.count) × (h < d.count) }
    ensures { result ≡ parts_of d.entry.words.now f g h }
{
    let v = d.top(f).min(d.top(g)).min(d.top(h));
    let f0 = part(d, false, v, f);
    let g0 = part(d, false, v, g);
    let h0 = part(d, false, v, h);
    let f1 = part(d, true, v, f);
    let g1 = part(d, true, v, g);
    let h1 = part(d, true, v, h);
    Parts {
        v,
        f0,
        g0,
        h0,
        f1,
        g1,
        h1,
    }
}

// Three nodes in one number.
pub fn key(f: u32, g: u32, h: u32) -> u64
    requires { (f < 16384) × (g < 16384) × (h < 16384) }
    ensures { (result ≡ key_of f g h) × (result < 4398046511104) }
{
    (f as u64 * 16384 + g as u64) * 16384 + h as u64
}

// The place of three nodes in a table.
pub fn slot(f: u32, g: u32, h: u32) -> usize
    requires { (f < 16384) × (g < 16384) × (h < 16384) }
    ensures { (result ≡ slot_of f g h) × (result < 32768) }
{
    (f as usize * 12_582_917 + g as usize * 4_256_249 + h as usize * 741_457) % 32768
}

// The bit of an assignment that is variable v.
#[tactic(auto, unfolding(crate::specs::Assignment::bit_at))]
fn bit(a: u64, v: u32) -> bool
    requires { v < 64 }
    ensures { result ≡ bit_at a v }
{
    (a >> v) % 2 == 1
}

// A node's value under an assignment.
pub fn evaluate(d: Diagrams, node: u32, a: u64) -> bool
    requires { node < d.count }
    ensures { result ≡ value d.entry.words.now (bit_at a) node }
{
    let mut n = node;
    while 2 <= n {
        let v = d.top(n);
        n = child(d, bit(a, v), n);
    }
    n == 1
}

// The number that has bit v alone.
fn power(v: u32) -> u64
    requires { v < 64 }
    ensures { result ≡ 2 ^ v }
{
    1u64 << v
}

// An assignment under which a node holds, unless it is node 0: down to the low child, and where that is node 0 to the high child.
pub fn witness(d: Diagrams, node: u32) -> u64
    requires { node < d.count }
    ensures { result ≡ witness_of d.entry.words.now node }
{
    let mut a: u64 = 0;
    let mut n = node;
    while 2 <= n {
        let low = d.low(n);
        if low == 0 {
            a += power(d.top(n));
            n = d.high(n);
        } else {
            n = low;
        }
    }
    a
}
