// A constant added to an address: what `unit_programs` has as the program Add, over lent words.
#![tactic(auto)]

ghost use Rattle.std.specs.Prelude.{◌≡◌, ◌++◌, ◌+◌, ◌*◌, ◌/◌, ◌%◌, ◌^◌, ◌<◌, ◌≤◌, eqb, length, set, take};
ghost use Rattle.conditions.specs.Builder.{Did};
ghost use Rattle.units.specs.Sum.{bits_of};
ghost use Rattle.unit_programs.specs.Add.{mix_half, sum_bit, carry_bit, Add};
ghost use Rattle.addresses.specs.Contract.{Nodes};
ghost use Rattle.addresses.specs.Words.{WordDid};
ghost use Rattle.sums.specs.Contract.{PairNodes, FirstNodes, adding, halves_of, turned_pair, either_of, sum_bit_of, add_bit_of, PairDid, BitDid};

use conditions::Builder;
use model::{AddressNode, Pair};

// Bit i of a constant.
fn bit_at(k: u32, i: usize) -> bool
    requires { i < 8 }
    ensures { result ≡ eqb (k / 2 ^ i % 2) 1 }
{
    (k >> (i as u32)) % 2 == 1
}

// Ite(a.h, Or(a.l, other), own)
fn mix_half(
    build: &mut Builder,
    a: Pair<AddressNode>,
    other: AddressNode,
    own: AddressNode,
) -> AddressNode
    requires { PairNodes build.old.store.count a × (other.0 < build.old.store.count) × (own.0 < build.old.store.count) }
    ensures { Did build.old build.new result.0 (mix_half a.h.0 a.l.0 other.0 own.0) }
{
    let x = build.or(a.l.0, other.0);
    AddressNode(build.ite(a.h.0, x, own.0))
}

// A pair, exchanged where a bit of the constant is 1.
fn turn(one: bool, p: Pair<AddressNode>) -> Pair<AddressNode>
    ensures { result ≡ turned_pair one p }
{
    if one { Pair { h: p.l, l: p.h } } else { p }
}

// A bit of the sum of a pair and the carry c: x, which a bit of the constant that is 1 exchanges.
fn sum_bit(
    build: &mut Builder,
    one: bool,
    a: Pair<AddressNode>,
    c: Pair<AddressNode>,
) -> Pair<AddressNode>
    requires { PairNodes build.old.store.count a × PairNodes build.old.store.count c }
    ensures { PairDid build.old build.new result (λ ws. adding (ws ++ halves_of result) c) (λ ws. sum_bit one a.h.0 a.l.0 (adding ws c)) }
{
    let h = mix_half(build, a, c.l, c.h);
    let l = mix_half(build, a, c.h, c.l);
    turn(one, Pair { h, l })
}

// Or of two nodes, or And of them.
fn either(build: &mut Builder, or: bool, f: AddressNode, g: AddressNode) -> AddressNode
    requires { (f.0 < build.old.store.count) × (g.0 < build.old.store.count) }
    ensures { Did build.old build.new result.0 (either_of or f.0 g.0) }
{
    AddressNode(if or {
        build.or(f.0, g.0)
    } else {
        build.and(f.0, g.0)
    })
}

// The carry after a pair: (And(a.h, c.h), Or(a.l, c.l)), or (Or(a.h, c.h), And(a.l, c.l)) where the constant's bit is 1.
fn carry_bit(
    build: &mut Builder,
    one: bool,
    a: Pair<AddressNode>,
    c: Pair<AddressNode>,
) -> Pair<AddressNode>
    requires { PairNodes build.old.store.count a × PairNodes build.old.store.count c }
    ensures { PairDid build.old build.new result (λ ws. adding ws result) (λ ws. carry_bit one a.h.0 a.l.0 (adding ws c)) }
{
    let h = either(build, one, a.h, c.h);
    let l = either(build, !one, a.l, c.l);
    Pair { h, l }
}

// Pair i of the sum put in its place.
fn put_pair(out: &mut [u32], i: usize, p: Pair<AddressNode>)
    requires { 2 * i + 1 < length out.old }
    ensures { out.new ≡ set (set out.old (2 * i) p.h.0) (2 * i + 1) p.l.0 }
{
    let at = 2 * i;
    out[at] = p.h.0;
    out[at + 1] = p.l.0;
}

// Bit i of the sum in its place.
fn place_bit(
    build: &mut Builder,
    address: &[u32],
    i: usize,
    k: u32,
    c: Pair<AddressNode>,
    out: &mut [u32],
)
    requires { (i < 8) × (2 * i + 1 < length address.now) × Nodes build.old.store.count address.now × PairNodes build.old.store.count c × (length out.old ≡ length address.now) × FirstNodes build.old.store.count (2 * i) out.old }
    ensures { BitDid build.old build.new c (i + 1) out.new (sum_bit_of k address.now i (adding (take (2 * i) out.old) c)) }
{
    let a = addresses::address_pair(address, i);
    let x = sum_bit(build, bit_at(k, i), a, c);
    put_pair(out, i, x);
}

// Bit i of the sum in its place, and the carry after it.
fn add_bit(
    build: &mut Builder,
    address: &[u32],
    i: usize,
    k: u32,
    c: Pair<AddressNode>,
    out: &mut [u32],
) -> Pair<AddressNode>
    requires { (i < 8) × (2 * i + 1 < length address.now) × Nodes build.old.store.count address.now × PairNodes build.old.store.count c × (length out.old ≡ length address.now) × FirstNodes build.old.store.count (2 * i) out.old }
    ensures { BitDid build.old build.new result (i + 1) out.new (add_bit_of k address.now i (adding (take (2 * i) out.old) c)) }
{
    place_bit(build, address, i, k, c, out);
    let a = addresses::address_pair(address, i);
    carry_bit(build, bit_at(k, i), a, c)
}

// The sum of an address and a constant, in `out`; no carry is built after the last bit.
pub fn add(build: &mut Builder, n: usize, address: &[u32], k: u32, out: &mut [u32])
    requires { (1 ≤ n) × (n ≤ 8) × (length address.now ≡ 2 * n) × Nodes build.old.store.count address.now × (length out.old ≡ 2 * n) }
    ensures { WordDid build.old build.new out.new (Add n address.now (bits_of n k)) }
{
    let mut c = Pair {
        h: AddressNode(0),
        l: AddressNode(1),
    };
    for i in 0..n - 1 {
        c = add_bit(build, address, i, k, c, out);
    }
    place_bit(build, address, n - 1, k, c, out)
}
