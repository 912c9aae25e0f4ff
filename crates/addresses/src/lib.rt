// What the pairs of an address build: that none is X, and a condition narrowed by them.
#![tactic(auto)]

ghost use Rattle.std.specs.Prelude.{◌≡◌, ◌+◌, ◌*◌, ◌<◌, ◌≤◌, length};
ghost use Rattle.conditions.specs.Builder.{Did};
ghost use Rattle.model.specs.Access.{unique_bit, Unique, narrow_bit, Narrow};
ghost use Rattle.addresses.specs.Contract.{Nodes, address_pair};

use conditions::Builder;
use model::{AddressNode, Pair};

// Pair i of an address.
pub fn address_pair(address: &[u32], i: usize) -> Pair<AddressNode>
    requires { 2 * i + 1 < length address.now }
    ensures { result ≡ address_pair address.now i }
{
    let at = 2 * i;
    Pair {
        h: AddressNode(address[at]),
        l: AddressNode(address[at + 1]),
    }
}

// And(u, Not And(a.h, a.l))
fn unique_bit(build: &mut Builder, a: Pair<AddressNode>, u: u32) -> u32
    requires { (a.h.0 < build.old.store.count) × (a.l.0 < build.old.store.count) × (u < build.old.store.count) }
    ensures { Did build.old build.new result (unique_bit a.h.0 a.l.0 u) }
{
    let x = build.and(a.h.0, a.l.0);
    let y = build.not(x);
    build.and(u, y)
}

// That no bit of an address is X.
pub fn unique(build: &mut Builder, n: usize, address: &[u32]) -> u32
    requires { (n ≤ 8) × (length address.now ≡ 2 * n) × Nodes build.old.store.count address.now }
    ensures { Did build.old build.new result (Unique n address.now) }
{
    let mut u = 1;
    for i in 0..n {
        u = unique_bit(build, address_pair(address, i), u);
    }
    u
}

// And(m, Ite(index i, a.h, a.l))
fn narrow_bit(build: &mut Builder, i: u32, a: Pair<AddressNode>, m: u32) -> u32
    requires { (i < 64) × (a.h.0 < build.old.store.count) × (a.l.0 < build.old.store.count) × (m < build.old.store.count) }
    ensures { Did build.old build.new result (narrow_bit i a.h.0 a.l.0 m) }
{
    let x = build.variable(i);
    let t = build.ite(x, a.h.0, a.l.0);
    build.and(m, t)
}

// A condition m, where each bit of an address admits the index's.
pub fn narrow(build: &mut Builder, n: usize, address: &[u32], mut m: u32) -> u32
    requires { (n ≤ 8) × (length address.now ≡ 2 * n) × Nodes build.old.store.count address.now × (m < build.old.store.count) }
    ensures { Did build.old build.new result (Narrow n address.now m) }
{
    for i in 0..n {
        m = narrow_bit(build, i as u32, address_pair(address, i), m);
    }
    m
}
