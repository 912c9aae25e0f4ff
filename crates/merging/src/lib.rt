// What the halves of a word become, and what an entry makes of the word of a look, over a store and words that are already tested.
#![tactic(auto)]

ghost use Rattle.std.specs.Prelude.{◌≡◌, ℕ, ◌<◌, ◌≤◌, length, get_or};
ghost use Rattle.conditions.specs.Build.{Build};
ghost use Rattle.conditions.specs.Builder.{Did};
ghost use Rattle.model.specs.Record.{cell_words, size};
ghost use Rattle.model.specs.Access.{EachHalf, merge_half, settle_half, hold_half, entry_step};
ghost use Rattle.addresses.specs.Contract.{Nodes, shape};
ghost use Rattle.addresses.specs.Words.{WordDid};

use conditions::Builder;
use model::{ControlNode, DataNode};
use semantics::Sizes;

// Ite(hm, e, Ite(sm, Or(e, r), r))
fn merge_half(build: &mut Builder, hm: u32, sm: u32, e: DataNode, r: DataNode) -> u32
    requires { (hm < build.old.store.count) × (sm < build.old.store.count) × (e.0 < build.old.store.count) × (r.0 < build.old.store.count) }
    ensures { Did build.old build.new result (merge_half hm sm e.0 r.0) }
{
    let x = build.or(e.0, r.0);
    let y = build.ite(sm, x, r.0);
    build.ite(hm, e.0, y)
}

// Any(And(inside, r))
fn settle_half(build: &mut Builder, inside: u32, r: DataNode) -> u32
    requires { (inside < build.old.store.count) × (r.0 < build.old.store.count) }
    ensures { Did build.old build.new result (settle_half inside r.0) }
{
    let x = build.and(inside, r.0);
    build.any(x)
}

// t = Ite(S, r, e.h), then Ite(t, r, p)
fn hold_half(build: &mut Builder, unknown: u32, e: ControlNode, p: DataNode, r: DataNode) -> u32
    requires { (unknown < build.old.store.count) × (e.0 < build.old.store.count) × (p.0 < build.old.store.count) × (r.0 < build.old.store.count) }
    ensures { Did build.old build.new result (hold_half unknown e.0 p.0 r.0) }
{
    let t = build.ite(unknown, r.0, e.0);
    build.ite(t, r.0, p.0)
}

// Each half of a word in its turn, with its place: what the closure makes of it.
pub fn each_half<F: Fn(&mut Builder, usize, DataNode) -> u32>(
    build: &mut Builder,
    word: &mut [u32],
    half: F,
)
    ghost x: { ℕ → ℕ → Build ℕ }
    requires may { (b : _) (k : ℕ) (r : _) → build.old.store.count ≤ b.now.store.count → k < length word.old → r.0 < b.now.store.count → F.pre half b k r }
    requires does { (b : _) (c : _) (k : ℕ) (r : _) (n : ℕ) → F.post half b k r n c → Did b.now c.now n (x k r.0) }
    requires nodes { Nodes build.old.store.count word.old }
    ensures { WordDid build.old build.new word.new (EachHalf x (length word.old) word.old) }
{
    for (k, r) in word.iter_mut().enumerate() {
        *r = half(build, k, DataNode(*r));
    }
}

// The halves of an entry merged into those of a word, by its h and s where it matches.
pub fn merge(build: &mut Builder, hard: u32, soft: u32, data: &[u32], word: &mut [u32])
    requires { (hard < build.old.store.count) × (soft < build.old.store.count) × (length word.old ≤ length «data».now) × Nodes build.old.store.count «data».now × Nodes build.old.store.count word.old }
    ensures { WordDid build.old build.new word.new (EachHalf (λ k. merge_half hard soft (get_or «data».now k 0)) (length word.old) word.old) }
{
    each_half(
        build,
        word,
        move |build: &mut Builder, k: usize, r: DataNode| {
            merge_half(build, hard, soft, DataNode(data[k]), r)
        },
    );
}

// Each half of a word settled: whether it may be so at some location inside.
pub fn settle(build: &mut Builder, inside: u32, word: &mut [u32])
    requires { (inside < build.old.store.count) × Nodes build.old.store.count word.old }
    ensures { WordDid build.old build.new word.new (EachHalf (λ k. settle_half inside) (length word.old) word.old) }
{
    each_half(
        build,
        word,
        move |build: &mut Builder, _k: usize, r: DataNode| { settle_half(build, inside, r) },
    );
}

// Each half of a look beside that of the word that a port holds, as the enable says.
pub fn hold(build: &mut Builder, unknown: u32, enable: ControlNode, held: &[u32], word: &mut [u32])
    requires { (unknown < build.old.store.count) × (enable.0 < build.old.store.count) × (length word.old ≤ length held.now) × Nodes build.old.store.count held.now × Nodes build.old.store.count word.old }
    ensures { WordDid build.old build.new word.new (EachHalf (λ k. hold_half unknown enable.0 (get_or held.now k 0)) (length word.old) word.old) }
{
    each_half(
        build,
        word,
        move |build: &mut Builder, k: usize, r: DataNode| {
            hold_half(build, unknown, enable, DataNode(held[k]), r)
        },
    );
}

// What an entry makes of a word.
pub fn look_entry(build: &mut Builder, z: Sizes, inside: u32, entry: &[u32], word: &mut [u32])
    requires { (z.n ≤ 8) × (z.w ≤ 16) × (length entry.now ≡ size (shape z 0)) × (length word.old ≡ cell_words (shape z 0)) × Nodes build.old.store.count entry.now × Nodes build.old.store.count word.old × (inside < build.old.store.count) }
    ensures { WordDid build.old build.new word.new (entry_step (shape z 0) inside entry.now word.old) }
{
    let at = 2 + ranges::address_words(z);
    let end = at + ranges::cell_words(z);
    let m = addresses::narrow(build, z.n as usize, &entry[2..at], inside);
    let hard = build.and(m, entry[0]);
    let soft = build.and(m, entry[1]);
    merge(build, hard, soft, &entry[at..end], word);
}
