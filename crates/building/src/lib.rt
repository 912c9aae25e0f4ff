// The accesses, without rows 1 to 8: what each builds over a store, a list and arguments that are already tested.
#![tactic(auto)]

ghost use Rattle.std.specs.Prelude.{◌≡◌, ◌*◌, ◌<◌, ◌≤◌, length};
ghost use Rattle.conditions.specs.Builder.{Did};
ghost use Rattle.model.specs.Record.{cell_words, data_words};
ghost use Rattle.model.specs.Access.{Certain, Write, Read, inside_half, Inside};
ghost use Rattle.building.specs.Contract.{Nodes, WordDid, MarksDid, shape, Looks};

use conditions::Builder;
pub use lookup::{Entries, look};
use model::DataNode;
pub use model::{ControlNode, Pair};

// A write's h and s.
#[derive(Clone, Copy)]
pub struct Marks {
    pub hard: u32,
    pub soft: u32,
}

// And(c.h, Not c.l): a control that is certainly 1.
fn certain(build: &mut Builder, c: Pair<ControlNode>) -> u32
    requires { (c.h.0 < build.old.store.count) × (c.l.0 < build.old.store.count) }
    ensures { Did build.old build.new result (Certain c.h.0 c.l.0) }
{
    let x = build.not(c.l.0);
    build.and(c.h.0, x)
}

// A write's h and s.
pub fn write_marks(build: &mut Builder, n: usize, c: Pair<ControlNode>, address: &[u32]) -> Marks
    requires { (n ≤ 8) × (length address.now ≡ 2 * n) × Nodes build.old.store.count address.now × (c.h.0 < build.old.store.count) × (c.l.0 < build.old.store.count) }
    ensures { MarksDid build.old build.new result (Write n c.h.0 c.l.0 address.now) }
{
    let sure = certain(build, c);
    let u = addresses::unique(build, n, address);
    let hard = build.and(sure, u);
    let x = build.and(c.h.0, c.l.0);
    let y = build.not(u);
    let z = build.and(sure, y);
    let soft = build.or(x, z);
    Marks { hard, soft }
}

// And(c, Or(Not x, y))
fn inside_half(build: &mut Builder, x: DataNode, y: DataNode, c: u32) -> u32
    requires { (x.0 < build.old.store.count) × (y.0 < build.old.store.count) × (c < build.old.store.count) }
    ensures { Did build.old build.new result (inside_half x.0 y.0 c) }
{
    let p = build.not(x.0);
    let q = build.or(p, y.0);
    build.and(c, q)
}

// That each half of the word x is inside that of y.
pub fn inside(build: &mut Builder, x: &[u32], y: &[u32]) -> u32
    requires { (length y.now ≡ length x.now) × Nodes build.old.store.count x.now × Nodes build.old.store.count y.now }
    ensures { Did build.old build.new result (Inside (length x.now) x.now y.now) }
{
    let mut c = 1;
    for (p, q) in x.iter().zip(y) {
        c = inside_half(build, DataNode(*p), DataNode(*q), c);
    }
    c
}

// The word of a read, into a word: the look, the word that its port holds, or both, as the enable says.
pub fn read_word(
    build: &mut Builder,
    entries: Entries,
    c: Pair<ControlNode>,
    address: &[u32],
    held: &[u32],
    word: &mut [u32],
)
    requires { Looks entries.sizes entries.count build.old.store.count entries.list.now address.now × (length word.old ≡ cell_words (shape entries.sizes 0)) × (c.h.0 < build.old.store.count) × (c.l.0 < build.old.store.count) × (length held.now ≡ data_words (shape entries.sizes 0)) × Nodes build.old.store.count held.now }
    ensures { WordDid build.old build.new word.new (Read (shape entries.entry.sizes entries.entry.count) entries.entry.list.now held.now c.h.0 c.l.0 address.now) }
{
    look(build, entries, address, word);
    let unknown = build.and(c.h.0, c.l.0);
    merging::hold(build, unknown, c.h, held, word);
}
