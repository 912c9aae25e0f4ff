// A store in which conditions are built: the operations are methods on it.
ghost use Rattle.std.specs.Prelude.{◌≡◌, ◌<◌};
ghost use Rattle.operations.specs.Ite.{plain_of};
ghost use Rattle.conditions.specs.Table.{recall_of, known_of, remember_of};
ghost use Rattle.conditions.specs.Contract.{Sound};

use super::{Diagrams, Store, Table};

// The rules of Ite that build nothing, in their order: the answer, or none where it goes by the parts.
#[tactic(auto, unfolding(operations::specs::Ite::plain_of))]
fn settle(full: bool, f: u32, g: u32, h: u32) -> Option<u32>
    ensures { result ≡ plain_of full f g h }
{
    match (f, g, h) {
        _ if full => Some(0),
        (1, ..) => Some(g),
        (0, ..) => Some(h),
        _ if g == h => Some(g),
        (_, 1, 0) => Some(f),
        _ => None,
    }
}

// What the table has for three nodes.
#[tactic(auto, unfolding(crate::specs::Table::recall_of))]
fn recall(table: &Table, f: u32, g: u32, h: u32) -> Option<u32>
    requires { (f < 16384) × (g < 16384) × (h < 16384) }
    ensures { result ≡ recall_of table.now f g h }
{
    let e = table[diagrams::slot(f, g, h)];
    if e / 16384 == diagrams::key(f, g, h) {
        Some((e % 16384) as u32)
    } else {
        None
    }
}

// Puts an answer into the table.
fn remember(table: &mut Table, f: u32, g: u32, h: u32, r: u32)
    requires { (f < 16384) × (g < 16384) × (h < 16384) × (r < 16384) }
    ensures { table.new ≡ remember_of table.old f g h r }
{
    table[diagrams::slot(f, g, h)] = diagrams::key(f, g, h) * 16384 + u64::from(r);
}

// The node words, the computed table, and how far the store is filled.
#[derive(Drop)]
pub struct Builder<'a> {
    pub words: &'a mut [u32],
    pub table: &'a mut Table,
    pub store: Store,
    pub ghost sound: { Sound words.now table.now store },
}

impl<'a> Builder<'a> {
    ghost use Rattle.std.specs.Prelude.{false};
    ghost use Rattle.nodes.specs.Words.{var_at};
    ghost use Rattle.operations.specs.Make.{Make, Variable};
    ghost use Rattle.operations.specs.Ite.{Ite, Not, And, Or};
    ghost use Rattle.operations.specs.Any.{Any};
    ghost use Rattle.conditions.specs.Table.{Known};
    ghost use Rattle.conditions.specs.Builder.{Did};

    // The nodes so far, to look at.
    pub fn view(&self) -> Diagrams<'_>
        ensures { (result.words.now ≡ self.now.words.now) × (result.count ≡ self.now.store.count) }
    {
        Diagrams {
            words: self.words,
            count: self.store.count,
        }
    }

    // The node with these three words: the one child if both are the same, else the lowest such node, else a new one.
    fn make(&mut self, v: u32, lo: u32, hi: u32) -> u32
        requires { (v < 64) × (lo < self.old.store.count) × (hi < self.old.store.count) × (v < var_at self.old.words.now lo) × (v < var_at self.old.words.now hi) }
        ensures { Did self.old self.new result (Make v lo hi) }
    {
        if self.store.full {
            return 0;
        }
        if lo == hi {
            return lo;
        }
        let count = self.store.count;
        let words = &mut *self.words;
        let found = searching::search(words, count, v, lo, hi).found;
        match found {
            Some(n) => n,
            None if count < nodes::capacity(words.len()) => {
                nodes::store_node(words, count, v, lo, hi);
                self.store.count += 1;
                count
            }
            None => {
                self.store.full = true;
                0
            }
        }
    }

    // The same, where g or h may be that node: then nothing is searched.
    fn make_near(&mut self, v: u32, lo: u32, hi: u32, g: u32, h: u32) -> u32
        requires { (v < 64) × (lo < self.old.store.count) × (hi < self.old.store.count) × (v < var_at self.old.words.now lo) × (v < var_at self.old.words.now hi) × (g < self.old.store.count) × (h < self.old.store.count) }
        ensures { Did self.old self.new result (Make v lo hi) }
    {
        if self.store.full {
            return 0;
        }
        let words = &mut *self.words;
        if nodes::has_words(words, v, lo, hi, g) {
            return g;
        }
        if nodes::has_words(words, v, lo, hi, h) {
            return h;
        }
        self.make(v, lo, hi)
    }

    // Ite's answer where a rule or the table has it.
    #[tactic(auto, unfolding(crate::specs::Table::known_of))]
    fn known(&self, f: u32, g: u32, h: u32) -> Option<u32>
        requires { (f < self.now.store.count) × (g < self.now.store.count) × (h < self.now.store.count) }
        ensures { result ≡ known_of self.now.table.now self.now.store.full f g h }
    {
        settle(self.store.full, f, g, h).or_else(|| recall(self.table, f, g, h))
    }

    // If f then g else h.
    pub fn ite(&mut self, f: u32, g: u32, h: u32) -> u32
        requires { (f < self.old.store.count) × (g < self.old.store.count) × (h < self.old.store.count) }
        ensures { Did self.old self.new result (Ite f g h) }
    {
        if let Some(n) = self.known(f, g, h) {
            return n;
        }
        let p = diagrams::divide(self.view(), f, g, h);
        let x = self.ite(p.f0, p.g0, p.h0);
        let y = self.ite(p.f1, p.g1, p.h1);
        let z = self.make_near(p.v, x, y, g, h);
        remember(self.table, f, g, h, z);
        z
    }

    pub fn not(&mut self, f: u32) -> u32
        requires { f < self.old.store.count }
        ensures { Did self.old self.new result (Not f) }
    {
        self.ite(f, 0, 1)
    }

    pub fn and(&mut self, f: u32, g: u32) -> u32
        requires { (f < self.old.store.count) × (g < self.old.store.count) }
        ensures { Did self.old self.new result (And f g) }
    {
        self.ite(f, g, 0)
    }

    pub fn or(&mut self, f: u32, g: u32) -> u32
        requires { (f < self.old.store.count) × (g < self.old.store.count) }
        ensures { Did self.old self.new result (Or f g) }
    {
        self.ite(f, 1, g)
    }

    // That some setting of the index variables makes f true: f itself, unless it is on one of them.
    pub fn any(&mut self, f: u32) -> u32
        requires { f < self.old.store.count }
        ensures { Did self.old self.new result (Any f) }
    {
        if self.store.full {
            return 0;
        }
        let d = self.view();
        if d.top(f) >= 8 {
            return f;
        }
        let lo = d.low(f);
        let hi = d.high(f);
        let x = self.any(lo);
        let y = self.any(hi);
        self.or(x, y)
    }

    // The node of a variable.
    pub fn variable(&mut self, v: u32) -> u32
        requires { v < 64 }
        ensures { Did self.old self.new result (Variable v) }
    {
        self.make(v, 0, 1)
    }
}
