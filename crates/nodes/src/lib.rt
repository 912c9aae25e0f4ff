// The words of decision diagrams: three words a node, in a lent slice. What stands in them, and what standard form asks of them.
#![tactic(auto)]

ghost use Rattle.std.specs.Prelude.{◌≡◌, ℕ, ◌+◌, ◌*◌, ◌<◌, ◌≤◌, min, ◌/◌, length};
ghost use Rattle.nodes.specs.Words.{var_at, low_at, high_at, has_words, with_node, with_terminals};
ghost use Rattle.nodes.specs.Clear.{clear_of};

mod diagrams;
mod standard;

pub use diagrams::Diagrams;
pub use standard::is_standard;

// The nodes that a slice of this many words holds.
pub fn capacity(words: usize) -> u32
    ensures { result ≡ min (words / 3) 16384 }
{
    (words / 3).min(16384) as u32
}

// A node's variable.
pub fn top(words: &[u32], node: u32) -> u32
    requires { node * 3 + 2 < length words.now }
    ensures { result ≡ var_at words.now node }
{
    let k = (node as usize) * 3;
    words[k]
}

// A node's low child.
pub fn low(words: &[u32], node: u32) -> u32
    requires { node * 3 + 2 < length words.now }
    ensures { result ≡ low_at words.now node }
{
    let k = (node as usize) * 3;
    words[k + 1]
}

// A node's high child.
pub fn high(words: &[u32], node: u32) -> u32
    requires { node * 3 + 2 < length words.now }
    ensures { result ≡ high_at words.now node }
{
    let k = (node as usize) * 3;
    words[k + 2]
}

// Whether a node has these three words. The children tell nodes apart sooner than the variable.
pub fn has_words(words: &[u32], v: u32, lo: u32, hi: u32, node: u32) -> bool
    requires { node * 3 + 2 < length words.now }
    ensures { result ≡ has_words words.now v lo hi node }
{
    if high(words, node) != hi {
        return false;
    }
    if low(words, node) != lo {
        return false;
    }
    top(words, node) == v
}

// Stores a node's three words at its number.
pub fn store_node(words: &mut [u32], node: u32, v: u32, lo: u32, hi: u32)
    requires { node * 3 + 2 < length words.old }
    ensures { words.new ≡ with_node words.old node v lo hi }
{
    let k = (node as usize) * 3;
    words[k] = v;
    words[k + 1] = lo;
    words[k + 2] = hi;
}

// Writes the two terminals.
pub fn store_terminals(words: &mut [u32])
    requires { 6 ≤ length words.old }
    ensures { words.new ≡ with_terminals words.old }
{
    store_node(words, 0, 64, 0, 0);
    store_node(words, 1, 64, 1, 1);
}

// Sets the words from the count to the capacity to 0.
pub fn clear(words: &mut [u32], count: u32)
    requires { count * 3 ≤ length words.old }
    ensures { words.new ≡ clear_of words.old count }
{
    let end = (capacity(words.len()) as usize) * 3;
    let from = end.min((count as usize) * 3);
    words[from..end].fill(0);
}
