// The node search of Make, from the larger child up. It passes over four nodes in a step, where none of them has the two children.
#![tactic(auto)]

ghost use Rattle.std.specs.Prelude.{◌≡◌, true, ◌+◌, ◌*◌, ◌<◌, ◌≤◌, max, length};
ghost use Rattle.search.specs.Search.{Search};
ghost use Rattle.searching.specs.Children.{pair_of, children_at, one_of_four, Passed};

use search::Searched;

// Two children as one number.
fn paired(low: u32, high: u32) -> u64
    ensures { result ≡ pair_of low high }
{
    u64::from(low) + u64::from(high) * 4294967296
}

// The children in the words from place k on, as one number: one comparison tells them from two others.
fn children(words: &[u32], k: usize) -> u64
    requires { k + 2 < length words.now }
    ensures { result ≡ children_at words.now k }
{
    paired(words[k + 1], words[k + 2])
}

// Whether one of the four nodes from this one on has these children.
fn one_of_four(words: &[u32], x: u64, node: u32) -> bool
    requires { node * 3 + 11 < length words.now }
    ensures { result ≡ one_of_four words.now x node }
{
    let k = (node as usize) * 3;
    [0, 3, 6, 9].iter().any(|d| children(words, k + *d) == x)
}

// Passes over nodes that do not have these children, by fours, up to four of which one has them, or to where fewer are left.
fn pass(words: &[u32], count: u32, x: u64, from: u32) -> u32
    requires { (count * 3 ≤ length words.now) × (count ≤ 16384) × (from ≤ count) }
    ensures { Passed words.now count x from result × (result + 3 < count → one_of_four words.now x result ≡ true) }
{
    // By index: as `chunks_exact(12).position(..)` over the rest of the words a search took a fifth more time (bench/WHY.md).
    let mut i = from;
    while i + 3 < count && !one_of_four(words, x, i) {
        i += 4;
    }
    i
}

// The first match above the larger child, and how many nodes were compared: the match's number, or with none the count less one, less the larger child's number.
pub fn search(words: &[u32], count: u32, v: u32, low: u32, high: u32) -> Searched
    requires { (count * 3 ≤ length words.now) × (count ≤ 16384) × (low < count) × (high < count) }
    ensures { result ≡ Search words.now count v low high }
{
    let larger = low.max(high);
    let x = paired(low, high);
    // By index: a node a step, as a `for` or `chunks_exact(3).position(..)` goes, a search took two thirds more time, or more (bench/WHY.md).
    let mut i = larger + 1;
    while i < count {
        if nodes::has_words(words, v, low, high, i) {
            return Searched {
                found: Some(i),
                compared: i - larger,
            };
        }
        i = pass(words, count, x, i + 1);
    }
    Searched {
        found: None,
        compared: count - 1 - larger,
    }
}
