// The test of standard form. That no node's words are those of an earlier one is tried by a certificate first, which takes a few steps a node; where that fails, every two nodes are compared.
ghost use Rattle.std.specs.Prelude.{◌≡◌, true, ◌+◌, ◌*◌, ◌-◌, ◌%◌, ◌<◌, ◌≤◌, length};
ghost use Rattle.nodes.specs.Search.{every};
ghost use Rattle.nodes.specs.Standard.{counted, terminals, child_fits, shaped, lowest, first, is_standard};
ghost use Rattle.nodes.specs.Certificate.{number_of, walk, found};

use super::{capacity, has_words, high, low, top};

// Whether there are 6 words or more, and the count is from 2 to the capacity.
fn is_counted(words: &[u32], count: u32) -> bool
    ensures { result ≡ counted words.now count }
{
    (6 <= words.len()) & (2 <= count) & (count <= capacity(words.len()))
}

// Whether nodes 0 and 1 are the terminals.
fn has_terminals(words: &[u32]) -> bool
    requires { 6 ≤ length words.now }
    ensures { result ≡ terminals words.now }
{
    has_words(words, 64, 0, 0, 0) & has_words(words, 64, 1, 1, 1)
}

// Whether a node's variable is less than this child's, and the child less than the node.
fn child_fits(words: &[u32], node: u32, child: u32) -> bool
    requires { node * 3 + 2 < length words.now }
    ensures { result ≡ child_fits words.now node child }
{
    if child >= node {
        return false;
    }
    top(words, node) < top(words, child)
}

// Whether a node from 2 up has the variable and the children that standard form asks for.
fn is_shaped(words: &[u32], node: u32) -> bool
    requires { node * 3 + 2 < length words.now }
    ensures { result ≡ shaped words.now node }
{
    let lo = low(words, node);
    let hi = high(words, node);
    (top(words, node) <= 63)
        & child_fits(words, node, lo)
        & child_fits(words, node, hi)
        & (lo != hi)
}

// Whether each node from 2 up has.
fn all_shaped(words: &[u32], count: u32) -> bool
    requires { count * 3 ≤ length words.now }
    ensures { result ≡ every (shaped words.now) 2 (count - 2) }
{
    (2..count).all(|n| is_shaped(words, n))
}

// The lowest node below the count with these words, or the count.
fn find_lowest(words: &[u32], count: u32, v: u32, lo: u32, hi: u32) -> u32
    requires { count * 3 ≤ length words.now }
    ensures { result ≡ lowest words.now count v lo hi }
{
    (0..count)
        .find(|n| has_words(words, v, lo, hi, *n))
        .unwrap_or(count)
}

// Whether no earlier node has the words of this one.
fn is_first(words: &[u32], node: u32) -> bool
    requires { node * 3 + 2 < length words.now }
    ensures { result ≡ first words.now node }
{
    let v = top(words, node);
    let lo = low(words, node);
    let hi = high(words, node);
    find_lowest(words, node, v, lo, hi) == node
}

// Whether that is so of each node from 2 up: the plain test, which compares every two nodes.
fn all_first(words: &[u32], count: u32) -> bool
    requires { count * 3 ≤ length words.now }
    ensures { result ≡ every (first words.now) 2 (count - 2) }
{
    (2..count).all(|n| is_first(words, n))
}

// The number of a node's words.
fn number(words: &[u32], node: u32) -> u64
    requires { node * 3 + 2 < length words.now }
    ensures { result ≡ number_of words.now node }
{
    let v = top(words, node) as u64;
    let lo = low(words, node) as u64;
    let hi = high(words, node) as u64;
    (v * 26505 + lo) * 26505 + hi
}

// The chain of the nodes with this number.
fn chain(x: u64) -> usize
    ensures { result ≡ x % 16381 }
{
    (x % 16381) as usize
}

// Puts each node at the beginning of its chain.
fn chain_nodes(words: &[u32], count: u32, head: &mut [u32; 16384], next: &mut [u32; 16384])
    requires { (count * 3 ≤ length words.now) × (count ≤ 16384) }
{
    for n in 0..count {
        let k = chain(number(words, n));
        next[n as usize] = head[k];
        head[k] = n;
    }
}

// The first node with the number x among 32 nodes of a chain, or the count.
fn find_in_chain(words: &[u32], next: &[u32; 16384], count: u32, x: u64, from: u32) -> u32
    requires { (count * 3 ≤ length words.now) × (count ≤ 16384) }
    ensures { result ≡ walk words.now next.now count x 32 from }
{
    let mut n = from;
    for _ in 0..32u32 {
        if n >= count {
            return count;
        }
        if number(words, n) == x {
            return n;
        }
        n = next[n as usize];
    }
    count
}

// Whether a node is found by its number.
fn is_found(words: &[u32], head: &[u32; 16384], next: &[u32; 16384], count: u32, node: u32) -> bool
    requires { (count * 3 ≤ length words.now) × (count ≤ 16384) × (node < count) }
    ensures { result ≡ found words.now head.now next.now count node }
{
    let x = number(words, node);
    let from = head[chain(x)];
    find_in_chain(words, next, count, x, from) == node
}

// Whether each node is: then no two have the same words, whatever stands in the chains.
fn all_found(words: &[u32], head: &[u32; 16384], next: &[u32; 16384], count: u32) -> bool
    requires { (count * 3 ≤ length words.now) × (count ≤ 16384) }
    ensures { result ≡ every (found words.now head.now next.now count) 0 count }
{
    (0..count).all(|n| is_found(words, head, next, count, n))
}

// Whether the certificate shows that each node from 2 up is the first with its words. For few nodes the plain test is quicker.
fn is_certified(words: &[u32], count: u32) -> bool
    requires { (count * 3 ≤ length words.now) × (count ≤ 16384) }
    ensures { result ≡ true → every (first words.now) 2 (count - 2) ≡ true }
{
    if count < 64 {
        return false;
    }
    let mut head = [0u32; 16384];
    let mut next = [0u32; 16384];
    chain_nodes(words, count, &mut head, &mut next);
    all_found(words, &head, &next, count)
}

// Whether each node from 2 up is the first with its words.
fn all_differ(words: &[u32], count: u32) -> bool
    requires { (count * 3 ≤ length words.now) × (count ≤ 16384) }
    ensures { result ≡ every (first words.now) 2 (count - 2) }
{
    if is_certified(words, count) {
        return true;
    }
    all_first(words, count)
}

// Row 2, as its negation: whether the words and the count are a store in standard form.
pub fn is_standard(words: &[u32], count: u32) -> bool
    ensures { result ≡ is_standard words.now count }
{
    if !is_counted(words, count) {
        return false;
    }
    if !has_terminals(words) {
        return false;
    }
    if !all_shaped(words, count) {
        return false;
    }
    all_differ(words, count)
}
