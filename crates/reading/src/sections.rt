// The sections before the accesses.
ghost use Rattle.std.specs.Prelude.{◌≡◌, ◌+◌, ◌*◌, ◌≤◌, length, get_or};
ghost use Rattle.nodes.specs.Words.{with_node};
ghost use Rattle.nodes.specs.Standard.{counted};
ghost use Rattle.refusals.specs.Refusal.{row_of};
ghost use Rattle.model.specs.Rows.{first_row};
ghost use Rattle.format.specs.Bytes.{number_at};
ghost use Rattle.format.specs.Sections.{with_nodes, early_rows, sections};
ghost use Rattle.reading.specs.Contract.{sections_of};

use super::Loaded;
use super::bytes::number_at;
use refusals::Refusal;
use semantics::Sizes;

// n and w, a byte each.
fn sizes_of(bytes: &[u8]) -> Sizes
    requires { 2 ≤ length bytes.now }
    ensures { (result.n ≡ get_or bytes.now 0 0) × (result.w ≡ get_or bytes.now 1 0) }
{
    Sizes {
        n: u32::from(bytes[0]),
        w: u32::from(bytes[1]),
    }
}

// Stores the node at a place of the file: its variable, low and high child.
fn store_from(bytes: &[u8], from: usize, node: u32, words: &mut [u32])
    requires { (from + 5 ≤ length bytes.now) × (node * 3 + 3 ≤ length words.old) }
    ensures { words.new ≡ with_node words.old node (get_or bytes.now from 0) (number_at bytes.now (from + 1)) (number_at bytes.now (from + 3)) }
{
    let v = u32::from(bytes[from]);
    let lo = number_at(bytes, from + 1);
    let hi = number_at(bytes, from + 3);
    nodes::store_node(words, node, v, lo, hi);
}

// Stores the k nodes from a place of the file on, from node 2 up.
fn store_nodes(bytes: &[u8], at: usize, k: u32, words: &mut [u32])
    requires { (at + 5 * k ≤ length bytes.now) × (k * 3 + 6 ≤ length words.old) × (k ≤ 65535) }
    ensures { words.new ≡ with_nodes bytes.now at k words.old }
{
    for i in 0..k {
        store_from(bytes, at + 5 * (i as usize), 2 + i, words);
    }
}

// The part of row 2 that is tested before the nodes are stored.
fn has_room(words: &[u32], k: u32) -> bool
    requires { k ≤ 65535 }
    ensures { result ≡ counted words.now (k + 2) }
{
    (6 <= words.len()) & (k + 2 <= nodes::capacity(words.len()))
}

// The first row that refuses the sections before the nodes are stored.
fn early_row(bytes: &[u8], words: &[u32]) -> Result<(), Refusal>
    ensures { row_of result ≡ first_row (early_rows bytes.now words.now) }
{
    if bytes.len() < 2 {
        return Err(Refusal::EndsEarly);
    }
    if !ranges::in_range(sizes_of(bytes)) {
        return Err(Refusal::Sizes);
    }
    if bytes.len() < 4 {
        return Err(Refusal::EndsEarly);
    }
    let k = number_at(bytes, 2);
    if bytes.len() < 4 + 5 * (k as usize) {
        return Err(Refusal::EndsEarly);
    }
    if has_room(words, k) {
        Ok(())
    } else {
        Err(Refusal::Store)
    }
}

// Reads n, w, the nodes and the count of accesses, and stores the terminals and the nodes.
pub fn load_sections(bytes: &[u8], words: &mut [u32]) -> Result<Loaded, Refusal>
    ensures { (words.new, sections_of result) ≡ sections bytes.now words.old }
{
    early_row(bytes, words)?;
    let k = number_at(bytes, 2);
    nodes::store_terminals(words);
    store_nodes(bytes, 4, k, words);
    if !nodes::is_standard(words, k + 2) {
        return Err(Refusal::Store);
    }
    let end = 4 + 5 * (k as usize);
    if bytes.len() - end < 2 {
        return Err(Refusal::EndsEarly);
    }
    Ok(Loaded {
        sizes: sizes_of(bytes),
        count: k + 2,
        accesses: number_at(bytes, end),
        at: end + 2,
    })
}
