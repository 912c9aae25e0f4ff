// The record as the calls work on it: the rows of the table that tests before building meet, the list, and refusals after building.
#![tactic(auto)]

ghost use Rattle.std.specs.Prelude.{◌≡◌, Bool, [], ◌∷◌, ℕ, ◌*◌, ◌≤◌, length};
ghost use Rattle.conditions.specs.Stores.{Standard};
ghost use Rattle.model.specs.Record.{address_words, cell_words, list_capacity, appended};
ghost use Rattle.model.specs.Rows.{first_row, row1, row2, row3, space_for, memory_rows, check_rows};
ghost use Rattle.model.specs.Step.{begin};
ghost use Rattle.model.specs.Frames.{Valid};
ghost use Rattle.refusals.specs.Refusal.{row_of};
ghost use Rattle.rows.specs.Contract.{state_of, argument_rows, Cleared, EntryFits, Over};

mod append;
mod slices;

pub use append::copy;
use building::{ControlNode, Marks};
use conditions::{Diagrams, Store};
use model::Fields;
use refusals::Refusal;
pub use slices::{all_users, legal_pairs, none_unknown};

// A call that is refused after it has built, by 9 or 8, where it is: the words past the count are then cleared.
pub fn clear_where(words: &mut [u32], count: u32, refused: bool, by: Refusal) -> Result<(), Refusal>
    requires { count * 3 ≤ length words.old }
    ensures { Cleared words.old count refused by words.new result }
{
    if refused {
        conditions::clear(words, count);
        return Err(by);
    }
    Ok(())
}

// The store as a call finds it.
pub fn begin(r: Fields) -> Store
    ensures { result ≡ begin r }
{
    Store {
        count: r.count,
        full: false,
    }
}

// How many entries there is space for.
pub fn list_capacity(r: Fields, list: &[u32]) -> u32
    ensures { result ≡ list_capacity r list.now }
{
    let k = list.len() / ranges::entry_words(r.sizes);
    k.min(4096) as u32
}

// Whether there is space for k entries more.
pub fn has_space(r: Fields, list: &[u32], k: u32) -> bool
    ensures { result ≡ space_for r [] k list.now }
{
    let capacity = list_capacity(r, list) as usize;
    (r.entries as usize) + (k as usize) <= capacity
}

// The list's next entry.
pub fn append_entry(r: Fields, list: &mut [u32], m: Marks, address: &[u32], data: &[u32])
    requires { EntryFits r list.old address.now «data».now }
    ensures { list.new ≡ appended r list.old m.hard m.soft address.now «data».now }
{
    let at = (r.entries as usize) * ranges::entry_words(r.sizes);
    append::append(list, at, m.hard, m.soft, address, data);
}

// Rows 1 and 2 of a call, and the diagrams that its words then are.
pub fn store_row(r: Fields, words: &[u32]) -> Result<Diagrams<'_>, Refusal>
    ensures { (row_of result ≡ first_row ((1, row1 r words.now) ∷ (2, row2 r words.now) ∷ [])) × Over words.now r.count result }
{
    if !ranges::in_range(r.sizes) {
        return Err(Refusal::Sizes);
    }
    Diagrams::read(words, r.count).ok_or(Refusal::Store)
}

// Row 3.
fn has_valid_list(r: Fields, d: Diagrams, list: &[u32]) -> bool
    requires { (r.sizes.n ≤ 8) × (r.sizes.w ≤ 16) × (d.count ≡ r.count) }
    ensures { result ≡ row3 r d.entry.words.now list.now }
{
    if list_capacity(r, list) < r.entries {
        return false;
    }
    let k = (r.entries as usize) * ranges::entry_words(r.sizes);
    let x = slices::all_users(d, &list[..k]);
    let y = conditions::is_user(d, r.asserted);
    let z = conditions::is_user(d, r.checked);
    x & y & z
}

// Rows 1 to 3 of an access.
pub fn memory_row(r: Fields, words: &[u32], list: &[u32]) -> Result<(), Refusal>
    ensures { row_of result ≡ first_row (memory_rows r words.now list.now []) }
{
    let d = store_row(r, words)?;
    if !has_valid_list(r, d, list) {
        return Err(Refusal::Contents);
    }
    Ok(())
}

// Rows 5 and 6 of the arguments of an access: words of control with k pairs, an address, and data of m pairs.
pub fn argument_row(
    r: Fields,
    words: &[u32],
    control: &[u32],
    k: usize,
    address: &[u32],
    data: &[u32],
    m: usize,
) -> Result<(), Refusal>
    requires { Standard words.now r.count × (r.sizes.n ≤ 8) × (length address.now ≡ address_words r) × (2 * k ≤ length control.now) × (k ≤ 16) × (2 * m ≤ length «data».now) × (m ≤ 16) }
    ensures { row_of result ≡ first_row (argument_rows r words.now control.now k address.now «data».now m) }
{
    let d = Diagrams {
        words,
        count: r.count,
    };
    let x = slices::all_users(d, control);
    let y = slices::all_users(d, address);
    let z = slices::all_users(d, data);
    if !(x & y & z) {
        return Err(Refusal::Nodes);
    }
    let x = slices::legal_pairs(d, control, k);
    let y = slices::legal_pairs(d, address, r.sizes.n as usize);
    let z = slices::legal_pairs(d, data, m);
    if !(x & y & z) {
        return Err(Refusal::Neither);
    }
    Ok(())
}

// The rows of a check of a valid memory; of an assert those up to 6.
pub fn check_row(
    r: Fields,
    words: &[u32],
    list: &[u32],
    b: ControlNode,
    address: &[u32],
    data: &[u32],
) -> Result<(), Refusal>
    requires { Valid (state_of r words.now list.now) × (length address.now ≡ address_words r) × (length «data».now ≡ cell_words r) }
    ensures { row_of result ≡ first_row (check_rows r words.now list.now b.0 address.now «data».now) }
{
    let control: [u32; 1] = [b.0];
    argument_row(r, words, &control, 0, address, data, r.sizes.w as usize)
}
