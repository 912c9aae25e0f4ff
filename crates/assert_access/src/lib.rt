// Assert.
#![tactic(auto)]

ghost use Rattle.std.specs.Prelude.{◌≡◌, length};
ghost use Rattle.conditions.specs.Contract.{Sound};
ghost use Rattle.model.specs.Record.{address_words, cell_words};
ghost use Rattle.model.specs.Rows.{first_row, assert_rows};
ghost use Rattle.model.specs.Step.{begin, assert};
ghost use Rattle.model.specs.Frames.{Valid};
ghost use Rattle.refusals.specs.Refusal.{row_of};
ghost use Rattle.rows.specs.Contract.{state_of, Answers, AnswersOn};
ghost use Rattle.assert_access.specs.Contract.{assert_answer, BeforeEntry, AfterEntry};

use building::ControlNode;
use comparisons::AssertBuilt;
use conditions::{Builder, Diagrams, Store, Table};
use model::{Fields, Pair};
use refusals::Refusal;

// What an assert that is not refused comes to.
#[derive(Clone, Copy)]
pub enum Asserted {
    Entered,
    Kept,
}

// The rows of an assert to a valid memory.
fn assert_row(
    r: Fields,
    words: &[u32],
    list: &[u32],
    b: ControlNode,
    address: &[u32],
    data: &[u32],
) -> Result<(), Refusal>
    requires { Valid (state_of r words.now list.now) × (length address.now ≡ address_words r) × (length «data».now ≡ cell_words r) }
    ensures { row_of result ≡ first_row (assert_rows r words.now list.now b.0 address.now «data».now) }
{
    rows::check_row(r, words, list, b, address, data)?;
    let d = Diagrams {
        words,
        count: r.count,
    };
    if !rows::none_unknown(d, b, address, r.sizes.n as usize) {
        return Err(Refusal::UnknownAddress);
    }
    Ok(())
}

// An assert that has built its conditions in the store: kept, or entered by its Write.
fn enter(
    r: &mut Fields,
    words: &mut [u32],
    list: &mut [u32],
    table: &mut Table,
    store: Store,
    b: ControlNode,
    address: &[u32],
    data: &[u32],
    q: AssertBuilt,
) -> Result<Asserted, Refusal>
    requires { BeforeEntry r.old words.old table.old store b.0 address.now «data».now q }
    ensures { AfterEntry r.old words.old list.old store b.0 address.now «data».now q r.new words.new list.new (assert_answer result) table.new }
{
    if q.keep == 1 {
        r.count = store.count;
        r.asserted = q.condition;
        return Ok(Asserted::Kept);
    }
    let space = rows::has_space(*r, list, 1);
    rows::clear_where(words, r.count, !space, Refusal::ListFull)?;
    let c = Pair {
        h: b,
        l: ControlNode(q.not_b),
    };
    let mut build = Builder {
        words,
        table,
        store,
    };
    let m = building::write_marks(&mut build, r.sizes.n as usize, c, address);
    let store = build.store;
    rows::clear_where(words, r.count, store.full, Refusal::StoreFull)?;
    rows::append_entry(*r, list, m, address, data);
    r.count = store.count;
    r.entries += 1;
    r.asserted = q.condition;
    Ok(Asserted::Entered)
}

// An assert to a valid memory: rows 5 to 9, the assert condition, and the entry where it is not kept.
// Words and table one by one: a refusal after building clears words that a Builder's field holds to be nodes.
pub fn assert_on(
    r: &mut Fields,
    words: &mut [u32],
    list: &mut [u32],
    table: &mut Table,
    b: ControlNode,
    address: &[u32],
    data: &[u32],
) -> Result<Asserted, Refusal>
    requires { Valid (state_of r.old words.old list.old) × Sound words.old table.old (begin r.old) × (length address.now ≡ address_words r.old) × (length «data».now ≡ cell_words r.old) }
    ensures { AnswersOn (assert b.0 address.now «data».now) (state_of r.old words.old list.old) (state_of r.new words.new list.new) (assert_answer result) table.new }
{
    assert_row(*r, words, list, b, address, data)?;
    // No heap: a word of the largest size, of which this record's cells have the first words.
    let mut word: [u32; 32] = [0; 32];
    let size = ranges::cell_words(r.sizes);
    let mut build = Builder {
        words,
        table,
        store: rows::begin(*r),
    };
    let q = comparisons::assert_builds(*r, list, &mut build, b, address, data, &mut word[..size]);
    let store = build.store;
    rows::clear_where(words, r.count, store.full, Refusal::StoreFull)?;
    enter(r, words, list, table, store, b, address, data, q)
}

// Assert(b, a, d).
pub fn assert(
    r: &mut Fields,
    words: &mut [u32],
    list: &mut [u32],
    b: ControlNode,
    address: &[u32],
    data: &[u32],
) -> Result<Asserted, Refusal>
    ensures { Answers (assert b.0 address.now «data».now) (state_of r.old words.old list.old) (state_of r.new words.new list.new) (assert_answer result) }
{
    rows::memory_row(*r, words, list)?;
    let address_size = ranges::address_words(r.sizes);
    let data_size = ranges::cell_words(r.sizes);
    if address.len() != address_size || data.len() != data_size {
        return Err(Refusal::Lengths);
    }
    let mut table: Table = [0; 32768];
    assert_on(r, words, list, &mut table, b, address, data)
}
