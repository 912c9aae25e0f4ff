// Check.
#![tactic(auto)]

ghost use Rattle.std.specs.Prelude.{◌≡◌, length};
ghost use Rattle.conditions.specs.Contract.{Sound};
ghost use Rattle.model.specs.Record.{address_words, cell_words};
ghost use Rattle.model.specs.Step.{accepted, begin, check};
ghost use Rattle.model.specs.Frames.{Valid};
ghost use Rattle.rows.specs.Contract.{state_of, answer_by, Answers, AnswersOn};

use building::ControlNode;
use conditions::{Builder, Table};
use model::Fields;
use refusals::Refusal;

// A check of a valid memory: rows 5 to 9, and the check condition.
// Words and table one by one: a refusal after building clears words that a Builder's field holds to be nodes.
pub fn check_on(
    r: &mut Fields,
    words: &mut [u32],
    list: &[u32],
    table: &mut Table,
    b: ControlNode,
    address: &[u32],
    data: &[u32],
) -> Result<(), Refusal>
    requires { Valid (state_of r.old words.old list.now) × Sound words.old table.old (begin r.old) × (length address.now ≡ address_words r.old) × (length «data».now ≡ cell_words r.old) }
    ensures { AnswersOn (check b.0 address.now «data».now) (state_of r.old words.old list.now) (state_of r.new words.new list.now) (answer_by result (λ u. accepted)) table.new }
{
    rows::check_row(*r, words, list, b, address, data)?;
    // No heap: a word of the largest size, of which this record's cells have the first words.
    let mut word: [u32; 32] = [0; 32];
    let size = ranges::cell_words(r.sizes);
    let mut build = Builder {
        words,
        table,
        store: rows::begin(*r),
    };
    let checked = comparisons::check_builds(
        *r,
        list,
        &mut build,
        b,
        address,
        data,
        &mut word[..size],
    );
    let store = build.store;
    rows::clear_where(words, r.count, store.full, Refusal::StoreFull)?;
    r.count = store.count;
    r.checked = checked;
    Ok(())
}

// Check(b, a, d).
pub fn check(
    r: &mut Fields,
    words: &mut [u32],
    list: &[u32],
    b: ControlNode,
    address: &[u32],
    data: &[u32],
) -> Result<(), Refusal>
    ensures { Answers (check b.0 address.now «data».now) (state_of r.old words.old list.now) (state_of r.new words.new list.now) (answer_by result (λ u. accepted)) }
{
    rows::memory_row(*r, words, list)?;
    let address_size = ranges::address_words(r.sizes);
    let data_size = ranges::cell_words(r.sizes);
    if address.len() != address_size || data.len() != data_size {
        return Err(Refusal::Lengths);
    }
    let mut table: Table = [0; 32768];
    check_on(r, words, list, &mut table, b, address, data)
}
