// Write.
#![tactic(auto)]

ghost use Rattle.std.specs.Prelude.{◌≡◌, false, ◌*◌, ◌≤◌, length};
ghost use Rattle.conditions.specs.Contract.{Sound};
ghost use Rattle.model.specs.Record.{address_words, data_words};
ghost use Rattle.model.specs.Rows.{first_row, write_rows};
ghost use Rattle.model.specs.Step.{begin, write, is_idle};
ghost use Rattle.model.specs.Frames.{Valid};
ghost use Rattle.rows.specs.Contract.{state_of, Answers, AnswersOn};
ghost use Rattle.write_access.specs.Contract.{write_answer};

use building::{ControlNode, Pair};
use conditions::{Builder, Table};
use model::Fields;
use refusals::Refusal;

// A write that no row refuses and that is not idle: its conditions, rows 9 and 8, and its entry, whose place it answers.
fn enter(
    r: &mut Fields,
    words: &mut [u32],
    list: &mut [u32],
    table: &mut Table,
    enable: &[u32],
    address: &[u32],
    data: &[u32],
) -> Result<Option<u32>, Refusal>
    requires { Sound words.old table.old (begin r.old) × (0 ≡ first_row (write_rows r.old words.old list.old enable.now address.now «data».now)) × (is_idle enable.now ≡ false) }
    ensures { AnswersOn (write enable.now address.now «data».now) (state_of r.old words.old list.old) (state_of r.new words.new list.new) (write_answer result) table.new }
{
    let c = Pair {
        h: ControlNode(enable[0]),
        l: ControlNode(enable[1]),
    };
    let mut build = Builder {
        words,
        table,
        store: rows::begin(*r),
    };
    let m = building::write_marks(&mut build, r.sizes.n as usize, c, address);
    let s = build.store;
    rows::clear_where(words, r.count, s.full, Refusal::StoreFull)?;
    let short = !rows::has_space(*r, list, 1);
    rows::clear_where(words, r.count, short, Refusal::ListFull)?;
    rows::append_entry(*r, list, m, address, data);
    let place = r.entries;
    r.count = s.count;
    r.entries = place + 1;
    Ok(Some(place))
}

// A write to a valid memory: rows 5 and 6; then it is idle, or entered. It answers its entry's place, or none where it is idle.
// Words and table one by one: a refusal after building clears nodes that the table may remember, which no Builder holds.
pub fn write_on(
    r: &mut Fields,
    words: &mut [u32],
    list: &mut [u32],
    table: &mut Table,
    enable: &[u32],
    address: &[u32],
    data: &[u32],
) -> Result<Option<u32>, Refusal>
    requires { Valid (state_of r.old words.old list.old) × Sound words.old table.old (begin r.old) × (length enable.now ≡ 2) × (length address.now ≡ address_words r.old) × (length «data».now ≡ data_words r.old) }
    ensures { AnswersOn (write enable.now address.now «data».now) (state_of r.old words.old list.old) (state_of r.new words.new list.new) (write_answer result) table.new }
{
    rows::argument_row(*r, words, enable, 1, address, data, r.sizes.w as usize)?;
    if ControlNode(enable[0]).0 == 0 {
        return Ok(None);
    }
    enter(r, words, list, table, enable, address, data)
}

// Write(c, a, d). An idle write makes no table.
pub fn write(
    r: &mut Fields,
    words: &mut [u32],
    list: &mut [u32],
    enable: &[u32],
    address: &[u32],
    data: &[u32],
) -> Result<Option<u32>, Refusal>
    ensures { Answers (write enable.now address.now «data».now) (state_of r.old words.old list.old) (state_of r.new words.new list.new) (write_answer result) }
{
    rows::memory_row(*r, words, list)?;
    let address_size = ranges::address_words(r.sizes);
    let data_size = ranges::data_words(r.sizes);
    if !((enable.len() == 2) & (address.len() == address_size) & (data.len() == data_size)) {
        return Err(Refusal::Lengths);
    }
    rows::argument_row(*r, words, enable, 1, address, data, r.sizes.w as usize)?;
    if ControlNode(enable[0]).0 == 0 {
        return Ok(None);
    }
    let mut table: Table = [0; 32768];
    enter(r, words, list, &mut table, enable, address, data)
}
