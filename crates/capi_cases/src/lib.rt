// Asserts and checks by a written formula, and the run of a case, for C: the record is six words, and every function returns 0 for accepted or the row's number.
#![tactic(auto)]

ghost use Rattle.std.specs.Prelude.{◌≡◌};
ghost use Rattle.formula_calls.specs.Call.{asserting, checking};
ghost use Rattle.formula_words.specs.Contract.{left_formula, formula_called};
ghost use Rattle.capi_cases.specs.Contract.{left_case, cased};

use record_words::RecordWords;

// Asserts by a written formula.
pub fn md_assert_formula(
    record: &mut RecordWords,
    nodes: &mut [u32],
    list: &mut [u32],
    text: &[u8],
    table: &[u32],
    answer: &mut [u32],
    listed: &mut u64,
    made: &mut u64,
    place: &mut u64,
) -> u32
    ensures { left_formula result «record».new nodes.new list.new answer.new listed.new made.new place.new ≡ formula_called asserting text.now table.now «record».old nodes.old list.old answer.old listed.old made.old place.old }
{
    formula_words::assert_formula(
        record, nodes, list, text, table, answer, listed, made, place,
    )
}

// Checks by one.
pub fn md_check_formula(
    record: &mut RecordWords,
    nodes: &mut [u32],
    list: &[u32],
    text: &[u8],
    table: &[u32],
    answer: &mut [u32],
    listed: &mut u64,
    made: &mut u64,
    place: &mut u64,
) -> u32
    ensures { left_formula result «record».new nodes.new list.now answer.new listed.new made.new place.new ≡ formula_called checking text.now table.now «record».old nodes.old list.now answer.old listed.old made.old place.old }
{
    formula_words::check_formula(
        record, nodes, list, text, table, answer, listed, made, place,
    )
}

// A case file: count is the text length, or K where the case is refused.
pub fn md_case(
    case: &[u8],
    nodes: &mut [u32],
    list: &mut [u32],
    text: &mut [u8],
    record: &mut RecordWords,
    count: &mut u64,
) -> u32
    ensures { left_case result nodes.new list.new text.new «record».new count.new ≡ cased case.now nodes.old list.old text.old «record».old }
{
    match casefile::run_case(case, nodes, list, text) {
        Ok(done) => {
            record_words::put_record(record, done.memory);
            *count = done.length as u64;
            0
        }
        Err(refused) => {
            *count = u64::from(refused.after);
            refused.refusal.number()
        }
    }
}
