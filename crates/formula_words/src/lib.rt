// A written formula by the record as six words, and what it tells in three out-words.
#![tactic(auto)]

ghost use Rattle.std.specs.Prelude.{◌≡◌};
ghost use Rattle.formula_calls.specs.Call.{asserting, checking};
ghost use Rattle.formula_access.specs.Contract.{answer_of};
ghost use Rattle.formula_words.specs.Contract.{Told, tells, told, left_formula, formula_called};

use formula_record::FormulaRefusal;
use record_words::RecordWords;

// Asserts by a written formula.
pub fn assert_formula(
    record: &mut RecordWords,
    nodes: &mut [u32],
    list: &mut [u32],
    text: &[u8],
    table: &[u32],
    answer: &mut [u32],
    listed: &mut u64,
    made: &mut u64,
    place: &mut u64,
) -> u32
    ensures { left_formula result «record».new nodes.new list.new answer.new listed.new made.new place.new ≡ formula_called asserting text.now table.now «record».old nodes.old list.old answer.old listed.old made.old place.old }
{
    let r = record_words::record_of(record);
    let x = formula_record::assert_formula(r, nodes, list, text, table, answer);
    record_words::put_record(record, x.after);
    tell(x.answer, listed, made, place)
}

// Checks by one.
pub fn check_formula(
    record: &mut RecordWords,
    nodes: &mut [u32],
    list: &[u32],
    text: &[u8],
    table: &[u32],
    answer: &mut [u32],
    listed: &mut u64,
    made: &mut u64,
    place: &mut u64,
) -> u32
    ensures { left_formula result «record».new nodes.new list.now answer.new listed.new made.new place.new ≡ formula_called checking text.now table.now «record».old nodes.old list.now answer.old listed.old made.old place.old }
{
    let r = record_words::record_of(record);
    let x = formula_record::check_formula(r, nodes, list, text, table, answer);
    record_words::put_record(record, x.after);
    tell(x.answer, listed, made, place)
}

// The number of an answer, and its out-words: those that it does not tell stay.
fn tell(x: Result<usize, FormulaRefusal>, listed: &mut u64, made: &mut u64, place: &mut u64) -> u32
    ensures { told result listed.new made.new place.new ≡ tells (answer_of x) listed.old made.old place.old }
{
    match x {
        Ok(n) => {
            *listed = n as u64;
            *made = n as u64;
            0
        }
        Err(
            FormulaRefusal::Stopped {
                refusal,
                listed: n,
                made: m,
            },
        ) => {
            *listed = n as u64;
            *made = m as u64;
            refusal.number()
        }
        Err(FormulaRefusal::Refused(refusal)) => refusal.number(),
        Err(FormulaRefusal::Faulty { refusal, place: p }) => {
            *place = p as u64;
            refusal.number()
        }
    }
}
