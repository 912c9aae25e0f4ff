// Asserts and checks by a written formula, on the record.
#![tactic(auto)]

ghost use Rattle.formula_calls.specs.Call.{asserting, checking};
ghost use Rattle.formula_record.specs.Contract.{FormulaAnswersAnyPorts};

pub use formula_access::FormulaRefusal;
use memory::Record;

// The record after a formula, and its answer.
#[derive(Clone, Copy)]
pub struct FormulaResult {
    pub after: Record,
    pub answer: Result<usize, FormulaRefusal>,
}

// Asserts by a written formula, over a table of predicates: how many they are.
pub fn assert_formula(
    r: Record,
    words: &mut [u32],
    list: &mut [u32],
    text: &[u8],
    predicates: &[u32],
    answer: &mut [u32],
) -> FormulaResult
    ensures { FormulaAnswersAnyPorts asserting text.now predicates.now answer.old r words.old list.old result.after words.new list.new answer.new result.answer }
{
    let mut fields = r.fields;
    let told = formula_access::assert_formula(&mut fields, words, list, text, predicates, answer);
    FormulaResult {
        after: Record { fields },
        answer: told,
    }
}

// Checks by one.
pub fn check_formula(
    r: Record,
    words: &mut [u32],
    list: &[u32],
    text: &[u8],
    predicates: &[u32],
    answer: &mut [u32],
) -> FormulaResult
    ensures { FormulaAnswersAnyPorts checking text.now predicates.now answer.old r words.old list.now result.after words.new list.now answer.new result.answer }
{
    let mut fields = r.fields;
    let told = formula_access::check_formula(&mut fields, words, list, text, predicates, answer);
    FormulaResult {
        after: Record { fields },
        answer: told,
    }
}
