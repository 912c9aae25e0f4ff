// Asserts and checks by a written formula.
#![tactic(auto)]

ghost use Rattle.std.specs.Prelude.{◌≡◌};
ghost use Rattle.formula_calls.specs.Call.{asserting, checking};
ghost use Rattle.formula_access.specs.Contract.{FormulaAnswers, unlisted_as};
ghost use Rattle.formula_access.specs.declared.FormulaRefusal.TheVariants as refusal;

use conditions::Table;
use making::{Access, Asserts, Checks};
use model::Fields;
use preparing::Unlisted;
use refusals::Refusal;

// Why not all accesses of a formula were made: one was refused, with how many are listed and were made before it; or the call itself was; or its text is at fault, at a place in it.
#[derive(Clone, Copy)]
pub enum FormulaRefusal {
    Stopped {
        refusal: Refusal,
        listed: usize,
        made: usize,
    },
    Refused(Refusal),
    Faulty {
        refusal: Refusal,
        place: usize,
    },
}

impl From<Refusal> for FormulaRefusal {
    ghost from_gives = { λ k e. e ≡ refusal.Refused k };

    fn from(k: Refusal) -> FormulaRefusal {
        FormulaRefusal::Refused(k)
    }
}

impl From<Unlisted> for FormulaRefusal {
    ghost from_gives = { λ x e. e ≡ unlisted_as x };

    fn from(x: Unlisted) -> FormulaRefusal {
        match x {
            Unlisted::Refused(k) => FormulaRefusal::Refused(k),
            Unlisted::Faulty(f) => FormulaRefusal::Faulty {
                refusal: f.refusal,
                place: f.at,
            },
        }
    }
}

// Accesses by a written formula: how many they are.
fn by_formula<A: Access>(
    by: &mut A,
    r: &mut Fields,
    words: &mut [u32],
    text: &[u8],
    predicates: &[u32],
    answer: &mut [u32],
) -> Result<usize, FormulaRefusal>
    ensures same { A.keeps by.old by.new }
    ensures answers { FormulaAnswers A.kind text.now predicates.now answer.old r.old words.old (A.lent by.old) r.new words.new (A.lent by.new) answer.new result }
{
    rows::memory_row(*r, words, by.list())?;
    let mut table: Table = [0; 32768];
    let x = preparing::prepare(*r, words, &mut table, text, predicates, answer)?;
    r.count = x.count;
    let listed = x.listed;
    if let Err(s) = making::make(by, r, words, &mut table, predicates, answer, listed) {
        return Err(FormulaRefusal::Stopped {
            refusal: s.refusal,
            listed,
            made: s.made,
        });
    }
    Ok(listed)
}

// Asserts by a written formula.
pub fn assert_formula(
    r: &mut Fields,
    words: &mut [u32],
    list: &mut [u32],
    text: &[u8],
    predicates: &[u32],
    answer: &mut [u32],
) -> Result<usize, FormulaRefusal>
    ensures { FormulaAnswers asserting text.now predicates.now answer.old r.old words.old list.old r.new words.new list.new answer.new result }
{
    let mut by = Asserts { list };
    by_formula(&mut by, r, words, text, predicates, answer)
}

// Checks by one.
pub fn check_formula(
    r: &mut Fields,
    words: &mut [u32],
    list: &[u32],
    text: &[u8],
    predicates: &[u32],
    answer: &mut [u32],
) -> Result<usize, FormulaRefusal>
    ensures { FormulaAnswers checking text.now predicates.now answer.old r.old words.old list.now r.new words.new list.now answer.new result }
{
    let mut by = Checks { list };
    by_formula(&mut by, r, words, text, predicates, answer)
}
