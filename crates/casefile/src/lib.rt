// The run of a case file: one call reads its sections and accesses, does and prints them in turn.
#![tactic(auto)]

ghost use Rattle.std.specs.Prelude.{◌≡◌, ◌≤◌, length};
ghost use Rattle.cases.specs.Case.{case_of, output_of};
ghost use Rattle.casefile.specs.Contract.{case_as, output_as};

mod accesses;

use memory::Record;
use refusals::Refusal;
use text::{Text, Writer};

// An accepted case: the text length and the last record.
#[derive(Clone, Copy)]
pub struct CaseDone {
    pub length: usize,
    pub memory: Record,
}

// A refused case: by what, and how many accesses were printed before.
#[derive(Clone, Copy)]
pub struct CaseRefused {
    pub refusal: Refusal,
    pub after: u32,
}

// A case: what a refused one leaves is zeros.
pub fn run_case(
    case: &[u8],
    words: &mut [u32],
    list: &mut [u32],
    text: &mut [u8],
) -> Result<CaseDone, CaseRefused>
    ensures { case_as result words.new list.new text.new ≡ case_of case.now words.old list.old text.old }
{
    let answer = accesses::whole(case, words, list, text);
    if answer.is_err() {
        words.fill(0);
        list.fill(0);
        text.fill(0);
    }
    answer
}

// A case, and what is to be printed of it as a text in the text buffer: that of an accepted one, or the one line of a refused one.
pub fn print_case(case: &[u8], words: &mut [u32], list: &mut [u32], text: &mut [u8]) -> Text
    ensures text_after { output_as result words.new list.new text.new ≡ output_of (case_of case.now words.old list.old text.old) }
    ensures within { result.at ≤ length text.new }
{
    match run_case(case, words, list, text) {
        Ok(done) => Text {
            at: done.length,
            full: false,
        },
        Err(refused) => {
            let mut w = Writer::new(text);
            printing::put_refused(&mut w, refused.refusal.number(), refused.after);
            w.text
        }
    }
}
