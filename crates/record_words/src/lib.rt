// The record of a memory as its words.
#![tactic(auto)]

ghost use Rattle.std.specs.Prelude.{◌≡◌};
ghost use Rattle.record_words.specs.Words.{record_in, words_of};

use memory::Record;
use model::Fields;
use semantics::Sizes;

// n, w, node count, entry count, assert condition, check condition.
pub type RecordWords = [u32; 6];

// The record that the words are. No `From` here and below: of the two types none is this crate's.
pub fn record_of(words: &RecordWords) -> Record
    ensures { result.fields ≡ record_in words.now }
{
    let sizes = Sizes {
        n: words[0],
        w: words[1],
    };
    let fields = Fields {
        sizes,
        count: words[2],
        entries: words[3],
        asserted: words[4],
        checked: words[5],
    };
    Record { fields }
}

// The record's words.
pub fn put_record(words: &mut RecordWords, r: Record)
    ensures { words.new ≡ words_of r.fields }
{
    let f = r.fields;
    *words = [
        f.sizes.n, f.sizes.w, f.count, f.entries, f.asserted, f.checked,
    ];
}
