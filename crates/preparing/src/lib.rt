// A written formula before its accesses: read, its conditions built, and its triples written into the answer.
#![tactic(auto)]

ghost use Rattle.std.specs.Prelude.{◌≡◌, ℕ};
ghost use Rattle.preparing.specs.Contract.{MayList, ListedAs, Prepares, PreparedAs};
ghost use Rattle.preparing.specs.declared.Unlisted.TheVariants as unlisted;

use conditions::{Builder, Table};
use formula_walk::{Pass, Plan};
use model::Fields;
use refusals::Refusal;
use tokens::Fault;

// A formula that is listed in the answer words: the count of nodes that its conditions left, and how many triples they are.
#[derive(Clone, Copy)]
pub struct Listed {
    pub count: u32,
    pub listed: usize,
}

// Why a formula is not listed: a row of the table, or a fault of its text.
#[derive(Clone, Copy)]
pub enum Unlisted {
    Refused(Refusal),
    Faulty(Fault),
}

impl From<Refusal> for Unlisted {
    ghost from_gives = { λ k e. e ≡ unlisted.Refused k };

    fn from(k: Refusal) -> Unlisted {
        Unlisted::Refused(k)
    }
}

impl From<Fault> for Unlisted {
    ghost from_gives = { λ f e. e ≡ unlisted.Faulty f };

    fn from(f: Fault) -> Unlisted {
        Unlisted::Faulty(f)
    }
}

// The triples, in one walk over the text for each step, until all are written. A text that was read once is read again.
fn list_steps(
    text: &[u8],
    build: &mut Builder,
    answer: &mut [u32],
    predicates: usize,
    count: u32,
    listed: usize,
)
    requires { MayList text.now build.old answer.old predicates count listed }
    ensures { ListedAs text.now build.old answer.old predicates count build.new answer.new }
{
    let mut written: usize = 0;
    for step in 0..33 {
        if listed <= written {
            break;
        }
        let g = Plan {
            pass: Pass::List(step),
            predicates,
            count,
        };
        let x = formula_walk::walk_text(text, build, answer, g, written).unwrap();
        written = x.listed;
    }
}

// Rows 15, 16, 13 and 9 of the conditions; then the triples are written. The walk that builds is one of step 33, which no predicate has: it writes nothing.
pub fn prepare(
    r: Fields,
    words: &mut [u32],
    table: &mut Table,
    text: &[u8],
    predicates: &[u32],
    answer: &mut [u32],
) -> Result<Listed, Unlisted>
    requires { Prepares r words.old table.old }
    ensures { PreparedAs r words.old text.now predicates.now answer.old words.new table.new answer.new result }
{
    let known = predicates.len() / making::predicate_words(r);
    let mut build = Builder {
        words,
        table,
        store: rows::begin(r),
    };
    let counting = Plan {
        pass: Pass::Count,
        predicates: known,
        count: r.count,
    };
    let x = formula_walk::walk_text(text, &mut build, answer, counting, 0)?;
    if answer.len() / 3 < x.listed {
        return Err(Unlisted::Refused(Refusal::BufferShort));
    }
    let building = Plan {
        pass: Pass::List(33),
        predicates: known,
        count: r.count,
    };
    formula_walk::walk_text(text, &mut build, answer, building, 0).unwrap();
    let store = build.store;
    rows::clear_where(words, r.count, store.full, Refusal::StoreFull)?;
    let mut build = Builder {
        words,
        table,
        store,
    };
    list_steps(text, &mut build, answer, known, r.count, x.listed);
    Ok(Listed {
        count: store.count,
        listed: x.listed,
    })
}
