// The calls that are lent no list: Fresh, evaluate, variable, Ite.
#![tactic(auto)]

ghost use Rattle.std.specs.Prelude.{◌≡◌};
ghost use Rattle.conditions.specs.Contract.{Sound};
ghost use Rattle.model.specs.Rows.{first_row, variable_rows, ite_rows, evaluate_rows};
ghost use Rattle.model.specs.Step.{accepted, node, valued, begin, variable, ite, evaluate, fresh_rows, fresh};
ghost use Rattle.refusals.specs.Refusal.{row_of};
ghost use Rattle.rows.specs.Contract.{answer_by, AnswersAnyList, Over};
ghost use Rattle.node_calls.specs.Contract.{freshed};

use conditions::{Builder, Diagrams, Table};
use model::Fields;
use refusals::Refusal;
use semantics::Sizes;

// The rows of a Fresh.
fn fresh_row(words: &[u32], z: Sizes) -> Result<(), Refusal>
    ensures { row_of result ≡ fresh_rows z words.now }
{
    if !ranges::in_range(z) {
        return Err(Refusal::Sizes);
    }
    if words.len() < 6 {
        return Err(Refusal::Store);
    }
    Ok(())
}

// The rows of a variable.
fn variable_row(r: Fields, words: &[u32], v: u32) -> Result<(), Refusal>
    ensures { row_of result ≡ first_row (variable_rows r words.now v) }
{
    rows::store_row(r, words)?;
    if !((8 <= v) & (v <= 63)) {
        return Err(Refusal::Nodes);
    }
    Ok(())
}

// The rows of an Ite.
fn ite_row(r: Fields, words: &[u32], f: u32, g: u32, h: u32) -> Result<(), Refusal>
    ensures { row_of result ≡ first_row (ite_rows r words.now f g h) }
{
    let d = rows::store_row(r, words)?;
    let x = conditions::is_user(d, f);
    let y = conditions::is_user(d, g);
    let z = conditions::is_user(d, h);
    if !(x & y & z) {
        return Err(Refusal::Nodes);
    }
    Ok(())
}

// The rows of an evaluate, or of what else is asked of a node, and the diagrams of which it is asked.
pub fn evaluate_row(r: Fields, words: &[u32], f: u32) -> Result<Diagrams<'_>, Refusal>
    ensures { (row_of result ≡ first_row (evaluate_rows r words.now f)) × Over words.now r.count result }
{
    let d = rows::store_row(r, words)?;
    if d.count <= f {
        return Err(Refusal::Nodes);
    }
    Ok(d)
}

// Fresh: a memory with no entries and both conditions 1, over node words that hold the two terminals, and ports that hold X.
pub fn fresh(
    r: &mut Fields,
    words: &mut [u32],
    ports: &mut [u32; 128],
    z: Sizes,
) -> Result<(), Refusal>
    ensures { freshed (fresh r.old z words.old ports.old) ≡ (answer_by result (λ u. accepted), r.new, words.new, ports.new) }
{
    fresh_row(words, z)?;
    conditions::store_terminals(words);
    ports::make_fresh(ports);
    *r = Fields {
        sizes: z,
        count: 2,
        entries: 0,
        asserted: 1,
        checked: 1,
    };
    Ok(())
}

// The value of node f under the 64-bit assignment a.
pub fn evaluate(r: Fields, words: &[u32], f: u32, a: u64) -> Result<bool, Refusal>
    ensures { AnswersAnyList (evaluate f a) r words.now r words.now (answer_by result valued) }
{
    let d = evaluate_row(r, words, f)?;
    Ok(conditions::evaluate(d, f, a))
}

// A variable that no row before 9 refuses, with the table lent. As `ite_on`: one function that takes the operation as a closure is proved, its call with a closure that captures v is not.
fn variable_on(r: &mut Fields, words: &mut [u32], table: &mut Table, v: u32) -> Result<u32, Refusal>
    requires { Sound words.old table.old (begin r.old) × (0 ≡ first_row (variable_rows r.old words.old v)) }
    ensures { AnswersAnyList (variable v) r.old words.old r.new words.new (answer_by result node) }
{
    let mut build = Builder {
        words,
        table,
        store: rows::begin(*r),
    };
    let n = build.variable(v);
    let s = build.store;
    rows::clear_where(words, r.count, s.full, Refusal::StoreFull)?;
    r.count = s.count;
    Ok(n)
}

// The node of variable v.
pub fn variable(r: &mut Fields, words: &mut [u32], v: u32) -> Result<u32, Refusal>
    ensures { AnswersAnyList (variable v) r.old words.old r.new words.new (answer_by result node) }
{
    variable_row(*r, words, v)?;
    let mut table: Table = [0; 32768];
    variable_on(r, words, &mut table, v)
}

// An Ite that no row before 9 refuses, with the table lent.
fn ite_on(
    r: &mut Fields,
    words: &mut [u32],
    table: &mut Table,
    f: u32,
    g: u32,
    h: u32,
) -> Result<u32, Refusal>
    requires { Sound words.old table.old (begin r.old) × (0 ≡ first_row (ite_rows r.old words.old f g h)) }
    ensures { AnswersAnyList (ite f g h) r.old words.old r.new words.new (answer_by result node) }
{
    let mut build = Builder {
        words,
        table,
        store: rows::begin(*r),
    };
    let n = build.ite(f, g, h);
    let s = build.store;
    rows::clear_where(words, r.count, s.full, Refusal::StoreFull)?;
    r.count = s.count;
    Ok(n)
}

// The node of Ite(f, g, h).
pub fn ite(r: &mut Fields, words: &mut [u32], f: u32, g: u32, h: u32) -> Result<u32, Refusal>
    ensures { AnswersAnyList (ite f g h) r.old words.old r.new words.new (answer_by result node) }
{
    ite_row(*r, words, f, g, h)?;
    let mut table: Table = [0; 32768];
    ite_on(r, words, &mut table, f, g, h)
}
