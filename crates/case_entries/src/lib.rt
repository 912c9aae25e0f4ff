// A case between two accesses, and the accesses that may enter: a write and an assert, each with its line.
#![tactic(auto)]

ghost use Rattle.std.specs.Prelude.{◌≡◌, List, ℕ, length};
ghost use Rattle.text.specs.Writer.{out_of, SameBuffer};
ghost use Rattle.format.specs.declared.Kind.TheVariants as kinds;
ghost use Rattle.reading.specs.Layout.{size_of, told};
ghost use Rattle.memory.specs.Contract.{state_of};
ghost use Rattle.cases.specs.Case.{call_of, done};
ghost use Rattle.case_entries.specs.Contract.{printed_as, Ready, StepAs};

use assert_access::Asserted;
use building::ControlNode;
use conditions::{Diagrams, Table};
use memory::Record;
use reading::Kind;
use refusals::Refusal;
use text::Writer;

// A case between two accesses: the memory, and the byte with which the next access begins. What it is lent goes beside it, one by one: a read and a check change no list, and only a read sees the ports, and so their parameters say.
#[derive(Clone, Copy)]
pub struct Run {
    pub memory: Record,
    pub at: usize,
}

// After a line: its text may not have fitted.
pub fn printed(w: &Writer, c: Run) -> Result<Run, Refusal>
    ensures { result ≡ printed_as w.now.text c }
{
    if w.text.full {
        Err(Refusal::BufferShort)
    } else {
        Ok(c)
    }
}

// A write, and its line.
pub fn do_write(
    words: &mut [u32],
    list: &mut [u32],
    table: &mut Table,
    w: &mut Writer,
    c: Run,
    ops: &[u32],
) -> Result<Run, Refusal>
    requires { Ready c.memory words.old list.old table.old × (length ops.now ≡ size_of kinds.Write c.memory.fields.sizes.n c.memory.fields.sizes.w) }
    ensures step { (ps : List ℕ) → StepAs result words.new list.new w.new table.new ps (done (call_of kinds.Write c.memory.fields.sizes.w (told kinds.Write c.memory.fields.sizes.n c.memory.fields.sizes.w 0 ops.now)) (state_of c.memory words.old list.old ps) c.at (out_of w.old)) }
    ensures same { SameBuffer w.old w.new }
{
    let mut memory = c.memory;
    let e = reading::ends_of(Kind::Write, memory.fields.sizes);
    let entered = memory.write_on(
        words,
        list,
        table,
        &ops[0..e.control],
        &ops[e.control..e.address],
        &ops[e.address..e.word],
    )?;
    match entered {
        Some(place) => printing::put_write(w, place),
        None => printing::put_idle(w),
    }
    printed(w, Run { memory, ..c })
}

// An assert, and its line.
pub fn do_assert(
    words: &mut [u32],
    list: &mut [u32],
    table: &mut Table,
    w: &mut Writer,
    c: Run,
    ops: &[u32],
) -> Result<Run, Refusal>
    requires { Ready c.memory words.old list.old table.old × (length ops.now ≡ size_of kinds.Assert c.memory.fields.sizes.n c.memory.fields.sizes.w) }
    ensures step { (ps : List ℕ) → StepAs result words.new list.new w.new table.new ps (done (call_of kinds.Assert c.memory.fields.sizes.w (told kinds.Assert c.memory.fields.sizes.n c.memory.fields.sizes.w 0 ops.now)) (state_of c.memory words.old list.old ps) c.at (out_of w.old)) }
    ensures same { SameBuffer w.old w.new }
{
    let mut memory = c.memory;
    let e = reading::ends_of(Kind::Assert, memory.fields.sizes);
    let asserted = memory.assert_on(
        words,
        list,
        table,
        ControlNode(ops[0]),
        &ops[e.control..e.address],
        &ops[e.address..e.word],
    )?;
    let entered = matches!(asserted, Asserted::Entered);
    let r = memory.fields;
    let d = Diagrams {
        words,
        count: r.count,
    };
    printing::put_assert(w, d, entered, r.asserted);
    printed(w, Run { memory, ..c })
}
