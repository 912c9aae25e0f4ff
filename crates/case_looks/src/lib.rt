// The accesses of a case that enter nothing: a read and a check, each with its line.
#![tactic(auto)]

ghost use Rattle.std.specs.Prelude.{List, ℕ, ◌≡◌, length};
ghost use Rattle.text.specs.Writer.{out_of, SameBuffer};
ghost use Rattle.format.specs.declared.Kind.TheVariants as kinds;
ghost use Rattle.reading.specs.Layout.{size_of, told};
ghost use Rattle.model.specs.Frames.{PortsValid};
ghost use Rattle.memory.specs.Contract.{state_of};
ghost use Rattle.cases.specs.Case.{call_of, done};
ghost use Rattle.case_entries.specs.Contract.{Ready, StepAs};

use building::ControlNode;
use case_entries::Run;
use conditions::{Diagrams, Table};
use reading::Kind;
use refusals::Refusal;
use text::Writer;

// A read, and its line; the word that it fills is its own.
pub fn do_read(
    words: &mut [u32],
    list: &[u32],
    table: &mut Table,
    ports: &mut [u32; 128],
    w: &mut Writer,
    c: Run,
    port: u32,
    ops: &[u32],
) -> Result<Run, Refusal>
    requires { Ready c.memory words.old list.now table.old × PortsValid (state_of c.memory words.old list.now ports.old) × (length ops.now ≡ size_of kinds.Read c.memory.fields.sizes.n c.memory.fields.sizes.w) }
    ensures step { StepAs result words.new list.now w.new table.new ports.new (done (call_of kinds.Read c.memory.fields.sizes.w (told kinds.Read c.memory.fields.sizes.n c.memory.fields.sizes.w port ops.now)) (state_of c.memory words.old list.now ports.old) c.at (out_of w.old)) }
    ensures same { SameBuffer w.old w.new }
{
    let mut memory = c.memory;
    let e = reading::ends_of(Kind::Read, memory.fields.sizes);
    let mut word = [0; 32];
    let word = &mut word[..ranges::data_words(memory.fields.sizes)];
    memory.read_on(
        words,
        list,
        table,
        ports,
        port,
        &ops[0..e.control],
        &ops[e.control..e.address],
        word,
    )?;
    let d = Diagrams {
        words,
        count: memory.fields.count,
    };
    printing::put_read(w, d, word);
    case_entries::printed(w, Run { memory, ..c })
}

// A check, and its line.
pub fn do_check(
    words: &mut [u32],
    list: &[u32],
    table: &mut Table,
    w: &mut Writer,
    c: Run,
    ops: &[u32],
) -> Result<Run, Refusal>
    requires { Ready c.memory words.old list.now table.old × (length ops.now ≡ size_of kinds.Check c.memory.fields.sizes.n c.memory.fields.sizes.w) }
    ensures step { (ps : List ℕ) → StepAs result words.new list.now w.new table.new ps (done (call_of kinds.Check c.memory.fields.sizes.w (told kinds.Check c.memory.fields.sizes.n c.memory.fields.sizes.w 0 ops.now)) (state_of c.memory words.old list.now ps) c.at (out_of w.old)) }
    ensures same { SameBuffer w.old w.new }
{
    let mut memory = c.memory;
    let e = reading::ends_of(Kind::Check, memory.fields.sizes);
    memory.check_on(
        words,
        list,
        table,
        ControlNode(ops[0]),
        &ops[e.control..e.address],
        &ops[e.address..e.word],
    )?;
    let r = memory.fields;
    let d = Diagrams {
        words,
        count: r.count,
    };
    printing::put_check(w, d, r.checked);
    case_entries::printed(w, Run { memory, ..c })
}
