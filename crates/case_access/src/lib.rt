// An access of a case, at its place in the file: the kind byte selects the operation.
#![tactic(auto)]

ghost use Rattle.std.specs.Prelude.{◌≡◌, true, length};
ghost use Rattle.text.specs.Writer.{out_of, SameBuffer};
ghost use Rattle.format.specs.Kinds.{is_known};
ghost use Rattle.reading.specs.Layout.{size_of, told};
ghost use Rattle.model.specs.Frames.{PortsValid};
ghost use Rattle.memory.specs.Contract.{state_of};
ghost use Rattle.cases.specs.Case.{call_of, done, one};
ghost use Rattle.case_entries.specs.Contract.{running_of, Ready, PortsReadyNext, StepAs};

use case_entries::Run;
use conditions::Table;
use reading::{Kind, Reader};
use refusals::Refusal;
use text::Writer;

// The access of a kind, with its nodes. A match, no closures: the kinds are lent different things.
fn do_access(
    kind: Kind,
    port: u32,
    words: &mut [u32],
    list: &mut [u32],
    table: &mut Table,
    ports: &mut [u32; 128],
    w: &mut Writer,
    c: Run,
    ops: &[u32],
) -> Result<Run, Refusal>
    requires { Ready c.memory words.old list.old table.old × PortsValid (state_of c.memory words.old list.old ports.old) × (is_known kind ≡ true) × (length ops.now ≡ size_of kind c.memory.fields.sizes.n c.memory.fields.sizes.w) }
    ensures step { StepAs result words.new list.new w.new table.new ports.new (done (call_of kind c.memory.fields.sizes.w (told kind c.memory.fields.sizes.n c.memory.fields.sizes.w port ops.now)) (state_of c.memory words.old list.old ports.old) c.at (out_of w.old)) }
    ensures same { SameBuffer w.old w.new }
{
    match kind {
        Kind::Write => case_entries::do_write(words, list, table, w, c, ops),
        Kind::Read => case_looks::do_read(words, list, table, ports, w, c, port, ops),
        Kind::Assert => case_entries::do_assert(words, list, table, w, c, ops),
        Kind::Check => case_looks::do_check(words, list, table, w, c, ops),
        Kind::Unknown => Err(Refusal::UnknownKind),
    }
}

// The access at the case's place; the words for its nodes are its own.
pub fn do_one(
    file: &[u8],
    words: &mut [u32],
    list: &mut [u32],
    table: &mut Table,
    ports: &mut [u32; 128],
    w: &mut Writer,
    c: Run,
) -> Result<Run, Refusal>
    requires { Ready c.memory words.old list.old table.old × PortsValid (state_of c.memory words.old list.old ports.old) }
    ensures step { StepAs result words.new list.new w.new table.new ports.new (one file.now (running_of c words.old list.old w.old ports.old)) × PortsReadyNext result words.new list.new ports.new }
    ensures same { SameBuffer w.old w.new }
{
    let z = c.memory.fields.sizes;
    let mut reader = Reader::begin(file, c.at);
    let access = reader.next(z)?;
    let mut ops = [0; 50];
    let ops = &mut ops[..reading::operands(access.kind, z)];
    reading::read_numbers(file, access.from, ops);
    let here = Run { at: reader.at, ..c };
    do_access(
        access.kind,
        access.port,
        words,
        list,
        table,
        ports,
        w,
        here,
        ops,
    )
}
