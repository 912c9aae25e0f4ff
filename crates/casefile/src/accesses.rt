// The sections, the accesses one after the other, and the last line.
ghost use Rattle.std.specs.Prelude.{◌≡◌};
ghost use Rattle.model.specs.Frames.{PortsValid};
ghost use Rattle.text.specs.Writer.{SameBuffer};
ghost use Rattle.memory.specs.Contract.{state_of};
ghost use Rattle.cases.specs.Case.{rest, whole};
ghost use Rattle.case_entries.specs.Contract.{running_of, Ready};
ghost use Rattle.casefile.specs.Contract.{ended_of, EndsAs, Finishes};

use crate::{CaseDone, CaseRefused};
use case_entries::Run;
use conditions::Table;
use memory::Record;
use model::Fields;
use refusals::Refusal;
use text::Writer;

// The last line, unless bytes are left.
fn finish(file: &[u8], w: &mut Writer, c: Run) -> Result<CaseDone, Refusal>
    ensures last { Finishes result w.new file.now c w.old }
    ensures same { SameBuffer w.old w.new }
{
    if c.at < file.len() {
        return Err(Refusal::BytesLeft);
    }
    printing::put_end(w, c.memory.fields.entries);
    if w.text.full {
        return Err(Refusal::BufferShort);
    }
    Ok(CaseDone {
        length: w.text.at,
        memory: c.memory,
    })
}

// The accesses one after the other, and the last line.
fn do_all(
    file: &[u8],
    words: &mut [u32],
    list: &mut [u32],
    table: &mut Table,
    ports: &mut [u32; 128],
    w: &mut Writer,
    c: Run,
    accesses: u32,
) -> Result<CaseDone, CaseRefused>
    requires { Ready c.memory words.old list.old table.old × PortsValid (state_of c.memory words.old list.old ports.old) }
    ensures end { ended_of result words.new list.new w.new.buf.now ports.new ≡ rest file.now accesses 0 (running_of c words.old list.old w.old ports.old) }
    ensures same { SameBuffer w.old w.new }
{
    let mut c = c;
    for after in 0..accesses {
        c = case_access::do_one(file, words, list, table, ports, w, c).map_err(
            |refusal| CaseRefused { refusal, after },
        )?;
    }
    let after = accesses;
    finish(file, w, c).map_err(|refusal| CaseRefused { refusal, after })
}

// The sections, and the accesses with one computed table and ports of the case's own.
pub fn whole(
    file: &[u8],
    words: &mut [u32],
    list: &mut [u32],
    buf: &mut [u8],
) -> Result<CaseDone, CaseRefused>
    ensures { EndsAs result words.new list.new buf.new (whole file.now words.old list.old buf.old) }
{
    let loaded = reading::load_sections(file, words).map_err(|refusal| CaseRefused {
        refusal,
        after: 0,
    })?;
    let c = Run {
        memory: Record {
            fields: Fields {
                sizes: loaded.sizes,
                count: loaded.count,
                entries: 0,
                asserted: 1,
                checked: 1,
            },
        },
        at: loaded.at,
    };
    let mut w = Writer::new(buf);
    let mut table: Table = [0; 32768];
    let mut ports: [u32; 128] = [1; 128];
    do_all(
        file,
        words,
        list,
        &mut table,
        &mut ports,
        &mut w,
        c,
        loaded.accesses,
    )
}
