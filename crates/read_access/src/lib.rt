// Read.
#![tactic(auto)]

ghost use Rattle.std.specs.Prelude.{◌≡◌, ℕ, ◌+◌, ◌*◌, ◌<◌, ◌≤◌, length};
ghost use Rattle.conditions.specs.Contract.{Sound};
ghost use Rattle.model.specs.Record.{address_words, data_words};
ghost use Rattle.model.specs.Rows.{first_row, read_rows};
ghost use Rattle.model.specs.Step.{begin, read, access, refusal};
ghost use Rattle.model.specs.Frames.{Valid, PortsValid};
ghost use Rattle.refusals.specs.Refusal.{row_of};
ghost use Rattle.rows.specs.Contract.{ported_of};
ghost use Rattle.read_access.specs.Contract.{read_answer, Reads, ReadsOn};

use building::{ControlNode, Entries, Pair};
use conditions::{Builder, Diagrams, Table};
use model::Fields;
use refusals::Refusal;

// The rows of a read of a valid memory with valid ports. A read has no data.
fn read_row(
    r: Fields,
    words: &[u32],
    list: &[u32],
    ports: &[u32; 128],
    port: u32,
    enable: &[u32],
    address: &[u32],
    answer: &[u32],
) -> Result<(), Refusal>
    requires { Valid (ported_of r words.now list.now ports.now) × PortsValid (ported_of r words.now list.now ports.now) × (length enable.now ≡ 2) × (length address.now ≡ address_words r) × (length answer.now ≡ data_words r) }
    ensures { row_of result ≡ first_row (read_rows r words.now list.now ports.now port enable.now address.now answer.now) }
{
    if 3 < port {
        return Err(Refusal::Port);
    }
    rows::argument_row(r, words, enable, 1, address, &address[..0], 0)
}

// A read that no row before 9 refuses; the word is its own.
fn read_into(
    r: &mut Fields,
    words: &mut [u32],
    list: &[u32],
    table: &mut Table,
    ports: &mut [u32; 128],
    port: usize,
    enable: &[u32],
    address: &[u32],
    answer: &mut [u32],
    word: &mut [u32],
) -> Result<(), Refusal>
    requires { (0 ≡ refusal (access (read port enable.now address.now answer.old)) (ported_of r.old words.old list.now ports.old)) × Sound words.old table.old (begin r.old) × (length word.old ≡ data_words r.old) × (length ports.old ≡ 128) }
    ensures { ReadsOn (ported_of r.old words.old list.now ports.old) port enable.now address.now answer.old (ported_of r.new words.new list.now ports.new) (read_answer result answer.new) answer.new table.new }
{
    let c = Pair {
        h: ControlNode(enable[0]),
        l: ControlNode(enable[1]),
    };
    let entries = Entries {
        sizes: r.sizes,
        count: r.entries as usize,
        list,
    };
    let all = &ports[..];
    let at = port * 32;
    let end = at + ranges::data_words(r.sizes);
    let mut build = Builder {
        words,
        table,
        store: rows::begin(*r),
    };
    building::read_word(&mut build, entries, c, address, &all[at..end], word);
    let s = build.store;
    rows::clear_where(words, r.count, s.full, Refusal::StoreFull)?;
    answer.copy_from_slice(word);
    ports::replace_held(ports, port, word);
    r.count = s.count;
    Ok(())
}

// A read of a valid memory with valid ports: rows 14 and 5 to 9, and the word, which its port then holds.
pub fn read_on(
    r: &mut Fields,
    words: &mut [u32],
    list: &[u32],
    table: &mut Table,
    ports: &mut [u32; 128],
    port: u32,
    enable: &[u32],
    address: &[u32],
    answer: &mut [u32],
) -> Result<(), Refusal>
    requires { Valid (ported_of r.old words.old list.now ports.old) × PortsValid (ported_of r.old words.old list.now ports.old) × Sound words.old table.old (begin r.old) × (length enable.now ≡ 2) × (length address.now ≡ address_words r.old) × (length answer.old ≡ data_words r.old) }
    ensures { ReadsOn (ported_of r.old words.old list.now ports.old) port enable.now address.now answer.old (ported_of r.new words.new list.now ports.new) (read_answer result answer.new) answer.new table.new }
{
    read_row(*r, words, list, ports, port, enable, address, answer)?;
    let mut word: [u32; 32] = [0; 32];
    let size = ranges::data_words(r.sizes);
    read_into(
        r,
        words,
        list,
        table,
        ports,
        port as usize,
        enable,
        address,
        answer,
        &mut word[..size],
    )
}

// Read(e, a), at a port.
pub fn read(
    r: &mut Fields,
    words: &mut [u32],
    list: &[u32],
    ports: &mut [u32; 128],
    port: u32,
    enable: &[u32],
    address: &[u32],
    answer: &mut [u32],
) -> Result<(), Refusal>
    ensures { Reads (ported_of r.old words.old list.now ports.old) port enable.now address.now answer.old (ported_of r.new words.new list.now ports.new) (read_answer result answer.new) answer.new }
{
    rows::memory_row(*r, words, list)?;
    let address_size = ranges::address_words(r.sizes);
    let answer_size = ranges::data_words(r.sizes);
    let d = Diagrams {
        words,
        count: r.count,
    };
    if !ports::all_name_nodes(d, &ports[..], answer_size) {
        return Err(Refusal::Contents);
    }
    if !((enable.len() == 2) & (address.len() == address_size) & (answer.len() == answer_size)) {
        return Err(Refusal::Lengths);
    }
    let mut table: Table = [0; 32768];
    read_on(
        r, words, list, &mut table, ports, port, enable, address, answer,
    )
}
