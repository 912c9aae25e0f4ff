// The accesses for C: the record is six words, and every function returns 0 for accepted or the row's number.
#![tactic(auto)]

ghost use Rattle.std.specs.Prelude.{◌≡◌, []};
ghost use Rattle.model.specs.Step.{write, read, assert, check, access};
ghost use Rattle.record_words.specs.Calls.{left, called};

use assert_access::Asserted;
use building::ControlNode;
use record_words::RecordWords;

// Write: the place of the entry, or 4294967295 for an idle write.
pub fn md_write(
    record: &mut RecordWords,
    nodes: &mut [u32],
    list: &mut [u32],
    enable: &[u32],
    address: &[u32],
    data: &[u32],
    place: &mut u32,
) -> u32
    ensures { left result «record».new nodes.new list.new [] [] place.new ≡ called (access (write enable.now address.now «data».now)) «record».old nodes.old list.old [] [] place.old }
{
    let x = record_words::record_of(record).write(nodes, list, enable, address, data);
    record_words::put_record(record, x.after);
    let answer = x.answer;
    match answer {
        Ok(entered) => {
            *place = entered.unwrap_or(4294967295);
            0
        }
        Err(refusal) => refusal.number(),
    }
}

// Check.
pub fn md_check(
    record: &mut RecordWords,
    nodes: &mut [u32],
    list: &[u32],
    b: u32,
    address: &[u32],
    data: &[u32],
) -> u32
    ensures { left result «record».new nodes.new list.now [] [] 0 ≡ called (access (check b address.now «data».now)) «record».old nodes.old list.now [] [] 0 }
{
    let x = record_words::record_of(record).check(nodes, list, ControlNode(b), address, data);
    record_words::put_record(record, x.after);
    let answer = x.answer;
    match answer {
        Ok(()) => 0,
        Err(k) => k.number(),
    }
}

// Assert: entered is 1, or 0 for kept.
pub fn md_assert(
    record: &mut RecordWords,
    nodes: &mut [u32],
    list: &mut [u32],
    b: u32,
    address: &[u32],
    data: &[u32],
    entered: &mut u32,
) -> u32
    ensures { left result «record».new nodes.new list.new [] [] entered.new ≡ called (access (assert b address.now «data».now)) «record».old nodes.old list.old [] [] entered.old }
{
    let x = record_words::record_of(record).assert(nodes, list, ControlNode(b), address, data);
    record_words::put_record(record, x.after);
    let answer = x.answer;
    match answer {
        Ok(asserted) => {
            *entered = u32::from(matches!(asserted, Asserted::Entered));
            0
        }
        Err(k) => k.number(),
    }
}

// Read, at a port.
pub fn md_read(
    record: &mut RecordWords,
    nodes: &mut [u32],
    list: &[u32],
    ports: &mut [u32; 128],
    port: u32,
    enable: &[u32],
    address: &[u32],
    answer: &mut [u32],
) -> u32
    ensures { left result «record».new nodes.new list.now ports.new answer.new 0 ≡ called (access (read port enable.now address.now answer.old)) «record».old nodes.old list.now ports.old answer.old 0 }
{
    let x = record_words::record_of(record).read(nodes, list, ports, port, enable, address, answer);
    record_words::put_record(record, x.after);
    let filled = x.answer;
    match filled {
        Ok(()) => 0,
        Err(k) => k.number(),
    }
}
