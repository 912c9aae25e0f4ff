// The accesses for C, exported: each is the call of its name in `capi`, with the same contract.
#![tactic(auto)]

ghost use Rattle.std.specs.Prelude.{◌≡◌, []};
ghost use Rattle.model.specs.Step.{write, read, assert, check, access};
ghost use Rattle.record_words.specs.Calls.{left, called};

use record_words::RecordWords;

// Write: the place of the entry, or 4294967295 for an idle write.
#[unsafe(no_mangle)]
pub extern "C" fn md_write(
    record: &mut RecordWords,
    nodes: &mut [u32],
    list: &mut [u32],
    enable: &[u32],
    address: &[u32],
    data: &[u32],
    place: &mut u32,
) -> u32
    ensures { left result «record».new nodes.new list.new [] [] place.new ≡ called (access (write enable.now address.now «data».now)) «record».old nodes.old list.old [] [] place.old }
{
    capi::md_write(record, nodes, list, enable, address, data, place)
}

// Check.
#[unsafe(no_mangle)]
pub extern "C" fn md_check(
    record: &mut RecordWords,
    nodes: &mut [u32],
    list: &[u32],
    b: u32,
    address: &[u32],
    data: &[u32],
) -> u32
    ensures { left result «record».new nodes.new list.now [] [] 0 ≡ called (access (check b address.now «data».now)) «record».old nodes.old list.now [] [] 0 }
{
    capi::md_check(record, nodes, list, b, address, data)
}

// Assert: entered is 1, or 0 for kept.
#[unsafe(no_mangle)]
pub extern "C" fn md_assert(
    record: &mut RecordWords,
    nodes: &mut [u32],
    list: &mut [u32],
    b: u32,
    address: &[u32],
    data: &[u32],
    entered: &mut u32,
) -> u32
    ensures { left result «record».new nodes.new list.new [] [] entered.new ≡ called (access (assert b address.now «data».now)) «record».old nodes.old list.old [] [] entered.old }
{
    capi::md_assert(record, nodes, list, b, address, data, entered)
}

// Read, at a port.
#[unsafe(no_mangle)]
pub extern "C" fn md_read(
    record: &mut RecordWords,
    nodes: &mut [u32],
    list: &[u32],
    ports: &mut [u32; 128],
    port: u32,
    enable: &[u32],
    address: &[u32],
    answer: &mut [u32],
) -> u32
    ensures { left result «record».new nodes.new list.now ports.new answer.new 0 ≡ called (access (read port enable.now address.now answer.old)) «record».old nodes.old list.now ports.old answer.old 0 }
{
    capi::md_read(record, nodes, list, ports, port, enable, address, answer)
}
