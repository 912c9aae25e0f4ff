// The calls for C that are lent no list, and what is asked of a node: the record is its words, and every function returns 0 for accepted or the row's number.
#![tactic(auto)]

ghost use Rattle.std.specs.Prelude.{◌≡◌, []};
ghost use Rattle.model.specs.Step.{ite, node_call};
ghost use Rattle.model.specs.Step as step;
ghost use Rattle.record_words.specs.Calls.{left, called};
ghost use Rattle.capi_nodes.specs.Contract.{evaluated, freshed, left_text, texted, witnessed};

use record_words::RecordWords;
use refusals::Refusal;
use semantics::Sizes;
use text::Writer;

// Fresh.
pub fn md_fresh(
    record: &mut RecordWords,
    n: u32,
    w: u32,
    nodes: &mut [u32],
    ports: &mut [u32; 128],
) -> u32
    ensures { (result, «record».new, nodes.new, ports.new) ≡ freshed n w «record».old nodes.old ports.old }
{
    let x = record_words::record_of(record).fresh(nodes, ports, Sizes { n, w });
    record_words::put_record(record, x.after);
    let answer = x.answer;
    match answer {
        Ok(()) => 0,
        Err(refusal) => refusal.number(),
    }
}

// The node of a variable.
pub fn md_variable(
    record: &mut RecordWords,
    nodes: &mut [u32],
    variable: u32,
    node: &mut u32,
) -> u32
    ensures { left result «record».new nodes.new [] [] [] node.new ≡ called (node_call (step.variable variable)) «record».old nodes.old [] [] [] node.old }
{
    let x = record_words::record_of(record).variable(nodes, variable);
    record_words::put_record(record, x.after);
    let answer = x.answer;
    match answer {
        Ok(k) => {
            *node = k;
            0
        }
        Err(k) => k.number(),
    }
}

// The node of Ite(f, g, h).
pub fn md_ite(
    record: &mut RecordWords,
    nodes: &mut [u32],
    f: u32,
    g: u32,
    h: u32,
    node: &mut u32,
) -> u32
    ensures { left result «record».new nodes.new [] [] [] node.new ≡ called (node_call (ite f g h)) «record».old nodes.old [] [] [] node.old }
{
    let x = record_words::record_of(record).ite(nodes, f, g, h);
    record_words::put_record(record, x.after);
    let answer = x.answer;
    match answer {
        Ok(k) => {
            *node = k;
            0
        }
        Err(k) => k.number(),
    }
}

// The value of a node under a 64-bit assignment: 0 or 1.
pub fn md_evaluate(
    record: &RecordWords,
    nodes: &[u32],
    node: u32,
    assignment: u64,
    value: &mut u32,
) -> u32
    ensures { (result, value.new) ≡ evaluated node assignment «record».now nodes.now value.old }
{
    let x = record_words::record_of(record).evaluate(nodes, node, assignment);
    let answer = x.answer;
    match answer {
        Ok(b) => {
            *value = u32::from(b);
            0
        }
        Err(k) => k.number(),
    }
}

// A condition's text, into the text bytes from the first on: a text that does not fit leaves zeros.
pub fn md_text(
    record: &RecordWords,
    nodes: &[u32],
    node: u32,
    text: &mut [u8],
    length: &mut u64,
) -> u32
    ensures { left_text result text.new length.new ≡ texted node «record».now nodes.now text.old length.old }
{
    let r = record_words::record_of(record).fields;
    let d = match node_calls::evaluate_row(r, nodes, node) {
        Ok(d) => d,
        Err(row) => return row.number(),
    };
    let mut w = Writer::new(text);
    conditions::put_condition(&mut w, d, node);
    let t = w.text;
    if t.full {
        text.fill(0);
        return Refusal::BufferShort.number();
    }
    *length = t.at as u64;
    0
}

// An assignment under which a node holds; of node 0, under which none does, it is 0.
pub fn md_witness(record: &RecordWords, nodes: &[u32], node: u32, assignment: &mut u64) -> u32
    ensures { (result, assignment.new) ≡ witnessed node «record».now nodes.now assignment.old }
{
    let r = record_words::record_of(record).fields;
    match node_calls::evaluate_row(r, nodes, node) {
        Ok(d) => {
            *assignment = conditions::witness(d, node);
            0
        }
        Err(k) => k.number(),
    }
}
