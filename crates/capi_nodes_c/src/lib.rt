// The calls for C that are lent no list, exported: each is the call of its name in `capi_nodes`, with the same contract.
#![tactic(auto)]

ghost use Rattle.std.specs.Prelude.{◌≡◌, []};
ghost use Rattle.model.specs.Step.{ite, node_call};
ghost use Rattle.model.specs.Step as step;
ghost use Rattle.record_words.specs.Calls.{left, called};
ghost use Rattle.capi_nodes.specs.Contract.{evaluated, freshed, left_text, texted, witnessed};

use record_words::RecordWords;

// Fresh.
#[unsafe(no_mangle)]
pub extern "C" fn md_fresh(
    record: &mut RecordWords,
    n: u32,
    w: u32,
    nodes: &mut [u32],
    ports: &mut [u32; 128],
) -> u32
    ensures { (result, «record».new, nodes.new, ports.new) ≡ freshed n w «record».old nodes.old ports.old }
{
    capi_nodes::md_fresh(record, n, w, nodes, ports)
}

// The node of a variable.
#[unsafe(no_mangle)]
pub extern "C" fn md_variable(
    record: &mut RecordWords,
    nodes: &mut [u32],
    variable: u32,
    node: &mut u32,
) -> u32
    ensures { left result «record».new nodes.new [] [] [] node.new ≡ called (node_call (step.variable variable)) «record».old nodes.old [] [] [] node.old }
{
    capi_nodes::md_variable(record, nodes, variable, node)
}

// The node of Ite(f, g, h).
#[unsafe(no_mangle)]
pub extern "C" fn md_ite(
    record: &mut RecordWords,
    nodes: &mut [u32],
    f: u32,
    g: u32,
    h: u32,
    node: &mut u32,
) -> u32
    ensures { left result «record».new nodes.new [] [] [] node.new ≡ called (node_call (ite f g h)) «record».old nodes.old [] [] [] node.old }
{
    capi_nodes::md_ite(record, nodes, f, g, h, node)
}

// The value of a node under a 64-bit assignment: 0 or 1.
#[unsafe(no_mangle)]
pub extern "C" fn md_evaluate(
    record: &RecordWords,
    nodes: &[u32],
    node: u32,
    assignment: u64,
    value: &mut u32,
) -> u32
    ensures { (result, value.new) ≡ evaluated node assignment «record».now nodes.now value.old }
{
    capi_nodes::md_evaluate(record, nodes, node, assignment, value)
}

// A condition's text, into the text bytes from the first on: a text that does not fit leaves zeros.
#[unsafe(no_mangle)]
pub extern "C" fn md_text(
    record: &RecordWords,
    nodes: &[u32],
    node: u32,
    text: &mut [u8],
    length: &mut u64,
) -> u32
    ensures { left_text result text.new length.new ≡ texted node «record».now nodes.now text.old length.old }
{
    capi_nodes::md_text(record, nodes, node, text, length)
}

// An assignment under which a node holds; of node 0, under which none does, it is 0.
#[unsafe(no_mangle)]
pub extern "C" fn md_witness(
    record: &RecordWords,
    nodes: &[u32],
    node: u32,
    assignment: &mut u64,
) -> u32
    ensures { (result, assignment.new) ≡ witnessed node «record».now nodes.now assignment.old }
{
    capi_nodes::md_witness(record, nodes, node, assignment)
}
