// The calls of the model by their kind, on lent slices, for the program that runs stored calls.
#![tactic(auto)]

use stored::{Item, RecordWords, joined, length};

#[derive(Clone, Copy, PartialEq, Eq)]
pub enum Call {
    Write,
    Read,
    Assert,
    Check,
    Fresh,
    Evaluate,
    Variable,
    Ite,
}

impl From<u32> for Call {
    fn from(kind: u32) -> Call {
        match kind {
            1 => Call::Write,
            2 => Call::Read,
            3 => Call::Assert,
            4 => Call::Check,
            5 => Call::Fresh,
            6 => Call::Evaluate,
            7 => Call::Variable,
            _ => Call::Ite,
        }
    }
}

// What a call is lent beside the record. Those of a node are lent no more than nodes, Fresh the ports too.
#[derive(Drop)]
pub struct Lent<'a> {
    pub nodes: &'a mut [u32],
    pub list: &'a mut [u32],
    pub ports: &'a mut [u32; 128],
    pub enable: &'a [u32],
    pub address: &'a [u32],
    pub data: &'a mut [u32],
}

// What a call returned, and its out-word, which is 7 before.
#[derive(Clone, Copy)]
pub struct Done {
    pub row: u32,
    pub out: u32,
}

// Makes a call. An access's enable, address and data have the lengths c, d and e; c is b of an assert or a check, f the port of a read.
// Of the other calls, b, c and d are n and w, a node and the halves of an assignment, a variable, or f, g and h.
pub fn make(x: Item, record: &mut RecordWords, lent: Lent) -> Done {
    let Lent {
        nodes,
        list,
        ports,
        enable,
        address,
        data,
    } = lent;
    let e = length(x.c, enable.len());
    let a = length(x.d, address.len());
    let d = length(x.e, data.len());
    let enable = &enable[..e];
    let address = &address[..a];
    let data = &mut data[..d];
    let mut out: u32 = 7;
    let row = match Call::from(x.kind) {
        Call::Write => capi::md_write(record, nodes, list, enable, address, data, &mut out),
        Call::Read => capi::md_read(record, nodes, list, ports, x.f, enable, address, data),
        Call::Assert => capi::md_assert(record, nodes, list, x.c, address, data, &mut out),
        Call::Check => capi::md_check(record, nodes, list, x.c, address, data),
        Call::Fresh => capi_nodes::md_fresh(record, x.b, x.c, nodes, ports),
        Call::Evaluate => {
            capi_nodes::md_evaluate(record, nodes, x.b, joined(x.c, x.d), &mut out)
        }
        Call::Variable => capi_nodes::md_variable(record, nodes, x.b, &mut out),
        Call::Ite => capi_nodes::md_ite(record, nodes, x.b, x.c, x.d, &mut out),
    };
    Done { row, out }
}
