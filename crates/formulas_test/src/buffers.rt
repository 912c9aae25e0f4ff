// A record, and the buffers that calls of a written formula are lent.
use std::io;
use std::io::Write;
use stored::{Bytes, Item, RecordWords, Words, changed, length};

#[derive(Clone, Copy)]
pub struct Buffers {
    pub record: RecordWords,
    pub nodes: Words,
    pub list: Words,
    pub text: Bytes,
    pub table: Words,
    pub answer: Words,
}

// What a call is lent beside the record.
#[derive(Drop)]
struct Lent<'a> {
    nodes: &'a mut [u32],
    list: &'a mut [u32],
    text: &'a [u8],
    table: &'a [u32],
    answer: &'a mut [u32],
}

// What a call returned, and its out-words, which are 7 before.
#[derive(Clone, Copy)]
struct Done {
    row: u32,
    listed: u64,
    made: u64,
    place: u64,
}

// A kind of 1 asserts, another checks.
fn make(kind: u32, record: &mut RecordWords, lent: Lent) -> Done {
    let Lent {
        nodes,
        list,
        text,
        table,
        answer,
    } = lent;
    let mut listed: u64 = 7;
    let mut made: u64 = 7;
    let mut place: u64 = 7;
    let row = if kind == 1 {
        capi_cases::md_assert_formula(
            record,
            nodes,
            list,
            text,
            table,
            answer,
            &mut listed,
            &mut made,
            &mut place,
        )
    } else {
        capi_cases::md_check_formula(
            record,
            nodes,
            list,
            text,
            table,
            answer,
            &mut listed,
            &mut made,
            &mut place,
        )
    };
    Done {
        row,
        listed,
        made,
        place,
    }
}

impl Buffers {
    // Puts words or bytes into a buffer: the first number says which.
    pub fn put(&mut self, x: Item) {
        match x.a {
            0 => stored::put(x, &mut self.nodes),
            1 => stored::put(x, &mut self.list),
            2 => stored::put(x, &mut self.text),
            3 => stored::put(x, &mut self.table),
            _ => stored::put(x, &mut self.answer),
        }
    }

    // A call that is lent a node words, b list words, c bytes of the text, d words of the table and e of the answer.
    fn once(&mut self, x: Item) -> Done {
        let Buffers {
            record,
            nodes,
            list,
            text,
            table,
            answer,
        } = self;
        let m = length(x.a, nodes.len());
        let k = length(x.b, list.len());
        let t = length(x.c, text.len());
        let p = length(x.d, table.len());
        let a = length(x.e, answer.len());
        let lent = Lent {
            nodes: &mut nodes[..m],
            list: &mut list[..k],
            text: &text[..t],
            table: &table[..p],
            answer: &mut answer[..a],
        };
        make(x.kind, record, lent)
    }

    // A call and its line.
    pub fn call<W: Write>(&mut self, out: &mut W, x: Item) -> io::Result<()> {
        let before = *self;
        let done = self.once(x);
        stored::bytes(out, b"call")?;
        stored::word(out, x.g)?;
        stored::word(out, done.row)?;
        stored::wide(out, done.listed)?;
        stored::wide(out, done.made)?;
        stored::wide(out, done.place)?;
        stored::record(out, &self.record)?;
        changed(out, b"; nodes ", &before.nodes, &self.nodes)?;
        changed(out, b"; list ", &before.list, &self.list)?;
        changed(out, b"; answer ", &before.answer, &self.answer)?;
        stored::bytes(out, b"\n")
    }
}
