// A record, and the buffers that calls are lent.
use called::{Call, Done, Lent};
use std::io;
use std::io::Write;
use stored::{Item, RecordWords, Words, changed, length};

#[derive(Clone, Copy)]
pub struct Buffers {
    pub record: RecordWords,
    pub nodes: Words,
    pub list: Words,
    pub control: Words,
    pub address: Words,
    pub data: Words,
    pub ports: [u32; 128],
}

impl Buffers {
    // Puts words into a buffer: the first number says which.
    pub fn put(&mut self, x: Item) {
        match x.a {
            0 => stored::put(x, &mut self.nodes),
            1 => stored::put(x, &mut self.list),
            2 => stored::put(x, &mut self.control),
            3 => stored::put(x, &mut self.address),
            4 => stored::put(x, &mut self.data),
            _ => stored::put(x, &mut self.ports),
        }
    }

    // A call that is lent a node words and b list words.
    fn once(&mut self, x: Item) -> Done {
        let Buffers {
            record,
            nodes,
            list,
            control,
            address,
            data,
            ports,
        } = self;
        let m = length(x.a, nodes.len());
        let k = length(x.b, list.len());
        let lent = Lent {
            nodes: &mut nodes[..m],
            list: &mut list[..k],
            ports,
            enable: control,
            address,
            data,
        };
        called::make(x, record, lent)
    }

    // The same call f times, each from where the one before it left off, a read once; the last.
    fn repeat(&mut self, x: Item) -> Done {
        let mut done = Done { row: 0, out: 7 };
        let times = if Call::from(x.kind) == Call::Read {
            1
        } else {
            x.f
        };
        for _ in 0..times {
            done = self.once(x);
        }
        done
    }

    // A call and its line.
    pub fn call<W: Write>(&mut self, out: &mut W, x: Item) -> io::Result<()> {
        let before = *self;
        let done = self.repeat(x);
        stored::bytes(out, b"call")?;
        stored::word(out, x.g)?;
        stored::word(out, done.row)?;
        stored::word(out, done.out)?;
        stored::record(out, &self.record)?;
        changed(out, b"; nodes ", &before.nodes, &self.nodes)?;
        changed(out, b"; list ", &before.list, &self.list)?;
        changed(out, b"; data ", &before.data, &self.data)?;
        changed(out, b"; ports ", &before.ports, &self.ports)?;
        stored::bytes(out, b"\n")
    }
}
