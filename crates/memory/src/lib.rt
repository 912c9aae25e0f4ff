// The calls, as methods on the record: each hands its fields on to the crate below that does it, and says its answer.
#![tactic(auto)]

ghost use Rattle.std.specs.Prelude.{◌≡◌, length};
ghost use Rattle.conditions.specs.Contract.{Sound};
ghost use Rattle.model.specs.Record.{address_words, cell_words, data_words};
ghost use Rattle.model.specs.Step.{begin, write, assert, check, evaluate, variable, ite, fresh};
ghost use Rattle.model.specs.Frames.{Valid, PortsValid};
ghost use Rattle.node_calls.specs.Contract.{freshed};
ghost use Rattle.memory.specs.Contract.{state_of, memory_of, fresh_answer, write_answer, assert_answer, check_answer, node_answer, value_answer, AnswersAnyPorts, AnswersOnAnyPorts, AnswersNoList, ReadAnswers, ReadAnswersOn};

use assert_access::Asserted;
use building::ControlNode;
use conditions::Table;
use model::Fields;
use refusals::Refusal;
use semantics::Sizes;

// The record of a memory, on which the calls are methods.
#[derive(Clone, Copy)]
pub struct Record {
    pub fields: Fields,
}

// The record after a call, and the call's answer: 01 wants the calls as methods by value.
#[derive(Clone, Copy)]
pub struct Called<A> {
    pub after: Record,
    pub answer: Result<A, Refusal>,
}

impl Record {
    // Fresh: a memory with no entries and both conditions 1, over node words that hold the two terminals, and ports that hold X.
    pub fn fresh(self, words: &mut [u32], ports: &mut [u32; 128], z: Sizes) -> Called<()>
        ensures { freshed (fresh self.fields z words.old ports.old) ≡ (fresh_answer result.answer, result.after.fields, words.new, ports.new) }
    {
        let mut fields = self.fields;
        let answer = node_calls::fresh(&mut fields, words, ports, z);
        Called {
            after: Record { fields },
            answer,
        }
    }

    // The value of node f under the 64-bit assignment a.
    pub fn evaluate(self, words: &[u32], f: u32, a: u64) -> Called<bool>
        ensures { AnswersNoList (evaluate f a) self words.now result.after words.now (value_answer result.answer) }
    {
        let answer = node_calls::evaluate(self.fields, words, f, a);
        Called {
            after: self,
            answer,
        }
    }

    // The node of variable v.
    pub fn variable(self, words: &mut [u32], v: u32) -> Called<u32>
        ensures { AnswersNoList (variable v) self words.old result.after words.new (node_answer result.answer) }
    {
        let mut fields = self.fields;
        let answer = node_calls::variable(&mut fields, words, v);
        Called {
            after: Record { fields },
            answer,
        }
    }

    // The node of Ite(f, g, h).
    pub fn ite(self, words: &mut [u32], f: u32, g: u32, h: u32) -> Called<u32>
        ensures { AnswersNoList (ite f g h) self words.old result.after words.new (node_answer result.answer) }
    {
        let mut fields = self.fields;
        let answer = node_calls::ite(&mut fields, words, f, g, h);
        Called {
            after: Record { fields },
            answer,
        }
    }

    // A write to a valid memory: rows 5 and 6; then it is idle, or rows 9 and 8, and the entry. It answers its entry's place, or none where it is idle.
    pub fn write_on(
        &mut self,
        words: &mut [u32],
        list: &mut [u32],
        table: &mut Table,
        enable: &[u32],
        address: &[u32],
        data: &[u32],
    ) -> Result<Option<u32>, Refusal>
        requires { Valid (memory_of self.old words.old list.old) × Sound words.old table.old (begin self.old.fields) × (length enable.now ≡ 2) × (length address.now ≡ address_words self.old.fields) × (length «data».now ≡ data_words self.old.fields) }
        ensures { AnswersOnAnyPorts (write enable.now address.now «data».now) self.old words.old list.old self.new words.new list.new (write_answer result) table.new }
    {
        write_access::write_on(&mut self.fields, words, list, table, enable, address, data)
    }

    // Write(c, a, d). It answers its entry's place, or none where it is idle.
    pub fn write(
        self,
        words: &mut [u32],
        list: &mut [u32],
        enable: &[u32],
        address: &[u32],
        data: &[u32],
    ) -> Called<Option<u32>>
        ensures { AnswersAnyPorts (write enable.now address.now «data».now) self words.old list.old result.after words.new list.new (write_answer result.answer) }
    {
        let mut fields = self.fields;
        let answer = write_access::write(&mut fields, words, list, enable, address, data);
        Called {
            after: Record { fields },
            answer,
        }
    }

    // A read of a valid memory with valid ports: rows 14 and 5 to 9, and the word, which its port then holds.
    pub fn read_on(
        &mut self,
        words: &mut [u32],
        list: &[u32],
        table: &mut Table,
        ports: &mut [u32; 128],
        port: u32,
        enable: &[u32],
        address: &[u32],
        answer: &mut [u32],
    ) -> Result<(), Refusal>
        requires { Valid (state_of self.old words.old list.now ports.old) × PortsValid (state_of self.old words.old list.now ports.old) × Sound words.old table.old (begin self.old.fields) × (length enable.now ≡ 2) × (length address.now ≡ address_words self.old.fields) × (length answer.old ≡ data_words self.old.fields) }
        ensures { ReadAnswersOn self.old words.old list.now ports.old port enable.now address.now answer.old self.new words.new ports.new answer.new result table.new }
    {
        read_access::read_on(
            &mut self.fields,
            words,
            list,
            table,
            ports,
            port,
            enable,
            address,
            answer,
        )
    }

    // Read(e, a), at a port.
    pub fn read(
        self,
        words: &mut [u32],
        list: &[u32],
        ports: &mut [u32; 128],
        port: u32,
        enable: &[u32],
        address: &[u32],
        answer: &mut [u32],
    ) -> Called<()>
        ensures { ReadAnswers self words.old list.now ports.old port enable.now address.now answer.old result.after words.new ports.new answer.new result.answer }
    {
        let mut fields = self.fields;
        let answer = read_access::read(
            &mut fields,
            words,
            list,
            ports,
            port,
            enable,
            address,
            answer,
        );
        Called {
            after: Record { fields },
            answer,
        }
    }

    // A check of a valid memory: rows 5 to 9, and the check condition.
    pub fn check_on(
        &mut self,
        words: &mut [u32],
        list: &[u32],
        table: &mut Table,
        b: ControlNode,
        address: &[u32],
        data: &[u32],
    ) -> Result<(), Refusal>
        requires { Valid (memory_of self.old words.old list.now) × Sound words.old table.old (begin self.old.fields) × (length address.now ≡ address_words self.old.fields) × (length «data».now ≡ cell_words self.old.fields) }
        ensures { AnswersOnAnyPorts (check b.0 address.now «data».now) self.old words.old list.now self.new words.new list.now (check_answer result) table.new }
    {
        check_access::check_on(&mut self.fields, words, list, table, b, address, data)
    }

    // Check(b, a, d).
    pub fn check(
        self,
        words: &mut [u32],
        list: &[u32],
        b: ControlNode,
        address: &[u32],
        data: &[u32],
    ) -> Called<()>
        ensures { AnswersAnyPorts (check b.0 address.now «data».now) self words.old list.now result.after words.new list.now (check_answer result.answer) }
    {
        let mut fields = self.fields;
        let answer = check_access::check(&mut fields, words, list, b, address, data);
        Called {
            after: Record { fields },
            answer,
        }
    }

    // An assert to a valid memory: rows 5 to 9, the assert condition, and the entry where it is not kept.
    pub fn assert_on(
        &mut self,
        words: &mut [u32],
        list: &mut [u32],
        table: &mut Table,
        b: ControlNode,
        address: &[u32],
        data: &[u32],
    ) -> Result<Asserted, Refusal>
        requires { Valid (memory_of self.old words.old list.old) × Sound words.old table.old (begin self.old.fields) × (length address.now ≡ address_words self.old.fields) × (length «data».now ≡ cell_words self.old.fields) }
        ensures { AnswersOnAnyPorts (assert b.0 address.now «data».now) self.old words.old list.old self.new words.new list.new (assert_answer result) table.new }
    {
        assert_access::assert_on(&mut self.fields, words, list, table, b, address, data)
    }

    // Assert(b, a, d).
    pub fn assert(
        self,
        words: &mut [u32],
        list: &mut [u32],
        b: ControlNode,
        address: &[u32],
        data: &[u32],
    ) -> Called<Asserted>
        ensures { AnswersAnyPorts (assert b.0 address.now «data».now) self words.old list.old result.after words.new list.new (assert_answer result.answer) }
    {
        let mut fields = self.fields;
        let answer = assert_access::assert(&mut fields, words, list, b, address, data);
        Called {
            after: Record { fields },
            answer,
        }
    }
}
