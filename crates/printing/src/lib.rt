// The lines of text that a case prints, each by a writer.
#![tactic(auto)]

ghost use Rattle.std.specs.Prelude.{◌≡◌, ℕ, ◌+◌, ◌*◌, ◌/◌, ◌<◌, ◌≤◌, ◌++◌, length, get_or};
ghost use Rattle.text.specs.Decimal.{decimal};
ghost use Rattle.text.specs.Writer.{Wrote};
ghost use Rattle.conditions.specs.Show.{text_of};
ghost use Rattle.lines.specs.Lines.{line, write_line, idle_line, bit_text, bits_text, read_line, assert_line, check_line, end_line, refused_line};

use conditions::{Diagrams, put_condition};
use text::Writer;

// A word, a number and the end of the line.
fn put_numbered(w: &mut Writer, word: &[u8], number: u32)
    ensures { Wrote w.old w.new (line (word.now ++ decimal number)) }
{
    w.put_bytes(word);
    w.put_decimal(number);
    w.put_byte(b'\n');
}

// A word, a condition and the end of the line.
fn put_told(w: &mut Writer, word: &[u8], d: Diagrams, condition: u32)
    requires { condition < d.count }
    ensures { Wrote w.old w.new (line (word.now ++ text_of d.entry.words.now condition)) }
{
    w.put_bytes(word);
    put_condition(w, d, condition);
    w.put_byte(b'\n');
}

// A write's entry place.
#[tactic(auto, unfolding(lines::specs::Lines::write_line))]
pub fn put_write(w: &mut Writer, place: u32)
    ensures { Wrote w.old w.new (write_line place) }
{
    put_numbered(w, b"write ", place);
}

// An idle write.
#[tactic(auto, unfolding(lines::specs::Lines::idle_line))]
pub fn put_idle(w: &mut Writer)
    ensures { Wrote w.old w.new idle_line }
{
    w.put_bytes(b"write idle\n");
}

// One bit of a word: a space, h, a colon, l.
fn put_bit(w: &mut Writer, d: Diagrams, h: u32, l: u32)
    requires { (h < d.count) × (l < d.count) }
    ensures { Wrote w.old w.new (bit_text d.entry.words.now h l) }
{
    w.put_byte(b' ');
    put_condition(w, d, h);
    w.put_byte(b':');
    put_condition(w, d, l);
}

// The bits of a word, highest first.
fn put_bits(w: &mut Writer, d: Diagrams, word: &[u32])
    requires { (i : ℕ) → i < length word.now → get_or word.now i 0 < d.count }
    ensures { Wrote w.old w.new (bits_text d.entry.words.now word.now (length word.now / 2)) }
{
    for i in (0..word.len() / 2).rev() {
        put_bit(w, d, word[2 * i], word[2 * i + 1]);
    }
}

// A read's answer word: h:l for each bit, highest first.
pub fn put_read(w: &mut Writer, d: Diagrams, word: &[u32])
    requires { (i : ℕ) → i < length word.now → get_or word.now i 0 < d.count }
    ensures { Wrote w.old w.new (read_line d.entry.words.now word.now) }
{
    w.put_bytes(b"read");
    put_bits(w, d, word);
    w.put_byte(b'\n');
}

// Whether an assert was entered or kept, and the assert condition.
pub fn put_assert(w: &mut Writer, d: Diagrams, entered: bool, condition: u32)
    requires { condition < d.count }
    ensures { Wrote w.old w.new (assert_line d.entry.words.now entered condition) }
{
    let word: &[u8] = if entered {
        b"assert entered "
    } else {
        b"assert kept "
    };
    put_told(w, word, d, condition);
}

// The check condition.
#[tactic(auto, unfolding(lines::specs::Lines::check_line))]
pub fn put_check(w: &mut Writer, d: Diagrams, condition: u32)
    requires { condition < d.count }
    ensures { Wrote w.old w.new (check_line d.entry.words.now condition) }
{
    put_told(w, b"check ", d, condition);
}

// The entry count, at the end.
#[tactic(auto, unfolding(lines::specs::Lines::end_line))]
pub fn put_end(w: &mut Writer, entries: u32)
    ensures { Wrote w.old w.new (end_line entries) }
{
    put_numbered(w, b"end ", entries);
}

// The number of a refusal, and how many accesses were printed before.
pub fn put_refused(w: &mut Writer, number: u32, after: u32)
    ensures { Wrote w.old w.new (refused_line number after) }
{
    w.put_bytes(b"refused ");
    w.put_decimal(number);
    w.put_bytes(b" after ");
    w.put_decimal(after);
    w.put_byte(b'\n');
}
