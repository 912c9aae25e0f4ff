// A text at its limits: no room, one byte too little, just enough, more than enough, and texts that begin elsewhere or are full.
#![tactic(auto)]

ghost use Rattle.std.specs.Prelude.{◌≡◌, ◌∷◌, ◌≤◌, take, replicate};
ghost use Rattle.text.specs.Text.{out, appended};
ghost use Rattle.text.specs.Decimal.{decimal};
ghost use Rattle.text.specs.Writer.{out_of};

use check::{expect, same};
use text::{Text, Writer};

// The bytes are `want`, and the text has `at` and `full`.
fn text_is(w: &Writer, want: &[u8], at: usize, full: bool)
    requires { out_of w.now ≡ out want.now (record { at = at; full = full }) }
{
    expect(same(w.buf, want));
    expect(w.text.at == at);
    expect(w.text.full == full);
}

// `ab`, a space and the number x, put after the text t, leave the bytes `want` and a text with `at` and `full`.
#[tactic(auto, unfolding(text::specs::Text::appended))]
fn leaves(buf: &mut [u8], t: Text, x: u32, want: &[u8], at: usize, full: bool)
    requires { appended (97 ∷ 98 ∷ 32 ∷ decimal x) (out buf.old t) ≡ out want.now (record { at = at; full = full }) }
{
    let mut w = Writer { buf, text: t };
    w.put_bytes(b"ab");
    w.put_byte(b' ');
    w.put_decimal(x);
    text_is(&w, want, at, full);
}

// The same in a buffer of `room` dots.
fn in_dots(room: usize, t: Text, x: u32, want: &[u8], at: usize, full: bool)
    requires { (room ≤ 16) × (appended (97 ∷ 98 ∷ 32 ∷ decimal x) (out (take room (replicate 16 46)) t) ≡ out want.now (record { at = at; full = full })) }
{
    let mut dots = [b'.'; 16];
    leaves(&mut dots[..room], t, x, want, at, full);
}

#[tactic(auto, unfolding(text::specs::Text::appended, text::specs::Text::put, text::specs::Text::written, text::specs::Decimal::decimal, text::specs::Decimal::digits))]
fn main() {
    let start = Text { at: 0, full: false };
    in_dots(0, start, 7, b"", 0, true);
    in_dots(1, start, 7, b"a", 1, true);
    in_dots(2, start, 7, b"ab", 2, true);
    in_dots(3, start, 7, b"ab ", 3, true);
    in_dots(4, start, 7, b"ab 7", 4, false);
    in_dots(6, start, 0, b"ab 0..", 4, false);
    in_dots(6, start, 9, b"ab 9..", 4, false);
    in_dots(6, start, 10, b"ab 10.", 5, false);
    in_dots(6, start, 99, b"ab 99.", 5, false);
    in_dots(6, start, 100, b"ab 100", 6, false);
    in_dots(5, start, 100, b"ab 10", 5, true);
    in_dots(12, start, 4294967295, b"ab 429496729", 12, true);
    in_dots(13, start, 4294967295, b"ab 4294967295", 13, false);
    in_dots(16, start, 4294967295, b"ab 4294967295...", 13, false);
    let inner = Text { at: 2, full: false };
    in_dots(8, inner, 10, b"..ab 10.", 7, false);
    let past = Text { at: 9, full: false };
    in_dots(8, past, 10, b"........", 9, true);
    let full = Text { at: 2, full: true };
    in_dots(8, full, 10, b"........", 2, true);
}
