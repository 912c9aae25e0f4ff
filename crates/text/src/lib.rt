// A text that grows in a lent buffer. It stops at the first byte that does not fit.
#![tactic(auto)]

ghost use Rattle.std.specs.Prelude.{◌≡◌, [], ◌∷◌};
ghost use Rattle.text.specs.Text.{growing};
ghost use Rattle.text.specs.Decimal.{decimal};
ghost use Rattle.text.specs.Writer.{out_of, Wrote};

// The place of the next byte, and whether a byte did not fit. No Option of a place: a full text has its place too, and put_byte cannot fail.
#[derive(Clone, Copy)]
pub struct Text {
    pub at: usize,
    pub full: bool,
}

// A lent buffer, and the text that grows in it.
#[derive(Drop)]
pub struct Writer<'a> {
    pub buf: &'a mut [u8],
    pub text: Text,
}

impl<'a> Writer<'a> {
    // A text that begins at the buffer's first byte.
    pub fn new(buf: &'a mut [u8]) -> Writer<'a>
        ensures begun { out_of result ≡ growing buf.old 0 }
        ensures same { result.buf.ghost_name ≡ buf.entry.ghost_name }
    {
        Writer {
            buf,
            text: Text { at: 0, full: false },
        }
    }

    #[tactic(auto, unfolding(crate::specs::Text::appended, crate::specs::Text::put, crate::specs::Text::written))]
    pub fn put_byte(&mut self, b: u8)
        ensures { Wrote self.old self.new (b ∷ []) }
    {
        if self.text.full {
            return;
        }
        let at = self.text.at;
        if at < self.buf.len() {
            self.buf[at] = b;
            self.text.at = at + 1;
        } else {
            self.text.full = true;
        }
    }

    // The bytes one by one, from the first.
    #[tactic(auto, using(crate::proofs::WriterLaws::wrote_nothing, crate::proofs::WriterLaws::wrote_next))]
    pub fn put_bytes(&mut self, s: &[u8])
        ensures { Wrote self.old self.new s.now }
    {
        for b in s {
            self.put_byte(*b);
        }
    }

    // A number in decimal, without leading zeros. Not by `write!`: where it answers an error, its contract does not say what the buffer holds.
    pub fn put_decimal(&mut self, x: u32)
        ensures { Wrote self.old self.new (decimal x) }
    {
        if x < 10 {
            self.put_byte(b'0' + x as u8);
        } else {
            self.put_decimal(x / 10);
            self.put_byte(b'0' + (x % 10) as u8);
        }
    }
}
