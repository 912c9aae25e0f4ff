// A condition's text.
#![tactic(auto)]

ghost use Rattle.std.specs.Prelude.{◌≡◌, ◌<◌};
ghost use Rattle.text.specs.Writer.{Wrote};
ghost use Rattle.show.specs.Show.{text_of};

use nodes::Diagrams;
use text::Writer;

// A node's text: `0`, `1` or `(v low high)`. A full text ends the walk at once, so that a text of 2^50 bytes costs no more than
// the buffer's length.
#[tactic(auto, using(crate::proofs::ShowLaws::low_below, crate::proofs::ShowLaws::high_below))]
pub fn put_condition(w: &mut Writer, d: Diagrams, node: u32)
    requires { node < d.count }
    ensures { Wrote w.old w.new (text_of d.entry.words.now node) }
{
    if w.text.full {
        return;
    }
    if node < 2 {
        w.put_byte(b'0' + node as u8);
        return;
    }
    w.put_byte(b'(');
    w.put_decimal(d.top(node));
    w.put_byte(b' ');
    put_condition(w, d, d.low(node));
    w.put_byte(b' ');
    put_condition(w, d, d.high(node));
    w.put_byte(b')');
}
