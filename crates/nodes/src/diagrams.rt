// Lent words and the count of their nodes, in standard form.
ghost use Rattle.std.specs.Prelude.{◌≡◌, ◌<◌};
ghost use Rattle.nodes.specs.Words.{var_at, low_at, high_at};
ghost use Rattle.nodes.specs.Standard.{Standard};

use super::{high, is_standard, low, top};

// The nodes of decision diagrams, as lent words hold them: the words, and how many nodes are in use.
#[derive(Clone, Copy)]
pub struct Diagrams<'a> {
    pub words: &'a [u32],
    pub count: u32,
    pub ghost standard: { Standard words.now count },
}

impl<'a> Diagrams<'a> {
    ghost use Rattle.nodes.specs.Diagrams.{Reads};

    // Row 2: the words and the count as diagrams, where they are in standard form.
    pub fn read(words: &'a [u32], count: u32) -> Option<Diagrams<'a>>
        ensures { Reads words.now count result }
    {
        if is_standard(words, count) {
            Some(Diagrams { words, count })
        } else {
            None
        }
    }

    // A node's variable.
    pub fn top(self, node: u32) -> u32
        requires { node < self.count }
        ensures { result ≡ var_at self.entry.words.now node }
    {
        top(self.words, node)
    }

    // A node's low child.
    pub fn low(self, node: u32) -> u32
        requires { node < self.count }
        ensures { result ≡ low_at self.entry.words.now node }
    {
        low(self.words, node)
    }

    // A node's high child.
    pub fn high(self, node: u32) -> u32
        requires { node < self.count }
        ensures { result ≡ high_at self.entry.words.now node }
    {
        high(self.words, node)
    }
}
