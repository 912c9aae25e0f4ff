// The read ports: what they hold, tested, made anew, and replaced.
#![tactic(auto)]

ghost use Rattle.std.specs.Prelude.{◌≡◌, ℕ, ◌+◌, ◌<◌, ◌≤◌, length, get_or};
ghost use Rattle.nodes.specs.Search.{every};
ghost use Rattle.conditions.specs.User.{is_user};
ghost use Rattle.model.specs.Record.{port_at, replaced, fresh_ports};

use conditions::Diagrams;

// Four read ports of 32 words; the held word of a port is the first 2w of its own.
#[derive(Clone, Copy)]
pub struct Ports {
    pub words: [u32; 128],
}

// Row 3 of the ports: whether row 5 accepts each of the words that the four hold, k each.
pub fn all_name_nodes(d: Diagrams, ports: &[u32], k: usize) -> bool
    requires { (k ≤ 32) × (length ports.now ≡ 128) }
    ensures { result ≡ every (λ (p : ℕ). every (λ (i : ℕ). is_user d.entry.words.now d.entry.count (get_or ports.now (port_at p + i) 0)) 0 k) 0 4 }
{
    for p in 0..4 {
        let at = p * 32;
        if !rows::all_users(d, &ports[at..at + k]) {
            return false;
        }
    }
    true
}

// Every word the node 1: each port holds X.
pub fn make_fresh(ports: &mut [u32; 128])
    ensures { ports.new ≡ fresh_ports }
{
    *ports = [1; 128];
}

// A port's held word replaced by the read that uses it.
pub fn replace(ports: &mut Ports, port: usize, word: &[u32])
    requires { (port < 4) × (length word.now ≤ 32) }
    ensures { ports.new.words ≡ replaced ports.old.words port word.now }
{
    rows::copy(&mut ports.words, port * 32, word);
}

// The same over plain words, as C lends them: its callers hold no record of ports.
pub fn replace_held(words: &mut [u32; 128], port: usize, word: &[u32])
    requires { (port < 4) × (length word.now ≤ 32) }
    ensures { words.new ≡ replaced words.old port word.now }
{
    let mut ports = Ports { words: *words };
    replace(&mut ports, port, word);
    *words = ports.words;
}
