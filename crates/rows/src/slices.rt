// The tests of rows 3, 5, 6 and 7 over slices.
ghost use Rattle.std.specs.Prelude.{◌≡◌, Bool, not, ℕ, ◌+◌, ◌*◌, ◌<◌, ◌≤◌, length, get_or};
ghost use Rattle.nodes.specs.Search.{every};
ghost use Rattle.conditions.specs.User.{is_user};
ghost use Rattle.conditions.specs.Meet.{neither, together};
ghost use Rattle.model.specs.Record.{h_at, l_at};
ghost use Rattle.rows.specs.Contract.{FirstNodes};

use building::ControlNode;
use conditions::Diagrams;

// Whether row 5 accepts each word. By place: every call with a list tests it whole, and by `all` it took a quarter more time.
pub fn all_users(d: Diagrams, slice: &[u32]) -> bool
    ensures { result ≡ every (λ (i : ℕ). is_user d.entry.words.now d.entry.count (get_or slice.now i 0)) 0 (length slice.now) }
{
    for i in 0..slice.len() {
        if !conditions::is_user(d, slice[i]) {
            return false;
        }
    }
    true
}

// Whether none of the first k pairs is at fault.
fn no_fault<F: Fn(u32, u32) -> bool>(count: u32, slice: &[u32], k: usize, fault: F) -> bool
    requires { ((h l : ℕ) → h < count → l < count → F.pre fault h l) × (2 * k ≤ length slice.now) × (k ≤ 16) × FirstNodes count (2 * k) slice.now }
    ensures { (test : ℕ → ℕ → Bool) → ((h l : ℕ) (b : Bool) → F.post fault h l b → b ≡ test h l) → result ≡ every (λ (i : ℕ). not (test (h_at slice.now i) (l_at slice.now i))) 0 k }
{
    for i in 0..k {
        if fault(slice[2 * i], slice[2 * i + 1]) {
            return false;
        }
    }
    true
}

// Whether no assignment makes one of the first k pairs neither.
pub fn legal_pairs(d: Diagrams, slice: &[u32], k: usize) -> bool
    requires { (2 * k ≤ length slice.now) × (k ≤ 16) × FirstNodes d.count (2 * k) slice.now }
    ensures { result ≡ every (λ (i : ℕ). not (neither d.entry.words.now (h_at slice.now i) (l_at slice.now i))) 0 k }
{
    no_fault(d.count, slice, k, |h, l| conditions::neither(d, h, l))
}

// Whether no assignment has b and an address bit that is X.
pub fn none_unknown(d: Diagrams, b: ControlNode, address: &[u32], n: usize) -> bool
    requires { (b.0 < d.count) × (2 * n ≤ length address.now) × (n ≤ 8) × FirstNodes d.count (2 * n) address.now }
    ensures { result ≡ every (λ (i : ℕ). not (together d.entry.words.now b.0 (h_at address.now i) (l_at address.now i))) 0 n }
{
    no_fault(
        d.count,
        address,
        n,
        |h, l| conditions::together(d, b.0, h, l),
    )
}
