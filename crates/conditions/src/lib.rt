// Conditions: reduced ordered decision diagrams over lent node words, and the operations that build them.
#![tactic(auto)]

ghost use Rattle.std.specs.Prelude.{◌≡◌};
ghost use Rattle.operations.specs.User.{is_user};

mod builder;

pub use builder::Builder;
pub use diagrams::{evaluate, witness};
pub use meets::{neither, together};
pub use nodes::{Diagrams, clear, is_standard, store_terminals};
pub use operations::Store;
pub use show::put_condition;

// The computed table: remembered answers of Ite, one to a number.
pub type Table = [u64; 32768];

// Whether an argument may name this node: below the count and on no index variable.
#[tactic(auto, unfolding(operations::specs::User::is_user))]
pub fn is_user(d: Diagrams, node: u32) -> bool
    ensures { result ≡ is_user d.entry.words.now d.entry.count node }
{
    node < d.count && 8 <= d.top(node)
}
