// The accesses that a formula lists, made one after the other, up to the first that is refused.
#![tactic(auto)]

ghost use Rattle.std.specs.Prelude.{◌≡◌, List, ℕ, length, refl};
ghost use Rattle.std.proofs.Common.{◌∙◌};
ghost use Rattle.formula_calls.specs.Call.{Making, asserting, checking, predicate_words, address_at, word_at};
ghost use Rattle.rows.specs.Contract.{state_of};
ghost use Rattle.making.specs.Contract.{triple_at, Named, MayAccess, access_of, Accessed, MayMake, MadeAs};

use building::ControlNode;
use conditions::Table;
use model::Fields;
use refusals::Refusal;

// How the accesses of a formula are made.
pub trait Access {
    // Whether they are asserts or checks; the list that they are lent; and that a lent list is the same.
    ghost kind: { Making };

    ghost lent: { Self → List ℕ };

    ghost keeps: { Self → Self → Type 0 };

    fn list(&self) -> &[u32]
        ensures { result.now ≡ lent self.now };

    // An access to a valid memory. After one that is accepted the table is right for the next.
    fn access(
        &mut self,
        r: &mut Fields,
        words: &mut [u32],
        table: &mut Table,
        b: ControlNode,
        address: &[u32],
        data: &[u32],
    ) -> Result<(), Refusal>
        requires { MayAccess r.old words.old (lent self.old) table.old address.now «data».now }
        ensures same { keeps self.old self.new }
        ensures made { Accessed (access_of kind b.0 address.now «data».now) (state_of r.old words.old (lent self.old)) (state_of r.new words.new (lent self.new)) result table.new };

    ghost keeps_refl: { (x : Self) → keeps x x };

    ghost keeps_trans: { (x y z : Self) → keeps x y → keeps y z → keeps x z };
}

// Asserts, which enter the list that they are lent.
#[derive(Drop)]
pub struct Asserts<'a> {
    pub list: &'a mut [u32],
}

impl<'a> Access for Asserts<'a> {
    ghost kind = { asserting };

    ghost lent = { λ s. s.list.now };

    ghost keeps = { λ s t. (t.list.ghost_name ≡ s.list.ghost_name) × (length t.list.now ≡ length s.list.now) };

    fn list(&self) -> &[u32] {
        self.list
    }

    fn access(
        &mut self,
        r: &mut Fields,
        words: &mut [u32],
        table: &mut Table,
        b: ControlNode,
        address: &[u32],
        data: &[u32],
    ) -> Result<(), Refusal> {
        assert_access::assert_on(r, words, self.list, table, b, address, data)?;
        Ok(())
    }

    ghost keeps_refl = { λ x. (refl, refl) };

    ghost keeps_trans = { λ x y z p q. (q.0 ∙ p.0, q.1 ∙ p.1) };
}

// Checks of the list that they are lent.
#[derive(Clone, Copy)]
pub struct Checks<'a> {
    pub list: &'a [u32],
}

impl<'a> Access for Checks<'a> {
    ghost kind = { checking };

    ghost lent = { λ s. s.list.now };

    ghost keeps = { λ s t. t.list.now ≡ s.list.now };

    fn list(&self) -> &[u32] {
        self.list
    }

    fn access(
        &mut self,
        r: &mut Fields,
        words: &mut [u32],
        table: &mut Table,
        b: ControlNode,
        address: &[u32],
        data: &[u32],
    ) -> Result<(), Refusal> {
        check_access::check_on(r, words, self.list, table, b, address, data)
    }

    ghost keeps_refl = { λ x. refl };

    ghost keeps_trans = { λ x y z p q. q ∙ p };
}

// By what an access is refused, and how many were made before it.
#[derive(Clone, Copy)]
pub struct Stopped {
    pub refusal: Refusal,
    pub made: usize,
}

// The words of a predicate: an address, and data.
pub fn predicate_words(r: Fields) -> usize
    ensures { result ≡ predicate_words r }
{
    ranges::address_words(r.sizes) + ranges::cell_words(r.sizes)
}

// The address and the data of the predicate that triple i names.
fn named_at<'a>(
    r: Fields,
    predicates: &'a [u32],
    triples: &[u32],
    i: usize,
) -> (&'a [u32], &'a [u32])
    requires { Named r predicates.now triples.now i }
    ensures address { result.0.now ≡ address_at r predicates.now (triple_at triples.now i).named }
    ensures data { result.1.now ≡ word_at r predicates.now (triple_at triples.now i).named }
{
    let size = predicate_words(r);
    let at = (triples[3 * i + 2] as usize) * size;
    let word = at + ranges::address_words(r.sizes);
    (&predicates[at..word], &predicates[word..at + size])
}

// The accesses by the first so many triples. What the table holds afterwards is left open: it is its caller's, for one formula, and nothing is built after these.
pub fn make<A: Access>(
    by: &mut A,
    r: &mut Fields,
    words: &mut [u32],
    table: &mut Table,
    predicates: &[u32],
    triples: &[u32],
    listed: usize,
) -> Result<(), Stopped>
    requires { MayMake r.old words.old (A.lent by.old) table.old predicates.now triples.now listed }
    ensures same { A.keeps by.old by.new }
    ensures made { MadeAs A.kind r.old words.old (A.lent by.old) predicates.now triples.now listed r.new words.new (A.lent by.new) result }
{
    for made in 0..listed {
        let b = ControlNode(triples[3 * made + 1]);
        let (address, data) = named_at(*r, predicates, triples, made);
        let x = by.access(r, words, table, b, address, data);
        if let Err(refusal) = x {
            return Err(Stopped { refusal, made });
        }
    }
    Ok(())
}
