// Tokens of a written formula, each with the spaces behind it. A number and an opener are judged as they are read.
#![tactic(auto)]

ghost use Rattle.std.specs.Prelude.{◌≡◌, ◌==◌, ℕ, suc, ◌<◌, ◌≤◌, length, get_or, drop, take_while, fold, ltb};
ghost use Rattle.std.specs.Char.{is_ascii_digit};
ghost use Rattle.formulas.specs.Reading as reading;
ghost use Rattle.conditions.specs.User.{is_user};
ghost use Rattle.tokens.specs.Contract.{Left, starts, value_of, rest_of, joined_to, joined_up, NumberIs, kept, TookAt, NumberTook, number_token, within_table, arrow_token, when_token, opener_token};

use conditions::Diagrams;
use refusals::Refusal;

// A token that was read: its number, and the place behind it and its spaces.
#[derive(Clone, Copy)]
pub struct Token {
    pub at: usize,
    pub number: u32,
}

// A fault of a text: the row that refuses it, and its place.
#[derive(Clone, Copy)]
pub struct Fault {
    pub refusal: Refusal,
    pub at: usize,
}

// The place behind digits, and their value, where it is below 4,294,967,296.
#[derive(Clone, Copy)]
struct Number {
    end: usize,
    value: Option<u32>,
}

// Whether this byte stands here.
pub fn stands(text: &[u8], at: usize, c: u8) -> bool
    ensures { result ≡ starts c (drop at text.now) }
{
    text.get(at) == Some(&c)
}

// How many spaces a text begins with.
fn count_spaces(text: &[u8]) -> usize
    ensures { result ≡ length (take_while (λ c. c == 32) text.now) }
{
    text.iter().take_while(|c| **c == b' ').count()
}

// How many digits it begins with.
fn count_digits(text: &[u8]) -> usize
    ensures { result ≡ length (take_while is_ascii_digit text.now) }
{
    text.iter().take_while(|c| c.is_ascii_digit()).count()
}

// The place behind the spaces that stand here.
pub fn spaces(text: &[u8], at: usize) -> usize
    requires { at ≤ length text.now }
    ensures { Left text.now result (reading.spaces (drop at text.now)) }
{
    at + count_spaces(&text[at..])
}

// A digit joined to a value, or, where that is past 4,294,967,296, to this number: what they make is past it then too. No Option of a value: by one a digit of a number that is below takes twice the time.
fn join(value: u64, c: u8) -> u64
    ensures { result ≡ joined_up value c }
{
    10 * value.min(4294967296) + u64::from(c.saturating_sub(b'0'))
}

// The value of digits, or a number past 4,294,967,295 where it is.
fn joined_all(digits: &[u8]) -> u64
    ensures { result ≡ fold joined_up 0 digits.now }
{
    digits.iter().fold(0, |v, c| join(v, *c))
}

// The value of digits, where it is below 4,294,967,296.
fn value_of(digits: &[u8]) -> Option<u32>
    ensures { result ≡ fold joined_to (Some 0) digits.now }
{
    u32::try_from(joined_all(digits)).ok()
}

// The digits that stand here.
fn read_number(text: &[u8], at: usize) -> Number
    requires { at ≤ length text.now }
    ensures { NumberIs text.now (drop at text.now) result }
{
    let rest = &text[at..];
    let many = count_digits(rest);
    Number {
        end: at + many,
        value: value_of(&rest[..many]),
    }
}

// The number behind the letter at this place: whether digits stand there, and whether their value is good.
fn number_token(text: &[u8], at: usize, end: usize, good: Option<u32>) -> Result<Token, Fault>
    requires { (at < length text.now) × Left text.now end (rest_of (drop (suc at) text.now)) }
    ensures { NumberTook text.now at good result }
{
    if end == at + 1 {
        return Err(Fault {
            refusal: Refusal::Language,
            at: end,
        });
    }
    match good {
        Some(number) => Ok(Token {
            at: spaces(text, end),
            number,
        }),
        None => Err(Fault {
            refusal: Refusal::Language,
            at,
        }),
    }
}

// A value, if it is the number of a predicate of a table of so many.
fn good_predicate(value: Option<u32>, predicates: usize) -> Option<u32>
    ensures { result ≡ kept (λ p. ltb p predicates) value }
{
    value.filter(|p| (*p as usize) < predicates)
}

// A value, if it is the number of a node that 5 accepts.
fn good_node(d: Diagrams, value: Option<u32>) -> Option<u32>
    ensures { result ≡ kept (is_user d.entry.words.now d.entry.count) value }
{
    let node = value?;
    conditions::is_user(d, node).then_some(node)
}

// `m` and its number, at the letter: a predicate of a table of so many.
pub fn predicate_token(text: &[u8], at: usize, predicates: usize) -> Result<Token, Fault>
    requires { at < length text.now }
    ensures { TookAt text.now result (number_token (within_table predicates) (get_or text.now at 0) (drop (suc at) text.now)) }
{
    let n = read_number(text, at + 1);
    number_token(text, at, n.end, good_predicate(n.value, predicates))
}

// `b` and its number, at the letter: a node that 5 accepts.
fn node_token(text: &[u8], at: usize, d: Diagrams) -> Result<Token, Fault>
    requires { at < length text.now }
    ensures { TookAt text.now result (number_token (is_user d.entry.words.now d.entry.count) (get_or text.now at 0) (drop (suc at) text.now)) }
{
    let n = read_number(text, at + 1);
    number_token(text, at, n.end, good_node(d, n.value))
}

// The arrow behind a node's number, where so many more may be open.
fn arrow_token(text: &[u8], t: Token, allowed: u32) -> Result<Token, Fault>
    requires { t.at ≤ length text.now }
    ensures { TookAt text.now result (arrow_token allowed t.number (drop t.at text.now)) }
{
    let at = t.at;
    if !stands(text, at, b'-') {
        return Err(Fault {
            refusal: Refusal::Language,
            at,
        });
    }
    if !stands(text, at + 1, b'>') {
        return Err(Fault {
            refusal: Refusal::Language,
            at: at + 1,
        });
    }
    if allowed == 0 {
        return Err(Fault {
            refusal: Refusal::Depth,
            at,
        });
    }
    Ok(Token {
        at: spaces(text, at + 2),
        number: t.number,
    })
}

// `b`, its number and the arrow, at the letter.
pub fn when_token(text: &[u8], at: usize, d: Diagrams, allowed: u32) -> Result<Token, Fault>
    requires { at < length text.now }
    ensures { TookAt text.now result (when_token (is_user d.entry.words.now d.entry.count) allowed (get_or text.now at 0) (drop (suc at) text.now)) }
{
    let t = node_token(text, at, d)?;
    arrow_token(text, t, allowed)
}

// `N` or `(`, where so many more may be open.
pub fn opener_token(text: &[u8], at: usize, allowed: u32) -> Result<Token, Fault>
    requires { at < length text.now }
    ensures { TookAt text.now result (opener_token allowed (get_or text.now at 0) (drop (suc at) text.now)) }
{
    if allowed == 0 {
        return Err(Fault {
            refusal: Refusal::Depth,
            at,
        });
    }
    Ok(Token {
        at: spaces(text, at + 1),
        number: 0,
    })
}
