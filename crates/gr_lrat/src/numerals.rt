// The tokens of a log as numbers.
ghost use Rattle.std.specs.Prelude.{◌≡◌, ◌≤◌, ◌-◌};
ghost use Rattle.gr_logic.specs.Literals.{Literal};
ghost use Rattle.gr_lrat.specs.Lines.{begins_comment, is_byte};
ghost use Rattle.gr_lrat.specs.Numerals.{id_of, literal_said, signed_literal};
ghost use Rattle.gr_lrat.specs.Counts.{SaysInList, id_of_count};

use gr_logic::Lit;
use gr_text::count;

/// One more than the greatest id: values are read up to here.
const CAP: u64 = 9_223_372_036_854_775_808;

/// What a token says in a list of ids.
#[derive(Clone, Copy, Debug, PartialEq, Eq)]
pub enum ListToken {
    Id(u64),
    Negative,
    Other,
}

/// The id of a number's capped value.
pub fn id_of_count(count: Option<u64>) -> Option<u64>
    ensures { result ≡ id_of_count count }
{
    match count {
        Some(size) if size > 0 && size < CAP => Some(size),
        _ => None,
    }
}

/// The id that the token says.
#[tactic(auto, using(crate::proofs::Counted::counted_id))]
fn id(token: &[u8]) -> Option<u64>
    ensures { result ≡ id_of token.now }
{
    id_of_count(count(token))
}

/// What the token says in a list of ids.
pub fn list_token(token: &[u8]) -> ListToken
    ensures { SaysInList result token.now }
{
    if let [b'-', digits @ ..] = token {
        return if count(digits).is_some() {
            ListToken::Negative
        } else {
            ListToken::Other
        };
    }
    match id(token) {
        Some(id) => ListToken::Id(id),
        None => ListToken::Other,
    }
}

/// The literal of these digits and this sign.
fn signed(digits: &[u8], positive: bool) -> Option<Lit>
    ensures { result ≡ signed_literal positive digits.now }
{
    match count(digits) {
        Some(size) if size > 0 && size <= 1_000_000 => Some(literal(size as u32, positive)),
        _ => None,
    }
}

/// The literal of a variable and a sign.
fn literal(var: u32, positive: bool) -> Lit
    requires some { 1 ≤ var }
    requires small { var ≤ 1_000_000 }
    ensures { result ≡ record { index = var - 1; positive = positive } }
{
    Lit::from_code(if positive { 2 * var - 2 } else { 2 * var - 1 })
}

/// The literal that the token says.
pub fn literal_said(token: &[u8]) -> Option<Lit>
    ensures { result ≡ literal_said token.now }
{
    match token {
        [b'-', digits @ ..] => signed(digits, false),
        _ => signed(token, true),
    }
}

/// Whether the token is this byte.
pub fn is_byte(token: &[u8], wanted: u8) -> bool
    ensures { result ≡ is_byte wanted token.now }
{
    match token {
        [byte] => *byte == wanted,
        _ => false,
    }
}

/// Whether the token begins a comment.
pub fn begins_comment(token: &[u8]) -> bool
    ensures { result ≡ begins_comment token.now }
{
    match token {
        [byte, ..] => *byte == b'c',
        [] => false,
    }
}
