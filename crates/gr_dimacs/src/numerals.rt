// Tokens as numbers.
ghost use Rattle.std.specs.Prelude.{◌≡◌, not};
ghost use Rattle.gr_dimacs.specs.Numbers.{begins, number, digits_number};
ghost use Rattle.gr_dimacs.specs.Building.{SaysNumber};

use gr_text::count;

/// What a token says.
#[derive(Clone, Copy, Debug, PartialEq, Eq)]
pub enum Numeral {
    Zero,
    /// A literal, by the size of its number: sizes from 2^63 on are 2^63.
    Literal { size: u64, positive: bool },
    Other,
}

/// What the token says.
pub fn read_numeral(token: &[u8]) -> Numeral
    ensures { SaysNumber result (number token.now) }
{
    // Signs come in no order, so that a branch on them would often be guessed wrong.
    let negative = begins_minus(token);
    sized(behind_sign(token, negative), !negative)
}

/// Whether the token begins with a minus sign.
fn begins_minus(token: &[u8]) -> bool
    ensures { result ≡ begins 45 token.now }
{
    match token {
        [byte, ..] => *byte == b'-',
        [] => false,
    }
}

/// The token without its sign.
fn behind_sign(token: &[u8], negative: bool) -> &[u8]
    requires { negative ≡ begins 45 token.now }
    ensures { digits_number (not negative) result.now ≡ number token.now }
{
    &token[usize::from(negative)..]
}

/// What digits of this sign say.
fn sized(digits: &[u8], positive: bool) -> Numeral
    ensures { SaysNumber result (digits_number positive digits.now) }
{
    match count(digits) {
        None => Numeral::Other,
        Some(0) => Numeral::Zero,
        Some(size) => Numeral::Literal { size, positive },
    }
}
