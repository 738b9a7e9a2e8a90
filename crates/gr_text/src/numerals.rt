// Tokens as numbers.
ghost use Rattle.std.specs.Prelude.{◌≡◌, ◌≤◌, ◌<◌, ◌+◌, ◌*◌, ◌-◌, ℕ, length, min, true, false, MatchOption};
ghost use Rattle.gr_text.specs.Numerals.{capped_count, is_count, is_digit, value};

/// From here on a number's size no longer matters: it is one more than the greatest id of a proof log.
const CAP: u64 = 9_223_372_036_854_775_808;

/// The greatest number that has room for one more digit below the cap.
const ROOM: u64 = 922_337_203_685_477_580;

/// A number of at most so many digits is below the cap.
const SHORT: usize = 18;

/// The value of the digits, or 2^63 where it is above; `None` where the token is no number.
#[tactic(auto, using(crate::proofs::Capped::capped_is))]
pub fn count(token: &[u8]) -> Option<u64>
    ensures count { result ≡ capped_count token.now }
    ensures value { MatchOption result (is_count token.now ≡ false)
        (λ n. (is_count token.now ≡ true) × (n ≡ min (value token.now) CAP)) }
{
    if token.len() > SHORT {
        return long_count(token);
    }
    short_count(token)
}

/// The value of few digits, which needs no cap.
fn short_count(token: &[u8]) -> Option<u64>
    requires { length token.now ≤ SHORT }
    ensures { MatchOption result (is_count token.now ≡ false)
        (λ n. (is_count token.now ≡ true) × (n ≡ min (value token.now) CAP)) }
{
    if token.is_empty() {
        return None;
    }
    let mut size: u64 = 0;
    for byte in token {
        let value = digit_value(*byte);
        if value > 9 {
            return None;
        }
        size = size * 10 + u64::from(value);
    }
    Some(size)
}

/// The value of a digit, or a number above 9.
fn digit_value(byte: u8) -> u8
    ensures digit { result ≤ 9 → byte ≡ result + 48 }
    ensures other { 9 < result → is_digit byte ≡ false }
{
    byte.wrapping_sub(b'0')
}

/// The value of many digits, or the cap where it is above.
#[cold]
#[inline(never)]
fn long_count(token: &[u8]) -> Option<u64>
    ensures { MatchOption result (is_count token.now ≡ false)
        (λ n. (is_count token.now ≡ true) × (n ≡ min (value token.now) CAP)) }
{
    if token.is_empty() {
        return None;
    }
    let mut size: u64 = 0;
    for byte in token {
        if *byte < b'0' || *byte > b'9' {
            return None;
        }
        size = next_size(size, *byte);
    }
    Some(size)
}

/// The value with one more digit, or the cap.
fn next_size(size: u64, digit: u8) -> u64
    requires low { 48 ≤ digit }
    requires high { digit ≤ 57 }
    requires small { size ≤ CAP }
    ensures { result ≡ min (10 * size + (digit - 48)) CAP }
{
    if size < ROOM {
        return size * 10 + u64::from(digit - b'0');
    }
    if size > ROOM {
        return CAP;
    }
    (size * 10 + u64::from(digit - b'0')).min(CAP)
}
