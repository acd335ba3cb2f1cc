//! Integers of 64 bits from the bytes that spell them.

ghost use Rattle.std.specs.Prelude.{◌≡◌, pos, ◌<◌, ◌≤◌, ◌^◌, ℕ, Some, MatchOption, length};
ghost use Rattle.std.specs.Option.{option_map};
ghost use Rattle.edn_reader.specs.Integer.{is_digit, is_suffix, digits_after, natural_of, integer_of, minus, fitting};

/// 2^63 / 10, rounded down: with one more digit, a greater number is more than `LIMIT`.
const TENTH: u64 = 922_337_203_685_477_580;

/// 2^63: the first number that is too large for `i64`, and the absolute value of the least `i64`.
const LIMIT: u64 = 9_223_372_036_854_775_808;

fn is_digit(byte: u8) -> bool
    ensures { result ≡ is_digit byte }
{
    byte >= b'0' && byte <= b'9'
}

fn is_suffix(bytes: &[u8]) -> bool
    ensures { result ≡ is_suffix bytes.now }
{
    match bytes {
        [] => true,
        [b] => *b == b'N',
        _ => false,
    }
}

#[tactic(auto, using(crate::proofs::Integers::digits_go, crate::proofs::Integers::digits_stop, crate::proofs::Integers::digits_past))]
fn digits(bytes: &[u8]) -> Option<u64>
    ensures { MatchOption result ((n : ℕ) → digits_after 0 bytes.now ≡ Some n → 2 ^ 63 < n) (λ n. digits_after 0 bytes.now ≡ Some n) }
{
    let mut value: u64 = 0;
    let mut at: usize = 0;
    while at < bytes.len() && is_digit(bytes[at]) {
        if value > TENTH {
            return None;
        }
        value = 10 * value + (bytes[at] - b'0') as u64;
        at += 1;
    }
    if is_suffix(&bytes[at..]) {
        Some(value)
    } else {
        None
    }
}

#[tactic(auto, unfolding(crate::specs::Integer::natural_of))]
fn natural(bytes: &[u8]) -> Option<u64>
    ensures { MatchOption result ((n : ℕ) → natural_of bytes.now ≡ Some n → 2 ^ 63 < n) (λ n. natural_of bytes.now ≡ Some n) }
{
    if bytes.is_empty() {
        return None;
    }
    if bytes[0] == b'0' && !is_suffix(&bytes[1..]) {
        return None;
    }
    if is_digit(bytes[0]) {
        digits(bytes)
    } else {
        None
    }
}

fn positive(bytes: &[u8]) -> Option<i64>
    ensures { result ≡ fitting (option_map pos (natural_of bytes.now)) }
{
    match natural(bytes) {
        Some(n) => { if n < LIMIT { Some(n as i64) } else { None } }
        None => None,
    }
}

fn negative(bytes: &[u8]) -> Option<i64>
    ensures { result ≡ fitting (option_map minus (natural_of bytes.now)) }
{
    match natural(bytes) {
        Some(n) => {
            if n == 0 {
                Some(0)
            } else if n <= LIMIT {
                Some(-((n - 1) as i64) - 1)
            } else {
                None
            }
        }
        None => None,
    }
}

/// The integer that the bytes spell, where it fits 64 bits with a sign.
#[tactic(auto, unfolding(crate::specs::Integer::integer_of))]
pub fn signed(bytes: &[u8]) -> Option<i64>
    ensures { result ≡ fitting (integer_of bytes.now) }
{
    if bytes.is_empty() {
        return None;
    }
    if bytes[0] == b'-' {
        return negative(&bytes[1..]);
    }
    if bytes[0] == b'+' {
        return positive(&bytes[1..]);
    }
    positive(bytes)
}
