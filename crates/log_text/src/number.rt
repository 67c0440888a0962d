//! Reading numbers.

ghost use Rattle.std.specs.Prelude.{◌≡◌, ℕ, ℤ, ◌≤◌, ◌<◌, ◌^◌, true, List, ◌++◌, codes, IfSome, IfNone, IsTrue, ◌↔◌, unsigned_abs};
ghost use Rattle.std.specs.Fmt.{decimal, signed_decimal};
ghost use Rattle.std.specs.Str.{all_ascii_digits};
ghost use Rattle.log_text.specs.Decimal.{read_on, HasPlainStart};

/// The value of the digits, where `text` holds digits alone and the value is at most `limit`.
fn digits_value(text: &[u8], limit: u64) -> Option<u64>
    requires { limit ≤ 2 ^ 40 }
    ensures some { IfSome result (λ n. (n ≤ limit) × (all_ascii_digits text.now ≡ true) × (read_on 0 text.now ≡ n)) }
    ensures none { IfNone result (all_ascii_digits text.now ≡ true → limit < read_on 0 text.now) }
{
    let mut value = 0;
    for digit in text {
        if !digit.is_ascii_digit() {
            return None;
        }
        value = 10 * value + u64::from(digit - b'0');
        if value > limit {
            return None;
        }
    }
    Some(value)
}

/// Whether the text is not empty and has no zero before further bytes.
fn has_plain_start(text: &[u8]) -> bool
    ensures { IsTrue result ↔ HasPlainStart text.now }
{
    match text {
        [] => false,
        [first, ..] => *first != b'0' || text.len() == 1,
    }
}

/// The number, at most `limit`, that `word` spells in decimal.
pub(crate) fn number(word: &[u8], limit: u64) -> Option<u64>
    requires { limit ≤ 2 ^ 40 }
    ensures some { IfSome result (λ n. (n ≤ limit) × (word.now ≡ decimal n)) }
    ensures none { IfNone result ((n : ℕ) → n ≤ limit → word.now ≡ decimal n → ⊥) }
{
    if has_plain_start(word) {
        digits_value(word, limit)
    } else {
        None
    }
}

/// What follows the minus sign, where the text begins with one.
fn after_minus(text: &[u8]) -> Option<&[u8]>
    ensures some { IfSome result (λ rest. text.now ≡ codes "-" ++ rest.now) }
    ensures none { IfNone result ((rest : List ℕ) → text.now ≡ codes "-" ++ rest → ⊥) }
{
    match text.split_first() {
        Some((first, rest)) => if *first == b'-' { Some(rest) } else { None },
        None => None,
    }
}

/// The integer, at most `limit` in size, that `word` spells in decimal.
pub(crate) fn integer(word: &[u8], limit: u64) -> Option<i64>
    requires { limit ≤ 2 ^ 40 }
    ensures some { IfSome result (λ z. (unsigned_abs z ≤ limit) × (word.now ≡ signed_decimal z)) }
    ensures none { IfNone result ((z : ℤ) → unsigned_abs z ≤ limit → word.now ≡ signed_decimal z → ⊥) }
{
    match after_minus(word) {
        Some(digits) => match number(digits, limit) {
            Some(0) => None,
            Some(size) => Some(-(size as i64)),
            None => None,
        },
        None => match number(word, limit) {
            Some(size) => Some(size as i64),
            None => None,
        },
    }
}
