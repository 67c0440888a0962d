//! Integers and floats.

ghost use Rattle.std.specs.Prelude.{◌≡◌, ◌+◌, ◌≤◌, min, true, length, IfSome, IfNone, None, Some};
ghost use Rattle.std.specs.List.{prefix_len};
ghost use Rattle.std.specs.Char.{digit_value};
ghost use Rattle.std.specs.Str.Parse.{digits_value};
ghost use Rattle.fzn_reader.specs.Numbers.{is_digit_in, base_of, is_exponent_letter, is_exponent, is_float_ending};
ghost use Rattle.fzn_reader.specs.Pieces.{IsLongestBy, BeginsNoneBy, int_kind, number_piece, unsigned_piece};
ghost use Rattle.fzn_reader.specs.Front.{IsLongestFront, IsBase, HasCause, HasCauseAfterMinus, begins_number, sign_len};

use crate::pieces::Piece;
use crate::tokens::{INT_LIMIT, TokenKind};

/// Whether `byte` is the first of a number.
pub fn begins_number(byte: u8) -> bool
    ensures { result ≡ begins_number byte }
{
    byte == b'-' || char::from(byte).is_digit(10)
}

/// How many digits of the base are at the front of `text`.
fn digits_len(base: u32, text: &[u8]) -> usize
    requires base { IsBase base }
    ensures run { result ≡ prefix_len (is_digit_in base) text.now }
    ensures within { result ≤ length text.now }
{
    text.iter()
        .take_while(|b| char::from(**b).is_digit(base))
        .count()
}

fn digit_value(base: u32, digit: u8) -> u64
    requires base { IsBase base }
    requires digit { is_digit_in base digit ≡ true }
    ensures { result ≡ digit_value digit }
{
    char::from(digit).to_digit(base).map_or(0, u64::from)
}

/// The number that `digits` are, or one more than the limit where it is larger.
fn natural_of(base: u32, digits: &[u8]) -> u64
    requires base { IsBase base }
    requires digits { prefix_len (is_digit_in base) digits.now ≡ length digits.now }
    ensures { result ≡ min (digits_value base digits.now) (INT_LIMIT + 1) }
{
    let mut number = 0u64;
    for digit in digits {
        number = number * u64::from(base) + digit_value(base, *digit);
        if number > INT_LIMIT {
            return INT_LIMIT + 1;
        }
    }
    number
}

/// The token of an integer.
fn int_kind(negative: bool, base: u32, digits: &[u8]) -> TokenKind
    requires base { IsBase base }
    requires digits { prefix_len (is_digit_in base) digits.now ≡ length digits.now }
    ensures { result ≡ int_kind negative (digits_value base digits.now) }
{
    let size = natural_of(base, digits);
    if size > INT_LIMIT {
        return TokenKind::LargeInt;
    }
    let number = size as i64;
    TokenKind::Int(if negative { -number } else { number })
}

/// The base that `0x` or `0o` at the front of `text` names.
fn base_of(text: &[u8]) -> Option<u32>
    ensures { result ≡ base_of text.now }
{
    match text {
        [b'0', b'x', ..] => Some(16),
        [b'0', b'o', ..] => Some(8),
        _ => None,
    }
}

fn sign_len(text: &[u8]) -> usize
    ensures { result ≡ sign_len text.now }
{
    match text {
        [b'+' | b'-', ..] => 1,
        _ => 0,
    }
}

fn is_exponent_letter(byte: u8) -> bool
    ensures { result ≡ is_exponent_letter byte }
{
    byte == b'e' || byte == b'E'
}

/// How many bytes the exponent at the front of `text` has, if there is one.
fn exponent_len(text: &[u8]) -> usize
    ensures { IsLongestFront is_exponent text.now result }
{
    let [first, rest @ ..] = text else {
        return 0;
    };
    if !is_exponent_letter(*first) {
        return 0;
    }
    let sign = sign_len(rest);
    let digits = digits_len(10, &rest[sign..]);
    if digits == 0 {
        return 0;
    }
    1 + sign + digits
}

/// How many bytes at the front of `text` make a float of the digits before them.
fn float_ending_len(text: &[u8]) -> usize
    ensures { IsLongestFront is_float_ending text.now result }
{
    let [first, rest @ ..] = text else {
        return 0;
    };
    if *first != b'.' {
        return exponent_len(text);
    }
    let digits = digits_len(10, rest);
    if digits == 0 {
        return 0;
    }
    1 + digits + exponent_len(&rest[digits..])
}

/// The longest decimal integer or float at the front of `text`.
fn decimal_at(negative: bool, text: &[u8]) -> Option<(Piece, usize)>
    requires { base_of text.now ≡ None }
    ensures found { IfSome result (λ p. IsLongestBy (unsigned_piece negative) text.now p.1 p.0) }
    ensures none { IfNone result (BeginsNoneBy (unsigned_piece negative) text.now) }
    ensures cause { IfSome result (λ p. HasCauseAfterMinus text.now p.0) }
{
    let digits = digits_len(10, text);
    if digits == 0 {
        return None;
    }
    let ending = float_ending_len(&text[digits..]);
    if ending > 0 {
        return Some((Piece::Token(TokenKind::Float), digits + ending));
    }
    Some((
        Piece::Token(int_kind(negative, 10, &text[..digits])),
        digits,
    ))
}

/// The digits after a `0x` or `0o`, with which `text` begins, if there are any.
fn based_at(negative: bool, base: u32, text: &[u8]) -> (Piece, usize)
    requires { base_of text.now ≡ Some base }
    ensures found { IsLongestBy (unsigned_piece negative) text.now result.1 result.0 }
    ensures cause { HasCauseAfterMinus text.now result.0 }
{
    let digits = &text[2..];
    let len = digits_len(base, digits);
    if len == 0 {
        return (Piece::NoDigits, 2);
    }
    (
        Piece::Token(int_kind(negative, base, &digits[..len])),
        len + 2,
    )
}

/// The longest number at the front of `text`, a `-` before it told by `negative`.
fn unsigned_at(negative: bool, text: &[u8]) -> Option<(Piece, usize)>
    ensures found { IfSome result (λ p. IsLongestBy (unsigned_piece negative) text.now p.1 p.0) }
    ensures none { IfNone result (BeginsNoneBy (unsigned_piece negative) text.now) }
    ensures cause { IfSome result (λ p. HasCauseAfterMinus text.now p.0) }
{
    match base_of(text) {
        Some(base) => Some(based_at(negative, base, text)),
        None => decimal_at(negative, text),
    }
}

/// The longest number at the front of `text`.
pub fn number_at(text: &[u8]) -> Option<(Piece, usize)>
    ensures found { IfSome result (λ p. IsLongestBy number_piece text.now p.1 p.0) }
    ensures none { IfNone result (BeginsNoneBy number_piece text.now) }
    ensures cause { IfSome result (λ p. HasCause text.now p.0) }
{
    let [first, rest @ ..] = text else {
        return None;
    };
    if *first != b'-' {
        return unsigned_at(false, text);
    }
    let (piece, len) = unsigned_at(true, rest)?;
    Some((piece, len + 1))
}
