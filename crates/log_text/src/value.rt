//! Reading the values of an answer.

ghost use Rattle.std.specs.Prelude.{◌≡◌, ◌++◌, ℤ, List, [], ◌∷◌, ◌↔◌, map, codes, IfOk, IsErrOf, IfSome, IfNone, IsTrue, Bool, ℕ};
ghost use Rattle.std.specs.Fmt.{signed_decimal};
ghost use Rattle.std.specs.List.{AllByRecursion, join_by};
ghost use Rattle.std.specs.List.Sorted.{IsStrictlySortedBy};
ghost use Rattle.std.specs.Ordering.{int_cmp};
ghost use Rattle.log_text.specs.Spelling.{IsValue, IsSet, IsElement, truth_word, value_word};
ghost use Rattle.log_text.specs.declared.line.LogValue.{LogValue as AnyValue};

use crate::line::{Ints, LineFault, LogValue};
use crate::number::integer;
use crate::pieces::Pieces;
use std::alloc::Global;

/// The largest size of an integer that is a value.
const MAX_INTEGER: u64 = 1_000_000_000;

/// The largest size of an element of a set.
const MAX_ELEMENT: u64 = 1_000_000;

/// The value that `word` spells.
pub(crate) fn value(alloc: Global, word: &[u8]) -> Result<LogValue, LineFault>
    ensures ok { IfOk result (λ value. IsValue value × (word.now ≡ value_word value)) }
    ensures bad { IsErrOf result LineFault.BadForm → (value : AnyValue) → IsValue value → word.now ≡ value_word value → ⊥ }
{
    match truth(word) {
        Some(truth) => Ok(LogValue::Bool(truth)),
        None => match in_braces(word) {
            Some(elements) => Ok(LogValue::Set(set(alloc, elements)?)),
            None => match integer(word, MAX_INTEGER) {
                Some(integer) => Ok(LogValue::Int(integer)),
                None => Err(LineFault::BadForm),
            },
        },
    }
}

/// The truth value that `word` names.
fn truth(word: &[u8]) -> Option<bool>
    ensures some { IfSome result (λ truth. word.now ≡ truth_word truth) }
    ensures none { IfNone result ((truth : Bool) → word.now ≡ truth_word truth → ⊥) }
{
    match word {
        b"false" => Some(false),
        b"true" => Some(true),
        _ => None,
    }
}

/// What stands between the braces, where the text begins with one and ends with one.
fn in_braces(text: &[u8]) -> Option<&[u8]>
    ensures some { IfSome result (λ inner. text.now ≡ codes "{" ++ inner.now ++ codes "}") }
    ensures none { IfNone result ((inner : List ℕ) → text.now ≡ codes "{" ++ inner ++ codes "}" → ⊥) }
{
    let rest = after_brace(text)?;
    before_brace(rest)
}

/// What follows the opening brace, where the text begins with one.
fn after_brace(text: &[u8]) -> Option<&[u8]>
    ensures some { IfSome result (λ rest. text.now ≡ codes "{" ++ rest.now) }
    ensures none { IfNone result ((rest : List ℕ) → text.now ≡ codes "{" ++ rest → ⊥) }
{
    match text.split_first() {
        Some((first, rest)) => if *first == b'{' { Some(rest) } else { None },
        None => None,
    }
}

/// What stands before the closing brace, where the text ends with one.
fn before_brace(text: &[u8]) -> Option<&[u8]>
    ensures some { IfSome result (λ inner. text.now ≡ inner.now ++ codes "}") }
    ensures none { IfNone result ((inner : List ℕ) → text.now ≡ inner ++ codes "}" → ⊥) }
{
    match text.split_last() {
        Some((last, inner)) => if *last == b'}' { Some(inner) } else { None },
        None => None,
    }
}

/// The set whose elements the text between its braces spells.
fn set(alloc: Global, text: &[u8]) -> Result<Ints, LineFault>
    ensures ok { IfOk result (λ elements. IsSet elements × (text.now ≡ join_by signed_decimal (codes ",") elements)) }
    ensures bad { IsErrOf result LineFault.BadForm → (elements : List ℤ) → IsSet elements → text.now ≡ join_by signed_decimal (codes ",") elements → ⊥ }
{
    let elements = listed_elements(alloc, text)?;
    if is_ascending(&elements) {
        Ok(Ints::of(elements))
    } else {
        Err(LineFault::BadForm)
    }
}

/// The elements that the text spells, in its order.
fn listed_elements(alloc: Global, text: &[u8]) -> Result<Vec<i64>, LineFault>
    ensures ok { IfOk result (λ elements. AllByRecursion IsElement elements.items × (text.now ≡ join_by signed_decimal (codes ",") elements.items)) }
    ensures bad { IsErrOf result LineFault.BadForm → (elements : List ℤ) → AllByRecursion IsElement elements → text.now ≡ join_by signed_decimal (codes ",") elements → ⊥ }
{
    if text.is_empty() {
        return Ok(Vec::new(alloc));
    }
    elements(alloc, &mut Pieces::of(text, b','))
}

/// The elements that the pieces spell.
fn elements(alloc: Global, pieces: &mut Pieces<'_>) -> Result<Vec<i64>, LineFault>
    ensures ok { IfOk result (λ elements. AllByRecursion IsElement elements.items × (pieces.old ≡ map signed_decimal elements.items)) }
    ensures bad { IsErrOf result LineFault.BadForm → (elements : List ℤ) → AllByRecursion IsElement elements → pieces.old ≡ map signed_decimal elements → ⊥ }
{
    let mut elements = Vec::new(alloc);
    while let Some(piece) = pieces.next_piece() {
        match integer(piece, MAX_ELEMENT) {
            Some(element) => elements.push(element)?,
            None => return Err(LineFault::BadForm),
        }
    }
    Ok(elements)
}

/// Whether each element is below the next.
fn is_ascending(elements: &[i64]) -> bool
    ensures { IsTrue result ↔ IsStrictlySortedBy int_cmp elements.now }
{
    elements.is_sorted_by(|first, second| *first < *second)
}
