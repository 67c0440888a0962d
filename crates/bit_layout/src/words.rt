//! Widths and words of single kinds.
ghost use Rattle.std.specs.Prelude.{◌≡◌, ◌≢◌, ◌<◌, ◌≤◌, ◌^◌, ◌≤ℤ◌, ◌+ℤ◌, pos, true, false, [], ◌∷◌, length, map, filter, IfOk, IfSome, IfNone};
ghost use Rattle.std.specs.List.{zip};
ghost use Rattle.set_meaning.specs.declared.kinds.Value.{Value as AnyValue};
ghost use Rattle.set_meaning.specs.declared.kinds.Value.TheVariants as variants;
ghost use Rattle.set_meaning.specs.declared.kinds.Kind.TheVariants as kinds;
ghost use Rattle.set_meaning.specs.Kinds.{InKind};
ghost use Rattle.set_meaning.specs.Problems.{IsKind};
ghost use Rattle.set_meaning.specs.Sets.{Has, IsAscending};
ghost use Rattle.bit_layout.specs.Words.{bit_width, binary, distance, least, greatest, span, lists, width_of, word_of, IsValueOf};
ghost use Rattle.bit_layout.specs.Limits.{IsNarrow, counted_bits};

use set_meaning::{Kind, SetValue, Value};
use std::alloc::{AllocError, Global};

/// How many bits a value of the kind has.
pub fn width(kind: &Kind) -> u32
    requires kind { IsKind kind.now }
    requires narrow { IsNarrow kind.now }
    requires bits { counted_bits kind.now ≤ 1048576 }
    ensures { result ≡ width_of kind.now }
{
    match kind {
        Kind::Bool => 1,
        Kind::Int(numbers) => bit_width(span(numbers.elements())),
        Kind::Set(universe) => universe.elements().len() as u32,
    }
}

/// The least number of binary digits that hold `number`.
fn bit_width(number: u32) -> u32
    ensures { result ≡ bit_width number }
{
    u32::BITS - number.leading_zeros()
}

/// Greatest minus least of the ascending numbers.
fn span(numbers: &[i64]) -> u32
    requires ascending { IsAscending numbers.now }
    requires narrow { span numbers.now ≤ 65535 }
    ensures { result ≡ span numbers.now }
{
    distance(least(numbers), greatest(numbers))
}

/// The first of the ascending numbers; 0 where there are none.
fn least(numbers: &[i64]) -> i64
    ensures { result ≡ least numbers.now }
{
    numbers.first().copied().unwrap_or(0)
}

/// The last of the ascending numbers; 0 where there are none.
fn greatest(numbers: &[i64]) -> i64
    ensures { result ≡ greatest numbers.now }
{
    numbers.last().copied().unwrap_or(0)
}

/// How far `to` is above `from`.
fn distance(from: i64, to: i64) -> u32
    requires up { from ≤ℤ to }
    requires near { distance from to ≤ 65535 }
    ensures { result ≡ distance from to }
{
    (to - from) as u32
}

/// The word of a value of the kind.
#[tactic(auto, unfolding(set_meaning::specs::Kinds::InKind))]
pub(crate) fn word_of(alloc: Global, kind: &Kind, value: &Value) -> Result<Vec<bool>, AllocError>
    requires kind { IsKind kind.now }
    requires narrow { IsNarrow kind.now }
    requires in_kind { InKind kind.now value.now }
    ensures { IfOk result (λ word. word.items ≡ word_of kind.now value.now) }
{
    match kind {
        Kind::Bool => match value {
            Value::Bool(truth) => one_bit(alloc, *truth),
            _ => Ok(Vec::new(alloc)),
        },
        Kind::Int(numbers) => match value {
            Value::Int(x) => int_word(alloc, numbers.elements(), *x),
            _ => Ok(Vec::new(alloc)),
        },
        Kind::Set(universe) => match value {
            Value::Set(set) => set_word(alloc, universe.elements(), set),
            _ => Ok(Vec::new(alloc)),
        },
    }
}

fn one_bit(alloc: Global, bit: bool) -> Result<Vec<bool>, AllocError>
    ensures { IfOk result (λ word. word.items ≡ bit ∷ []) }
{
    let mut word = Vec::new(alloc);
    word.push(bit)?;
    Ok(word)
}

/// The offset of `x` from the least number, in as many binary digits as the greatest offset needs.
fn int_word(alloc: Global, numbers: &[i64], x: i64) -> Result<Vec<bool>, AllocError>
    requires ascending { IsAscending numbers.now }
    requires narrow { span numbers.now ≤ 65535 }
    requires in_kind { Has numbers.now x }
    ensures { IfOk result (λ word. word.items ≡ binary (bit_width (span numbers.now)) (distance (least numbers.now) x)) }
{
    binary(alloc, bit_width(span(numbers)), distance(least(numbers), x))
}

/// The last `width` binary digits of `number`, the most significant first.
fn binary(alloc: Global, width: u32, number: u32) -> Result<Vec<bool>, AllocError>
    requires { width ≤ 32 }
    ensures { IfOk result (λ digits. digits.items ≡ binary width number) }
{
    let mut digits = Vec::new(alloc);
    for place in (0..width).rev() {
        digits.push((number >> place) % 2 == 1)?;
    }
    Ok(digits)
}

/// For each element of the universe whether it is in the set.
fn set_word(alloc: Global, universe: &[i64], set: &SetValue) -> Result<Vec<bool>, AllocError>
    ensures { IfOk result (λ word. word.items ≡ map (lists set.now) universe.now) }
{
    universe.iter().map(|x| lists(set, *x)).collect(alloc)
}

fn lists(set: &SetValue, x: i64) -> bool
    ensures { result ≡ lists set.now x }
{
    set.has(x)
}

/// The value of the kind that has this word, if there is one.
pub(crate) fn value_of(
    alloc: Global,
    kind: &Kind,
    word: &[bool],
) -> Result<Option<Value>, AllocError>
    requires kind { IsKind kind.now }
    requires narrow { IsNarrow kind.now }
    requires long { length word.now ≡ width_of kind.now }
    ensures some { IfOk result (λ found. IfSome found (IsValueOf kind.now word.now)) }
    ensures none { IfOk result (λ found. IfNone found ((x : AnyValue) → IsValueOf kind.now word.now x → ⊥)) }
{
    match kind {
        Kind::Bool => Ok(Some(Value::Bool(word[0]))),
        Kind::Int(numbers) => Ok(int_of(numbers, word)),
        Kind::Set(universe) => Ok(Some(Value::Set(set_of(alloc, universe.elements(), word)?))),
    }
}

/// The number of the domain whose offset has these binary digits.
fn int_of(numbers: &SetValue, word: &[bool]) -> Option<Value>
    requires some { numbers.now ≢ [] }
    requires narrow { span numbers.now ≤ 65535 }
    requires long { length word.now ≡ bit_width (span numbers.now) }
    ensures some { IfSome result (IsValueOf (kinds.Int numbers.now) word.now) }
    ensures none { IfNone result ((x : AnyValue) → IsValueOf (kinds.Int numbers.now) word.now x → ⊥) }
{
    let elements = numbers.elements();
    match above(least(elements), greatest(elements), number_of(word)) {
        None => None,
        Some(x) => int_if(numbers.has(x), x),
    }
}

/// The number that is `offset` above `least`, unless it is above `greatest` too.
fn above(least: i64, greatest: i64, offset: u32) -> Option<i64>
    requires up { least ≤ℤ greatest }
    requires narrow { distance least greatest ≤ 65535 }
    ensures some { IfSome result (λ x. x ≡ least +ℤ pos offset) }
    ensures none { IfNone result (distance least greatest < offset) }
{
    if distance(least, greatest) < offset {
        return None;
    }
    Some(least + i64::from(offset))
}

fn int_if(listed: bool, x: i64) -> Option<Value>
    ensures some { IfSome result (λ value. (listed ≡ true) × (value ≡ variants.Int x)) }
    ensures none { IfNone result (listed ≡ false) }
{
    if listed { Some(Value::Int(x)) } else { None }
}

/// The number that has these binary digits, the most significant first.
fn number_of(word: &[bool]) -> u32
    requires { length word.now ≤ 16 }
    ensures digits { binary (length word.now) result ≡ word.now }
    ensures below { result < 2 ^ length word.now }
{
    let mut number = 0;
    for digit in word {
        number = 2 * number + u32::from(*digit);
    }
    number
}

/// The elements of the universe whose bit is true.
fn set_of(alloc: Global, universe: &[i64], word: &[bool]) -> Result<SetValue, AllocError>
    requires ascending { IsAscending universe.now }
    requires long { length word.now ≡ length universe.now }
    ensures { IfOk result (λ set. IsValueOf (kinds.Set universe.now) word.now (variants.Set set)) }
{
    let elements = chosen(alloc, universe, word)?;
    SetValue::from_list(alloc, elements.as_slice())
}

/// The elements beside which the word is true.
fn chosen(alloc: Global, universe: &[i64], word: &[bool]) -> Result<Vec<i64>, AllocError>
    ensures { IfOk result (λ xs. xs.items ≡ map (λ p. p.0) (filter (λ p. p.1) (zip universe.now word.now))) }
{
    universe
        .iter()
        .zip(word)
        .filter(|pair| *pair.1)
        .map(|pair| *pair.0)
        .collect(alloc)
}
