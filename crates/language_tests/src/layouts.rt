//! A layout of two sets whose universes overlap, a Boolean, integers with holes, and two variables of one value.
ghost use Rattle.std.specs.Prelude.{◌≡◌, ◌<◌, ◌^◌, IsSomeAnd, Some, slice_get, length};
ghost use Rattle.set_meaning.specs.Kinds.{InKind};

use crate::samples::{integers, problem, subsets};
use bit_layout::Layout;
use problem_limits::are_within_limits;
use set_meaning::{Goal, Kind, Problem, Value, VarId, in_kind, initial_values};
use std::alloc::{AllocError, Global};
use std::test::Fail;

fn sample(alloc: Global) -> Result<Problem, AllocError> {
    let odd = subsets(alloc, [1, 3].as_slice())?;
    let with_holes = integers(alloc, [3, -2, 0].as_slice())?;
    let late = subsets(alloc, [3, -1].as_slice())?;
    let seven = integers(alloc, [7].as_slice())?;
    let empty = subsets(alloc, [].as_slice())?;
    let kinds = vec![in alloc; odd, Kind::Bool, with_holes, late, seven, empty]?;
    problem(alloc, kinds, Vec::new(alloc), Goal::Satisfy)
}

/// The variable and the position of each bit, in the order of the bits.
fn order_text(alloc: Global, layout: &Layout) -> Result<String, AllocError> {
    let mut text = String::new(alloc);
    for bit in 0..layout.bits() {
        let (variable, position) = layout.place(bit);
        let place = format!(in alloc; "{}.{} ", variable.0, position)?;
        text.push_str(place.as_str())?;
    }
    Ok(text)
}

/// The bits of each variable, and the first of them again.
fn bits_text(alloc: Global, layout: &Layout, count: u32) -> Result<String, AllocError>
    requires { length layout.now.kinds ≡ count }
{
    let mut text = String::new(alloc);
    for v in 0..count {
        let bits = format!(in alloc; "{:?} ", layout.bits_of(VarId(v)))?;
        text.push_str(bits.as_str())?;
        if 0 < layout.width(VarId(v)) {
            let first = format!(in alloc; "{} ", layout.bit(VarId(v), 0))?;
            text.push_str(first.as_str())?;
        }
    }
    Ok(text)
}

/// The word of a value, and the value of this word.
fn word_text(alloc: Global, layout: &Layout, v: VarId, value: &Value) -> Result<String, AllocError>
    requires { IsSomeAnd (slice_get layout.now.kinds v.0) (λ k. InKind k value.now) }
{
    let word = layout.word_of(alloc, v, value)?;
    let back = layout.value_of(alloc, v, word.as_slice())?;
    format!(in alloc; "{word:?} {back:?}\n")
}

/// The lines of all values of the variable.
fn words_text(alloc: Global, layout: &Layout, v: VarId, kind: &Kind) -> Result<String, AllocError>
    requires { slice_get layout.now.kinds v.0 ≡ Some kind.now }
{
    let mut text = String::new(alloc);
    let values = initial_values(alloc, kind)?;
    for value in &values {
        if in_kind(kind, value) {
            let line = word_text(alloc, layout, v, value)?;
            text.push_str(line.as_str())?;
        }
    }
    Ok(text)
}

fn all_words(alloc: Global, layout: &Layout, kinds: &[Kind]) -> Result<String, AllocError>
    requires same { layout.now.kinds ≡ kinds.now }
    requires few { length kinds.now < 2 ^ 32 }
{
    let mut text = String::new(alloc);
    for (v, kind) in kinds.iter().enumerate() {
        let words = words_text(alloc, layout, VarId(v as u32), kind)?;
        text.push_str(words.as_str())?;
    }
    Ok(text)
}

/// The value of a word, where there is the variable and the word is as long as its words are.
fn value_text(
    alloc: Global,
    layout: &Layout,
    count: u32,
    v: VarId,
    word: &[bool],
) -> Result<String, AllocError>
    requires { length layout.now.kinds ≡ count }
{
    if count <= v.0 {
        return format!(in alloc; "no variable");
    }
    if word.len() != layout.width(v) as usize {
        return format!(in alloc; "too short or too long");
    }
    let value = layout.value_of(alloc, v, word)?;
    format!(in alloc; "{value:?} ")
}

/// Words of variable 2 that stand for no value: -1, 1 and 2 are between its integers, and 4 and 5 are above them.
const HOLES: [[bool; 3]; 5] = [
    [false, false, true],
    [false, true, true],
    [true, false, false],
    [true, true, false],
    [true, true, true],
];

fn holes_text(alloc: Global, layout: &Layout, count: u32) -> Result<String, AllocError>
    requires { length layout.now.kinds ≡ count }
{
    let mut text = String::new(alloc);
    for word in HOLES {
        let value = value_text(alloc, layout, count, VarId(2), word.as_slice())?;
        text.push_str(value.as_str())?;
    }
    Ok(text)
}

/// The order of the bits, the bits of the variables, the words of their values, and the values of words that are none.
fn layout_text(alloc: Global, p: &Problem) -> Result<String, AllocError> {
    let kinds = p.kinds.items();
    if !are_within_limits(kinds) {
        return format!(in alloc; "beyond the limits");
    }
    let Ok(count) = u32::try_from(kinds.len()) else {
        return format!(in alloc; "too many variables");
    };
    let layout = Layout::new(alloc, p)?;
    let order = order_text(alloc, &layout)?;
    let bits = bits_text(alloc, &layout, count)?;
    let words = all_words(alloc, &layout, kinds)?;
    let holes = holes_text(alloc, &layout, count)?;
    format!(in alloc; "{order}\n{bits}\n{words}{holes}")
}

/// By hand: the bits of 1 and 2, which are no sets; then element -1 of variable 3, element 1 of variable 0, and
/// element 3 of both.
#[test]
fn layouts_are_as_stated(rt: HostRuntime) -> Result<(), Fail> {
    let alloc = rt.alloc();
    let p = sample(alloc)?;
    assert_eq!(rt;
        layout_text(alloc, &p)?.as_str(),
        "1.0 2.0 2.1 2.2 3.0 0.0 0.1 3.1 
[5, 6] 5 [0] 0 [1, 2, 3] 1 [4, 7] 4 [] [] 
[true, true] Some(Set(SetValue { elements: [1, 3] }))
[true, false] Some(Set(SetValue { elements: [1] }))
[false, true] Some(Set(SetValue { elements: [3] }))
[false, false] Some(Set(SetValue { elements: [] }))
[false] Some(Bool(false))
[true] Some(Bool(true))
[false, false, false] Some(Int(-2))
[false, true, false] Some(Int(0))
[true, false, true] Some(Int(3))
[true, true] Some(Set(SetValue { elements: [-1, 3] }))
[true, false] Some(Set(SetValue { elements: [-1] }))
[false, true] Some(Set(SetValue { elements: [3] }))
[false, false] Some(Set(SetValue { elements: [] }))
[] Some(Int(7))
[] Some(Set(SetValue { elements: [] }))
None None None None None "
    );
    Ok(())
}
