//! The plain list of all values of a kind.

ghost use Rattle.std.specs.Prelude.{◌≡◌, true, false, [], ◌∷◌, ◌++◌, map, IfOk, OnOk, All};
ghost use Rattle.set_meaning.specs.declared.kinds.Value.TheVariants as variants;
ghost use Rattle.set_meaning.specs.Kinds.{initial_values};
ghost use Rattle.set_meaning.specs.Sets.{IsAscending, subsets};

use crate::kinds::{Kind, Value};
use crate::sets::SetValue;
use std::alloc::{AllocError, Global};

/// All values of the kind: `false` and `true`; the integers, ascending; or the subsets of the universe, those with its
/// first element before those without it. A universe of n elements has 2^n subsets. An `Err` is want of memory.
pub fn initial_values(alloc: Global, kind: &Kind) -> Result<Vec<Value>, AllocError>
    ensures { IfOk result (λ values. values.items ≡ initial_values kind.now) }
{
    match kind {
        Kind::Bool => bool_values(alloc),
        Kind::Int(numbers) => int_values(alloc, numbers.elements()),
        Kind::Set(universe) => set_values(alloc, universe.elements()),
    }
}

fn bool_values(alloc: Global) -> Result<Vec<Value>, AllocError>
    ensures { IfOk result (λ values. values.items ≡ variants.Bool false ∷ variants.Bool true ∷ []) }
{
    let mut values = Vec::new(alloc);
    values.push(Value::Bool(false))?;
    values.push(Value::Bool(true))?;
    Ok(values)
}

fn int_values(alloc: Global, numbers: &[i64]) -> Result<Vec<Value>, AllocError>
    ensures { IfOk result (λ values. values.items ≡ map variants.Int numbers.now) }
{
    let mut values = Vec::new(alloc);
    for number in numbers {
        values.push(Value::Int(*number))?;
    }
    Ok(values)
}

fn set_values(alloc: Global, universe: &[i64]) -> Result<Vec<Value>, AllocError>
    requires { IsAscending universe.now }
    ensures { IfOk result (λ values. values.items ≡ map variants.Set (subsets universe.now)) }
{
    let sets = subsets(alloc, universe)?;
    let mut values = Vec::new(alloc);
    for set in &sets {
        values.push(Value::Set(set.copy(alloc)?))?;
    }
    Ok(values)
}

/// All subsets of the ascending elements.
fn subsets(alloc: Global, elements: &[i64]) -> Result<Vec<SetValue>, AllocError>
    requires { IsAscending elements.now }
    ensures { IfOk result (λ sets. sets.items ≡ subsets elements.now) }
{
    match elements {
        [] => only_empty(alloc),
        [first, rest @ ..] => {
            let without = subsets(alloc, rest)?;
            with_and_without(alloc, *first, without.as_slice())
        }
    }
}

fn only_empty(alloc: Global) -> Result<Vec<SetValue>, AllocError>
    ensures { IfOk result (λ sets. sets.items ≡ [] ∷ []) }
{
    let mut sets = Vec::new(alloc);
    sets.push(SetValue::from_list(alloc, &[])?)?;
    Ok(sets)
}

/// The sets with `least` added to each, and then the sets as they are.
fn with_and_without(
    alloc: Global,
    least: i64,
    sets: &[SetValue],
) -> Result<Vec<SetValue>, AllocError>
    requires { All (λ s. IsAscending (least ∷ s)) sets.now }
    ensures { IfOk result (λ all. all.items ≡ map (λ s. least ∷ s) sets.now ++ sets.now) }
{
    let mut all = with_each(alloc, least, sets)?;
    push_copies(alloc, &mut all, sets)?;
    Ok(all)
}

/// The sets with `least` added to each.
fn with_each(alloc: Global, least: i64, sets: &[SetValue]) -> Result<Vec<SetValue>, AllocError>
    requires { All (λ s. IsAscending (least ∷ s)) sets.now }
    ensures { IfOk result (λ all. all.items ≡ map (λ s. least ∷ s) sets.now) }
{
    let mut all = Vec::new(alloc);
    for set in sets {
        all.push(set.with_least(alloc, least)?)?;
    }
    Ok(all)
}

/// Appends copies of the sets.
fn push_copies(alloc: Global, all: &mut Vec<SetValue>, sets: &[SetValue]) -> Result<(), AllocError>
    ensures { OnOk result (all.new.items ≡ all.old.items ++ sets.now) }
{
    for set in sets {
        all.push(set.copy(alloc)?)?;
    }
    Ok(())
}
