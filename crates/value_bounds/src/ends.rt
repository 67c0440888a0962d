//! The values of the words that bound a domain.
ghost use Rattle.std.specs.Prelude.{◌≡◌, ◌<◌, Bool, ℤ, List, Some, length, slice_get, IfOk};
ghost use Rattle.set_meaning.specs.declared.kinds.Value.TheVariants as values;
ghost use Rattle.bit_layout.specs.Order.{width_at, IsValueAt};
ghost use Rattle.value_bounds.specs.Work.{AreLong, HasValueAt, AreEnds, IsTruth, IsNumber, IsASet};

use bit_layout::Layout;
use diagram_view::WordBounds;
use set_meaning::{Bounds, Kind, SetValue, Value, VarId};
use std::alloc::{AllocError, Global};

/// For a variable of this kind the values of the words that bound its domain: the least and the greatest word, or for a set those of the
/// bits that are true in every word and in some word.
pub(crate) fn ends(
    alloc: Global,
    layout: &Layout,
    v: VarId,
    kind: &Kind,
    words: &WordBounds,
) -> Result<Bounds, AllocError>
    requires known { v.0 < length layout.now.kinds }
    requires kind { slice_get layout.now.kinds v.0 ≡ Some kind.now }
    requires long { AreLong layout.now v words.now }
    requires least { HasValueAt layout.now v words.now.least.items }
    requires greatest { HasValueAt layout.now v words.now.greatest.items }
    ensures { IfOk result (AreEnds layout.now v words.now) }
{
    // What holds of every layout.
    layout.obeys_order();
    match kind {
        Kind::Bool => truths(alloc, layout, v, words),
        Kind::Int(_) => numbers(alloc, layout, v, words),
        Kind::Set(_) => sets(alloc, layout, v, words),
    }
}

fn truths(
    alloc: Global,
    layout: &Layout,
    v: VarId,
    words: &WordBounds,
) -> Result<Bounds, AllocError>
    requires known { v.0 < length layout.now.kinds }
    requires long { AreLong layout.now v words.now }
    requires least { (b : Bool) × IsValueAt layout.now v words.now.least.items (values.Bool b) }
    requires greatest { (b : Bool) × IsValueAt layout.now v words.now.greatest.items (values.Bool b) }
    ensures { IfOk result (AreEnds layout.now v words.now) }
{
    let low = truth_at(alloc, layout, v, &words.least)?;
    let high = truth_at(alloc, layout, v, &words.greatest)?;
    Ok(Bounds::Bool(low, high))
}

fn numbers(
    alloc: Global,
    layout: &Layout,
    v: VarId,
    words: &WordBounds,
) -> Result<Bounds, AllocError>
    requires known { v.0 < length layout.now.kinds }
    requires long { AreLong layout.now v words.now }
    requires least { (x : ℤ) × IsValueAt layout.now v words.now.least.items (values.Int x) }
    requires greatest { (x : ℤ) × IsValueAt layout.now v words.now.greatest.items (values.Int x) }
    ensures { IfOk result (AreEnds layout.now v words.now) }
{
    let low = number_at(alloc, layout, v, &words.least)?;
    let high = number_at(alloc, layout, v, &words.greatest)?;
    Ok(Bounds::Int(low, high))
}

fn sets(alloc: Global, layout: &Layout, v: VarId, words: &WordBounds) -> Result<Bounds, AllocError>
    requires known { v.0 < length layout.now.kinds }
    requires long { AreLong layout.now v words.now }
    requires every { (s : List ℤ) × IsValueAt layout.now v words.now.every.items (values.Set s) }
    requires some { (s : List ℤ) × IsValueAt layout.now v words.now.some.items (values.Set s) }
    ensures { IfOk result (AreEnds layout.now v words.now) }
{
    let every = set_at(alloc, layout, v, &words.every)?;
    let some = set_at(alloc, layout, v, &words.some)?;
    Ok(Bounds::Set(every, some))
}

/// The Boolean that has this word.
fn truth_at(alloc: Global, layout: &Layout, v: VarId, word: &Vec<bool>) -> Result<bool, AllocError>
    requires known { v.0 < length layout.now.kinds }
    requires long { length word.now.items ≡ width_at layout.now v }
    requires there { (b : Bool) × IsValueAt layout.now v word.now.items (values.Bool b) }
    ensures { IfOk result (λ b. IsValueAt layout.now v word.now.items (values.Bool b)) }
{
    let found = layout.value_of(alloc, v, word.as_slice())?;
    match found {
        Some(value) => Ok(truth_in(value)),
        None => unreachable!(),
    }
}

/// The integer that has this word.
fn number_at(alloc: Global, layout: &Layout, v: VarId, word: &Vec<bool>) -> Result<i64, AllocError>
    requires known { v.0 < length layout.now.kinds }
    requires long { length word.now.items ≡ width_at layout.now v }
    requires there { (x : ℤ) × IsValueAt layout.now v word.now.items (values.Int x) }
    ensures { IfOk result (λ x. IsValueAt layout.now v word.now.items (values.Int x)) }
{
    let found = layout.value_of(alloc, v, word.as_slice())?;
    match found {
        Some(value) => Ok(number_in(value)),
        None => unreachable!(),
    }
}

/// The set that has this word.
fn set_at(
    alloc: Global,
    layout: &Layout,
    v: VarId,
    word: &Vec<bool>,
) -> Result<SetValue, AllocError>
    requires known { v.0 < length layout.now.kinds }
    requires long { length word.now.items ≡ width_at layout.now v }
    requires there { (s : List ℤ) × IsValueAt layout.now v word.now.items (values.Set s) }
    ensures { IfOk result (λ s. IsValueAt layout.now v word.now.items (values.Set s)) }
{
    let found = layout.value_of(alloc, v, word.as_slice())?;
    match found {
        Some(value) => Ok(set_in(value)),
        None => unreachable!(),
    }
}

fn truth_in(value: Value) -> bool
    requires { IsTruth value }
    ensures { value ≡ values.Bool result }
{
    match value {
        Value::Bool(b) => b,
        Value::Int(_) => unreachable!(),
        Value::Set(_) => unreachable!(),
    }
}

fn number_in(value: Value) -> i64
    requires { IsNumber value }
    ensures { value ≡ values.Int result }
{
    match value {
        Value::Bool(_) => unreachable!(),
        Value::Int(x) => x,
        Value::Set(_) => unreachable!(),
    }
}

fn set_in(value: Value) -> SetValue
    requires { IsASet value }
    ensures { value ≡ values.Set result }
{
    match value {
        Value::Bool(_) => unreachable!(),
        Value::Int(_) => unreachable!(),
        Value::Set(set) => set,
    }
}
