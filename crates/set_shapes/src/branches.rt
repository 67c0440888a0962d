//! The branches of the element relation of sets: "the index is the place of the item, and the item is the set".
ghost use Rattle.std.specs.Prelude.{◌≡◌, ◌⊎◌, ◌↔◌, ℕ, suc, pos, ◌<◌, ◌≤◌, ◌^◌, ◌∷◌, [], true, unsigned_abs, List, length, slice_get, All, Any, IfOk, OnOk};
ghost use Rattle.set_meaning.specs.declared.kinds.Value.{Value as AnyValue};
ghost use Rattle.set_meaning.specs.declared.rows.Sort.TheVariants.{Integer, IntegerSet};
ghost use Rattle.set_meaning.specs.declared.problems.VarId.{VarId as Variable};
ghost use Rattle.set_meaning.specs.Rows.{HasSort};
ghost use Rattle.diagram_arena.specs.Table.{Word};
ghost use Rattle.bit_machine.specs.Rules.{accepts};
ghost use Rattle.scope_words.specs.Words.{Gives};
ghost use Rattle.linear_machine.specs.Steps.{rules_of};
ghost use Rattle.set_shapes.specs.Elements.{index_terms, integer_of, known_part, index_constant, IsAtIndex, AreEqualSets, BranchHolds, AreBitsWith, IsEqualityOver, AcceptsEquality, IsBranchOver, Accepted, Tells, SomeBranchHolds};

use crate::operands::pair_of;
use crate::passing::{EqualSets, places_among};
use crate::tables::Table;
use bit_layout::{Bit, Layout};
use bit_machine::{Both, side_by_side_accepts};
use linear_machine::{Comparison, Linear};
use linear_terms::{LinearTerm, linear_over, scopes_have_the_bits_of_terms};
use set_meaning::{Kind, Term, Value};
use std::alloc::{AllocError, Global};

/// A machine for each item, over all bits of a scope that has the variables of all the terms.
pub(crate) fn branches_of(
    alloc: Global,
    layout: &Layout,
    kinds: &[Kind],
    bits: &[Bit],
    index: &Term,
    items: &[Term],
    set: &Term,
) -> Result<Vec<Both<Linear, EqualSets>>, AllocError>
    requires kinds { layout.now.kinds ≡ kinds.now }
    requires index { HasSort kinds.now Integer index.now }
    requires items { All (HasSort kinds.now IntegerSet) items.now }
    requires set { HasSort kinds.now IntegerSet set.now }
    requires bits { (scope : List Variable) × AreBitsWith layout.now scope bits.now (index.now ∷ set.now ∷ items.now) }
    ensures over { IfOk result (λ ms. All (IsBranchOver (length bits.now)) ms.items) }
    ensures tells { IfOk result (λ ms. Tells layout.now bits.now (index.now ∷ set.now ∷ items.now) (λ w. Any (Accepted bits.now w) ms.items) (SomeBranchHolds index.now (length items.now) items.now set.now)) }
{
    let mut machines = Vec::new(alloc);
    for number in 0..items.len() {
        machines.push(branch_of(
            alloc,
            layout,
            kinds,
            bits,
            index,
            number,
            &items[number],
            set,
        )?)?;
    }
    Ok(machines)
}

/// The machine of the branch of one item, whose place is counted from 0.
fn branch_of(
    alloc: Global,
    layout: &Layout,
    kinds: &[Kind],
    bits: &[Bit],
    index: &Term,
    number: usize,
    item: &Term,
    set: &Term,
) -> Result<Both<Linear, EqualSets>, AllocError>
    requires kinds { layout.now.kinds ≡ kinds.now }
    requires index { HasSort kinds.now Integer index.now }
    requires item { HasSort kinds.now IntegerSet item.now }
    requires set { HasSort kinds.now IntegerSet set.now }
    requires bits { (scope : List Variable) × AreBitsWith layout.now scope bits.now (index.now ∷ set.now ∷ item.now ∷ []) }
    ensures over { IfOk result (IsBranchOver (length bits.now)) }
    ensures tells { IfOk result (λ m. Tells layout.now bits.now (index.now ∷ set.now ∷ item.now ∷ []) (λ w. Accepted bits.now w m) (BranchHolds index.now number item.now set.now)) }
{
    // What holds of machines side by side.
    side_by_side_accepts::<linear_machine::State, (bool, element_machine::Marks)>();
    let first = index_machine(alloc, layout, kinds, bits, index, number)?;
    let second = equality_machine(alloc, layout, kinds, bits, item, set)?;
    Ok(Both { first, second })
}

/// The machine that accepts where the two sets are equal.
fn equality_machine(
    alloc: Global,
    layout: &Layout,
    kinds: &[Kind],
    bits: &[Bit],
    item: &Term,
    set: &Term,
) -> Result<EqualSets, AllocError>
    requires kinds { layout.now.kinds ≡ kinds.now }
    requires item { HasSort kinds.now IntegerSet item.now }
    requires set { HasSort kinds.now IntegerSet set.now }
    ensures over { IfOk result (IsEqualityOver (length bits.now)) }
    ensures tells { IfOk result (λ m. Tells layout.now bits.now (item.now ∷ set.now ∷ []) (λ w. AcceptsEquality bits.now w m) (AreEqualSets item.now set.now)) }
{
    // What holds of every layout.
    layout.obeys_order();
    let operands = pair_of(alloc, item, set)?;
    let table = Table::new(alloc, layout, kinds, &operands)?;
    let places = places_among(alloc, table.bits.as_slice(), bits)?;
    Ok(EqualSets { table, places })
}

/// The machine that accepts where the index is the place, which is counted from 0.
fn index_machine(
    alloc: Global,
    layout: &Layout,
    kinds: &[Kind],
    bits: &[Bit],
    index: &Term,
    number: usize,
) -> Result<Linear, AllocError>
    requires kinds { layout.now.kinds ≡ kinds.now }
    requires index { HasSort kinds.now Integer index.now }
    requires bits { (scope : List Variable) × AreBitsWith layout.now scope bits.now (index.now ∷ []) }
    ensures places { IfOk result (λ m. length m.weights ≡ length bits.now) }
    ensures tells { IfOk result (λ m. Tells layout.now bits.now (index.now ∷ []) (λ w. accepts (rules_of m) bits.now w ≡ true) (IsAtIndex index.now number)) }
{
    // What holds of every layout, and of the bits of terms.
    layout.obeys_order();
    scopes_have_the_bits_of_terms();
    let terms = index_terms(alloc, index)?;
    linear_over(
        alloc,
        layout,
        kinds,
        bits,
        terms.as_slice(),
        index_constant(index, number),
        Comparison::Equal,
    )
}

/// The term of an index that is a variable.
fn index_terms(alloc: Global, index: &Term) -> Result<Vec<LinearTerm>, AllocError>
    ensures { IfOk result (λ terms. terms.items ≡ index_terms index.now) }
{
    let mut terms = Vec::new(alloc);
    match index {
        Term::Const(_) => Ok(terms),
        Term::Var(variable) => {
            terms.push(LinearTerm {
                coefficient: 1,
                variable: *variable,
            })?;
            Ok(terms)
        }
    }
}

/// What is left of the index, less the place.
fn index_constant(index: &Term, number: usize) -> i128
    ensures value { result ≡ index_constant index.now number }
    ensures size { unsigned_abs result ≤ 2 ^ 100 }
{
    known_part(index) - place_of(number)
}

/// The place, counted from 1.
fn place_of(number: usize) -> i128
    ensures value { result ≡ pos (suc number) }
    ensures size { unsigned_abs result ≤ 2 ^ 65 }
{
    number as i128 + 1
}

fn known_part(index: &Term) -> i128
    ensures value { result ≡ known_part index.now }
    ensures size { unsigned_abs result ≤ 2 ^ 64 }
{
    match index {
        Term::Const(value) => integer_of(value),
        Term::Var(_) => 0,
    }
}

/// The integer that the value is, and 0 for any other.
fn integer_of(value: &Value) -> i128
    ensures value { result ≡ integer_of value.now }
    ensures size { unsigned_abs result ≤ 2 ^ 64 }
{
    match value {
        Value::Bool(_) => 0,
        Value::Int(x) => i128::from(*x),
        Value::Set(_) => 0,
    }
}
