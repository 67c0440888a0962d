//! How the shapes of relations of sets are made.
ghost use Rattle.std.specs.Prelude.{◌≡◌, IfOk, IsSome, All, length, [], ◌∷◌};
ghost use Rattle.std.specs.List.Sorted.{IsStrictlySortedBy};
ghost use Rattle.bit_layout.specs.Order.{place_cmp};
ghost use Rattle.sweep_sets.specs.Reading.{AreGrouped};
ghost use Rattle.sweep_sets.specs.Tables.{IsMade};
ghost use Rattle.sweep_sets.specs.Shapes.{IsShapeOfTwo, IsShapeOfThree, IsShapeOfMember};

use crate::operands::{Operand, Operands, operand_of};
use crate::rules::Rule;
use crate::shapes::SetShape;
use crate::tables::{all_elements, constants_of, entries_of};
use bit_layout::Place;
use listed::Listed;
use set_meaning::{SetValue, Term};
use std::alloc::{AllocError, Global};

impl SetShape {
    /// The shape of "the two terms are in the relation", or are not where `truth` is false. `places` are those of set
    /// variables, these terms' among them, in the order in which their bits are read; a third set, if the rule speaks
    /// of one, is empty. It takes time and memory for the places and the elements of constants, with a logarithm of their
    /// number. An `Err` is want of memory.
    pub fn of_two(
        alloc: Global,
        places: &[Place],
        rule: Rule,
        truth: bool,
        first: &Term,
        second: &Term,
    ) -> Result<SetShape, AllocError>
        requires ascending { IsStrictlySortedBy place_cmp places.now }
        requires elements { All (λ p. IsSome p.element) places.now }
        ensures valid { IfOk result (λ s. AreGrouped (length s.constants) s.entries) }
        ensures places { IfOk result (λ s. length s.entries ≡ length places.now) }
        ensures exact { IfOk result (IsShapeOfTwo places.now rule truth first.now second.now) }
    {
        let nothing = SetValue::from_list(alloc, &[])?;
        let operands = Operands {
            first: operand_of(first, &nothing),
            second: operand_of(second, &nothing),
            third: Operand {
                constant: &nothing,
                variable: None,
            },
        };
        made(alloc, places, rule, truth, &operands)
    }

    /// The shape of "the three terms are in the relation", or are not where `truth` is false; otherwise as `of_two`.
    pub fn of_three(
        alloc: Global,
        places: &[Place],
        rule: Rule,
        truth: bool,
        first: &Term,
        second: &Term,
        third: &Term,
    ) -> Result<SetShape, AllocError>
        requires ascending { IsStrictlySortedBy place_cmp places.now }
        requires elements { All (λ p. IsSome p.element) places.now }
        ensures valid { IfOk result (λ s. AreGrouped (length s.constants) s.entries) }
        ensures places { IfOk result (λ s. length s.entries ≡ length places.now) }
        ensures exact { IfOk result (IsShapeOfThree places.now rule truth first.now second.now third.now) }
    {
        let nothing = SetValue::from_list(alloc, &[])?;
        let operands = Operands {
            first: operand_of(first, &nothing),
            second: operand_of(second, &nothing),
            third: operand_of(third, &nothing),
        };
        made(alloc, places, rule, truth, &operands)
    }

    /// The shape of "the set has this element", or has it not where `truth` is false; otherwise as `of_two`.
    pub fn of_member(
        alloc: Global,
        places: &[Place],
        truth: bool,
        member: i64,
        set: &Term,
    ) -> Result<SetShape, AllocError>
        requires ascending { IsStrictlySortedBy place_cmp places.now }
        requires elements { All (λ p. IsSome p.element) places.now }
        ensures valid { IfOk result (λ s. AreGrouped (length s.constants) s.entries) }
        ensures places { IfOk result (λ s. length s.entries ≡ length places.now) }
        ensures exact { IfOk result (IsShapeOfMember places.now truth member set.now) }
    {
        let nothing = SetValue::from_list(alloc, &[])?;
        let single = SetValue::from_list(alloc, &[member])?;
        let operands = Operands {
            first: Operand {
                constant: &single,
                variable: None,
            },
            second: operand_of(set, &nothing),
            third: Operand {
                constant: &nothing,
                variable: None,
            },
        };
        made(alloc, places, Rule::Subset, truth, &operands)
    }
}

/// The shape of the rule over these sets.
fn made(
    alloc: Global,
    places: &[Place],
    rule: Rule,
    truth: bool,
    operands: &Operands,
) -> Result<SetShape, AllocError>
    requires { All (λ p. IsSome p.element) places.now }
    ensures { IfOk result (IsMade operands.now places.now rule truth) }
{
    let elements = all_elements(alloc, operands, places)?;
    let constants = constants_of(alloc, operands, elements.elements())?;
    let entries = entries_of(alloc, operands, elements.elements(), places)?;
    Ok(SetShape {
        rule,
        truth,
        constants: Listed::of(constants),
        entries: Listed::of(entries),
    })
}
