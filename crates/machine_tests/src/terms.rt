//! Sums over two sets with a common element, a Boolean and an integer with holes, against words listed by hand.
ghost use Rattle.std.specs.Prelude.{◌≡◌, ◌<◌, IfOk, List, All, length, map};
ghost use Rattle.diagram_arena.specs.Table.{IsLive};
ghost use Rattle.diagram_arena.specs.Arena.{table};
ghost use Rattle.linear_terms.specs.Terms.{AreTermsSmall};

use crate::samples::{ints, layout_of, listed, problem, sets, word};
use bit_layout::Layout;
use bit_machine::build;
use diagram_arena::{Ref, Stop};
use diagram_ops::Ops;
use linear_machine::Comparison;
use linear_terms::{LinearTerm, linear_over, scopes_have_the_bits_of_terms};
use scope_words::scope_bits;
use set_meaning::{Kind, Problem, VarId};
use std::alloc::{AllocError, Global};
use std::test::Fail;

fn kinds(alloc: Global) -> Result<Vec<Kind>, AllocError>
    ensures four { IfOk result (λ kinds. length kinds.items ≡ 4) }
{
    let odd = sets(alloc, [1, 3].as_slice())?;
    let late = sets(alloc, [2, 3].as_slice())?;
    let with_holes = ints(alloc, [4, 6, 9].as_slice())?;
    let kinds = vec![in alloc; odd, Kind::Bool, late, with_holes]?;
    Ok(kinds)
}

/// The variables of the terms.
fn variables(alloc: Global, terms: &[LinearTerm]) -> Result<Vec<VarId>, AllocError>
    ensures { IfOk result (λ vs. vs.items ≡ map (λ t. t.variable) terms.now) }
{
    terms.iter().map(|t| t.variable).collect(alloc)
}

/// The diagram of the words for which the constant and the terms compare so with 0.
fn built(
    alloc: Global,
    ops: &mut Ops,
    layout: &Layout,
    p: &Problem,
    terms: &[LinearTerm],
    constant: i128,
    comparison: Comparison,
) -> Result<Ref, Stop>
    requires kinds { layout.now.kinds ≡ p.now.kinds }
    requires known { All (λ t. t.variable.0 < length p.now.kinds) terms.now }
    requires small { AreTermsSmall terms.now constant }
{
    // What holds of the layout, and of the bits of a scope.
    layout.obeys_order();
    scopes_have_the_bits_of_terms();
    let scope = variables(alloc, terms)?;
    let bits = scope_bits(alloc, layout, scope.as_slice())?;
    let machine = linear_over(
        alloc,
        layout,
        p.kinds.items(),
        bits.as_slice(),
        terms,
        constant,
        comparison,
    )?;
    if bits.len() > 2_048 {
        return Ok(Ref::Zero);
    }
    build(alloc, ops, &machine, bits.as_slice())
}

fn term(coefficient: i64, variable: u32) -> LinearTerm
    ensures { result ≡ record { coefficient = coefficient; variable = record { 0 = variable } } }
{
    LinearTerm {
        coefficient,
        variable: VarId(variable),
    }
}

const F: bool = false;

const T: bool = true;

/// Twice the integer is at most 11, or at most 14 where the Boolean is true; its offset from 4 has three bits.
#[test]
fn counts_from_the_least_value(rt: HostRuntime) -> Result<(), Fail> {
    let alloc = rt.alloc();
    let p = problem(alloc, kinds(alloc)?);
    let layout = layout_of(alloc, &p)?;
    let mut ops = Ops::new(alloc, 100, 1)?;
    let terms = [term(2, 3), term(-3, 1)];
    let sum = built(
        alloc,
        &mut ops,
        &layout,
        &p,
        &terms,
        -11,
        Comparison::AtMost,
    )?;
    let words: [&[bool]; 6] = [
        &[F, F, F, F],
        &[F, F, F, T],
        &[T, F, F, F],
        &[T, F, F, T],
        &[T, F, T, F],
        &[T, F, T, T],
    ];
    assert_eq!(rt; listed(&mut ops, &[0, 1, 2, 3], &words), Ok(sum));
    Ok(())
}

/// The two sets have as many elements; their bits lie element by element.
#[test]
fn counts_elements(rt: HostRuntime) -> Result<(), Fail> {
    let alloc = rt.alloc();
    let p = problem(alloc, kinds(alloc)?);
    let layout = layout_of(alloc, &p)?;
    let mut ops = Ops::new(alloc, 100, 1)?;
    let terms = [term(1, 0), term(-1, 2)];
    let sum = built(alloc, &mut ops, &layout, &p, &terms, 0, Comparison::Equal)?;
    let words: [&[bool]; 6] = [
        &[F, F, F, F],
        &[T, T, F, F],
        &[T, F, F, T],
        &[F, T, T, F],
        &[F, F, T, T],
        &[T, T, T, T],
    ];
    assert_eq!(rt; listed(&mut ops, &[4, 5, 6, 7], &words), Ok(sum));
    Ok(())
}

/// A variable in several terms has the sum of their coefficients.
#[test]
fn adds_terms_of_one_variable(rt: HostRuntime) -> Result<(), Fail> {
    let alloc = rt.alloc();
    let p = problem(alloc, kinds(alloc)?);
    let layout = layout_of(alloc, &p)?;
    let mut ops = Ops::new(alloc, 100, 1)?;
    let terms = [term(1, 3), term(1, 3), term(-2, 3)];
    assert_eq!(rt;
        built(
            alloc,
            &mut ops,
            &layout,
            &p,
            &terms,
            0,
            Comparison::Different
        ),
        Ok(Ref::Zero)
    );
    Ok(())
}

/// Twice a Boolean is 2 just where it is true.
#[test]
fn counts_a_boolean_twice(rt: HostRuntime) -> Result<(), Fail> {
    let alloc = rt.alloc();
    let p = problem(alloc, kinds(alloc)?);
    let layout = layout_of(alloc, &p)?;
    let mut ops = Ops::new(alloc, 100, 1)?;
    let terms = [term(1, 1), term(1, 1)];
    let twice = built(alloc, &mut ops, &layout, &p, &terms, -2, Comparison::Equal)?;
    assert_eq!(rt; listed(&mut ops, &[0], &[&[T]]), Ok(twice));
    Ok(())
}
