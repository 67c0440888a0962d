//! Three variables, x over 1 and 2, y over 2 and 3, and z over 1 and 3, and the constant of 0, 2 and 5. In the numbers
//! that stand for sets bit e is true where e is an element.
ghost use Rattle.std.specs.Prelude.{◌≡◌, IsSome, All, length};
ghost use Rattle.std.specs.List.Sorted.{IsStrictlySortedBy};
ghost use Rattle.set_meaning.specs.declared.problems.Relation.TheVariants as relations;
ghost use Rattle.bit_layout.specs.Order.{place_cmp};
ghost use Rattle.sweep_sets.specs.Reading.{AreGrouped};
ghost use Rattle.sweep_sets.specs.Relations.{FitsRelation};

use bit_layout::Place;
use set_meaning::{Arg, Relation, SetValue, Term, Value, VarId};
use std::alloc::{AllocError, Global};
use std::process::Abort;
use std::test::Fail;
use sweep_rules::Shape;
use sweep_sets::{Rule, SetShape, is_between_sets};

/// A set in a table of cases.
#[derive(Clone, Copy, Debug)]
enum Given {
    X,
    Y,
    Z,
    Constant,
    Empty,
}

/// The places of the three variables, in order.
fn places() -> [Place; 6]
    ensures ascending { IsStrictlySortedBy place_cmp result }
    ensures elements { All (λ p. IsSome p.element) result }
{
    [
        Place {
            element: Some(1),
            variable: VarId(0),
            position: 0,
        },
        Place {
            element: Some(1),
            variable: VarId(2),
            position: 0,
        },
        Place {
            element: Some(2),
            variable: VarId(0),
            position: 1,
        },
        Place {
            element: Some(2),
            variable: VarId(1),
            position: 0,
        },
        Place {
            element: Some(3),
            variable: VarId(1),
            position: 1,
        },
        Place {
            element: Some(3),
            variable: VarId(2),
            position: 1,
        },
    ]
}

fn term(alloc: Global, given: Given) -> Result<Term, AllocError> {
    match given {
        Given::X => Ok(Term::Var(VarId(0))),
        Given::Y => Ok(Term::Var(VarId(1))),
        Given::Z => Ok(Term::Var(VarId(2))),
        Given::Constant => Ok(Term::Const(Value::Set(SetValue::from_list(alloc, &[5, 0, 2])?))),
        Given::Empty => Ok(Term::Const(Value::Set(SetValue::from_list(alloc, &[])?))),
    }
}

/// The set as a number, where the six bits of the variables are the digits of `word`, the first the least.
fn number_of(given: Given, word: u32) -> u32 {
    match given {
        Given::X => (word & 1) << 1 | (word >> 2 & 1) << 2,
        Given::Y => (word >> 3 & 1) << 2 | (word >> 4 & 1) << 3,
        Given::Z => (word >> 1 & 1) << 1 | (word >> 5 & 1) << 3,
        Given::Constant => 37,
        Given::Empty => 0,
    }
}

/// The elements of a set that is given as a number.
fn elements_of(alloc: Global, set: u32) -> Result<Vec<u32>, AllocError> {
    let mut elements = Vec::new(alloc);
    for e in 0..6_u32 {
        if set >> e & 1 == 1 {
            elements.push(e)?;
        }
    }
    Ok(elements)
}

fn is_before(alloc: Global, a: u32, b: u32) -> Result<bool, AllocError> {
    let first = elements_of(alloc, a)?;
    let second = elements_of(alloc, b)?;
    Ok(first.as_slice() < second.as_slice())
}

/// Whether the rule holds of sets that are given as numbers.
fn expected(alloc: Global, rule: Rule, a: u32, b: u32, c: u32) -> Result<bool, AllocError> {
    match rule {
        Rule::Equal => Ok(a == b),
        Rule::Subset => Ok(a & b == a),
        Rule::Superset => Ok(a & b == b),
        Rule::Union => Ok(c == a | b),
        Rule::Intersection => Ok(c == a & b),
        Rule::Difference => Ok(c == (a | b) ^ b),
        Rule::SymmetricDifference => Ok(c == a ^ b),
        Rule::Before => is_before(alloc, a, b),
        Rule::AtMost => Ok(a == b || is_before(alloc, a, b)?),
    }
}

/// Whether the shape accepts the bits that are the digits of `word`.
fn accepts(shape: &SetShape, word: u32) -> bool
    requires valid { AreGrouped (length shape.now.constants) shape.now.entries }
    requires long { length shape.now.entries ≡ 6 }
{
    let mut state = shape.start();
    let mut lost = shape.is_lost(state);
    for at in 0..6_usize {
        state = shape.step(at, state, word >> at & 1 == 1);
        lost = lost || shape.is_lost(state);
    }
    !lost && shape.accepts(state)
}

#[test]
fn relations_of_two_sets(rt: HostRuntime) -> Result<(), Fail> {
    let alloc = rt.alloc();
    let places = places();
    for (a, b) in [
        (Given::X, Given::Y),
        (Given::X, Given::Constant),
        (Given::Constant, Given::Y),
        (Given::X, Given::X),
        (Given::Z, Given::Empty),
        (Given::Constant, Given::Constant),
    ] {
        let first = term(alloc, a)?;
        let second = term(alloc, b)?;
        for rule in [
            Rule::Equal,
            Rule::Subset,
            Rule::Superset,
            Rule::Before,
            Rule::AtMost,
        ] {
            for truth in [false, true] {
                let shape = SetShape::of_two(alloc, &places, rule, truth, &first, &second)?;
                for word in 0..64_u32 {
                    let holds = expected(alloc, rule, number_of(a, word), number_of(b, word), 0)?;
                    assert_eq!(rt;
                        accepts(&shape, word),
                        holds == truth,
                        "{rule:?} {truth} of {a:?} and {b:?} at {word}"
                    );
                }
            }
        }
    }
    Ok(())
}

#[test]
fn relations_of_three_sets(rt: HostRuntime) -> Result<(), Fail> {
    let alloc = rt.alloc();
    let places = places();
    for (a, b, c) in [
        (Given::X, Given::Y, Given::Z),
        (Given::X, Given::X, Given::Y),
        (Given::X, Given::Constant, Given::Z),
        (Given::Constant, Given::Y, Given::Constant),
        (Given::Z, Given::Y, Given::Empty),
    ] {
        let first = term(alloc, a)?;
        let second = term(alloc, b)?;
        let third = term(alloc, c)?;
        for rule in [
            Rule::Union,
            Rule::Intersection,
            Rule::Difference,
            Rule::SymmetricDifference,
        ] {
            for truth in [false, true] {
                let shape = SetShape::of_three(
                    alloc, &places, rule, truth, &first, &second, &third,
                )?;
                for word in 0..64_u32 {
                    let holds = expected(
                        alloc,
                        rule,
                        number_of(a, word),
                        number_of(b, word),
                        number_of(c, word),
                    )?;
                    assert_eq!(rt;
                        accepts(&shape, word),
                        holds == truth,
                        "{rule:?} {truth} of {a:?}, {b:?} and {c:?} at {word}"
                    );
                }
            }
        }
    }
    Ok(())
}

#[test]
fn members(rt: HostRuntime) -> Result<(), Fail> {
    let alloc = rt.alloc();
    let places = places();
    for given in [Given::X, Given::Y, Given::Constant, Given::Empty] {
        let set = term(alloc, given)?;
        for member in 0..6_u32 {
            for truth in [false, true] {
                let shape = SetShape::of_member(alloc, &places, truth, i64::from(member), &set)?;
                for word in 0..64_u32 {
                    let holds = number_of(given, word) >> member & 1 == 1;
                    assert_eq!(rt;
                        accepts(&shape, word),
                        holds == truth,
                        "{member} {truth} in {given:?} at {word}"
                    );
                }
            }
        }
    }
    Ok(())
}

/// The arguments x and y.
fn pair() -> [Arg; 2]
    ensures { FitsRelation relations.SetNe result }
{
    [Arg::One(Term::Var(VarId(0))), Arg::One(Term::Var(VarId(1)))]
}

#[test]
fn sets_that_differ(rt: HostRuntime) -> Result<(), Fail> {
    let alloc = rt.alloc();
    let places = places();
    let args = pair();
    assert!(rt; is_between_sets(Relation::SetNe));
    assert!(rt; !is_between_sets(Relation::SetCard));
    for truth in [false, true] {
        let shape = SetShape::of_relation(alloc, &places, Relation::SetNe, truth, &args)?;
        for word in 0..64_u32 {
            let differ = number_of(Given::X, word) != number_of(Given::Y, word);
            assert_eq!(rt; accepts(&shape, word), differ == truth, "{truth} at {word}");
        }
    }
    Ok(())
}
