//! Membership of an integer in a set.
ghost use Rattle.std.specs.Prelude.{◌≡◌, ◌↔◌, ◌∷◌, [], ℤ, List, IfOk, All, Contains};
ghost use Rattle.std.specs.List.{AllZip, flat_map};
ghost use Rattle.set_meaning.specs.declared.problems.Relation.TheVariants.{SetIn};
ghost use Rattle.set_meaning.specs.Relations.{terms_of};
ghost use Rattle.set_meaning.specs.Rows.{HasShape, row_of, shapes_of};
ghost use Rattle.set_meaning.specs.Sets.{Has};
ghost use Rattle.problem_limits.specs.Limits.{HasSmallNumbers, IsSmallNumber, IsSmallTerm};
ghost use Rattle.int_channel.specs.Forms.{AreBranchesOf};
ghost use Rattle.int_channel.specs.Choices.{AreChoicesOf, AreTwoTerms, IsBranchWhere, IsOneOf, MayHave, TermHas, elements_in, elements_of, elements_of_constant, number_of_term};

use crate::choices::amounts::trivial;
use crate::choices::arguments::two_terms;
use crate::choices::facts::is_number;
use crate::choices::numbers::{kind_at, numbers_of, push_if};
use crate::forms::{Atom, Branch};
use set_meaning::{Arg, Kind, SetValue, Term, Value};
use std::alloc::{AllocError, Global};

/// A branch for each number that the first can be and the set can have: it is the number, and the set has it.
pub(super) fn membership(
    alloc: Global,
    kinds: &[Kind],
    args: &[Arg],
) -> Result<Vec<Branch>, AllocError>
    requires shape { AreTwoTerms args.now }
    requires fits { AllZip (HasShape kinds.now) (shapes_of (row_of SetIn)) args.now }
    requires small { All IsSmallTerm (flat_map terms_of args.now) }
    requires numbers { All HasSmallNumbers kinds.now }
    ensures { IfOk result (λ bs. AreBranchesOf kinds.now SetIn args.now bs.items) }
{
    let terms = two_terms(args);
    let numbers = numbers_of(alloc, kinds, terms.first)?;
    let shared = shared(alloc, kinds, numbers.as_slice(), terms.second)?;
    let branches = members(alloc, kinds, shared.as_slice(), terms.first, terms.second)?;
    Ok(branches)
}

/// Those of the numbers that the set can have.
fn shared(
    alloc: Global,
    kinds: &[Kind],
    numbers: &[i64],
    set: &Term,
) -> Result<Vec<i64>, AllocError>
    ensures { IfOk result (λ shared. (n : ℤ) → Contains shared.items n ↔ (Contains numbers.now n × Has (elements_of kinds.now set.now) n)) }
{
    match set {
        Term::Const(value) => shared_with_constant(alloc, numbers, value),
        Term::Var(variable) => match kind_at(kinds, *variable) {
            Some(kind) => shared_with_kind(alloc, numbers, kind),
            None => Ok(Vec::new(alloc)),
        },
    }
}

fn shared_with_constant(
    alloc: Global,
    numbers: &[i64],
    value: &Value,
) -> Result<Vec<i64>, AllocError>
    ensures { IfOk result (λ shared. (n : ℤ) → Contains shared.items n ↔ (Contains numbers.now n × Has (elements_of_constant value.now) n)) }
{
    match value {
        Value::Bool(_) => Ok(Vec::new(alloc)),
        Value::Int(_) => Ok(Vec::new(alloc)),
        Value::Set(set) => shared_with_set(alloc, numbers, set),
    }
}

fn shared_with_kind(alloc: Global, numbers: &[i64], kind: &Kind) -> Result<Vec<i64>, AllocError>
    ensures { IfOk result (λ shared. (n : ℤ) → Contains shared.items n ↔ (Contains numbers.now n × Has (elements_in kind.now) n)) }
{
    match kind {
        Kind::Bool => Ok(Vec::new(alloc)),
        Kind::Int(_) => Ok(Vec::new(alloc)),
        Kind::Set(universe) => shared_with_set(alloc, numbers, universe),
    }
}

fn shared_with_set(alloc: Global, numbers: &[i64], set: &SetValue) -> Result<Vec<i64>, AllocError>
    ensures { IfOk result (λ shared. (n : ℤ) → Contains shared.items n ↔ (Contains numbers.now n × Has set.now n)) }
{
    let mut shared = Vec::new(alloc);
    for number in numbers {
        push_if(&mut shared, set.has(*number), *number)?;
    }
    Ok(shared)
}

/// A branch for each of the numbers: `term` is it, and the set has it.
fn members(
    alloc: Global,
    kinds: &[Kind],
    numbers: &[i64],
    term: &Term,
    set: &Term,
) -> Result<Vec<Branch>, AllocError>
    requires numbers { All IsSmallNumber numbers.now }
    requires may { All (λ n. MayHave kinds.now n set.now) numbers.now }
    requires term { IsSmallTerm term.now }
    ensures { IfOk result (λ bs. AreChoicesOf kinds.now (term.now ∷ set.now ∷ []) (IsOneOf term.now numbers.now (λ n values. TermHas values set.now n)) bs.items) }
{
    let mut branches = Vec::new(alloc);
    for number in numbers {
        branches.push(member(alloc, kinds, *number, term, set)?)?;
    }
    Ok(branches)
}

fn member(
    alloc: Global,
    kinds: &[Kind],
    number: i64,
    term: &Term,
    set: &Term,
) -> Result<Branch, AllocError>
    requires number { IsSmallNumber number }
    requires may { MayHave kinds.now number set.now }
    requires term { IsSmallTerm term.now }
    ensures { IfOk result (IsBranchWhere kinds.now (term.now ∷ set.now ∷ []) (λ values. (number_of_term values term.now ≡ number) × TermHas values set.now number)) }
{
    let first = is_number(alloc, term, number)?;
    match set {
        Term::Const(_) => Ok(Branch {
            first,
            second: trivial(alloc),
        }),
        Term::Var(set) => Ok(Branch {
            first,
            second: Atom::Member {
                set: *set,
                element: number,
            },
        }),
    }
}
