//! Whether a problem is well formed.
ghost use Rattle.std.specs.Prelude.{◌≡◌, ◌↔◌, ◌≤◌, [], length, IsTrue, All};
ghost use Rattle.set_meaning.specs.declared.problems.Term.TheVariants.{Const, Var};
ghost use Rattle.set_meaning.specs.declared.rows.Sort.TheVariants.{Integer};
ghost use Rattle.set_meaning.specs.Problems.{IsDim, IsGoal, IsProblem, IsShown};
ghost use Rattle.set_meaning.specs.Rows.{FitsRow, HasSort, IsTerm};
ghost use Rattle.problem_limits.specs.Parts.{HasSomeSort};

use crate::kinds::are_kinds;
use set_meaning::{Constraint, Dim, Goal, Kind, Problem, Shown, Term, Value, VarId, fits_row};

/// Whether the problem is well formed, but for limits on sizes. Takes no memory, and time for each part of the
/// problem once.
pub(crate) fn is_problem(p: &Problem) -> bool
    ensures { IsTrue result ↔ IsProblem p.now }
{
    let kinds = p.kinds.items();
    if !are_kinds(kinds) {
        return false;
    }
    if p.names.items().len() != kinds.len() {
        return false;
    }
    if !all_fit(kinds, p.constraints.items()) {
        return false;
    }
    if !is_goal(kinds, p.goal) {
        return false;
    }
    are_shown(kinds, p.shown.items())
}

fn all_fit(kinds: &[Kind], constraints: &[Constraint]) -> bool
    ensures { IsTrue result ↔ All (FitsRow kinds.now) constraints.now }
{
    constraints.iter().all(|c| fits_row(kinds, c))
}

fn is_goal(kinds: &[Kind], goal: Goal) -> bool
    ensures { IsTrue result ↔ IsGoal kinds.now goal }
{
    match goal {
        Goal::Satisfy => true,
        Goal::Minimize(variable) => is_integer(kinds, variable),
        Goal::Maximize(variable) => is_integer(kinds, variable),
    }
}

/// Whether the variable is an integer.
fn is_integer(kinds: &[Kind], variable: VarId) -> bool
    ensures { IsTrue result ↔ HasSort kinds.now Integer (Var variable) }
{
    match kinds.get(variable.0 as usize) {
        Some(Kind::Int(_)) => true,
        _ => false,
    }
}

fn are_shown(kinds: &[Kind], shown: &[Shown]) -> bool
    ensures { IsTrue result ↔ All (IsShown kinds.now) shown.now }
{
    shown.iter().all(|item| is_shown(kinds, item))
}

fn is_shown(kinds: &[Kind], item: &Shown) -> bool
    ensures { IsTrue result ↔ IsShown kinds.now item.now }
{
    if !are_terms(kinds, item.terms.items()) {
        return false;
    }
    if !are_dims(item.dims.items()) {
        return false;
    }
    has_terms_for(item.dims.items(), item.terms.items())
}

fn are_terms(kinds: &[Kind], terms: &[Term]) -> bool
    ensures { IsTrue result ↔ All (HasSomeSort kinds.now) terms.now }
{
    terms.iter().all(|term| is_term(kinds, term))
}

/// Whether the term is a constant or one of the variables.
#[tactic(auto, unfolding(crate::specs::Parts::HasSomeSort))]
fn is_term(kinds: &[Kind], term: &Term) -> bool
    ensures { IsTrue result ↔ HasSomeSort kinds.now term.now }
{
    match term {
        Term::Const(value) => is_value(kinds, value),
        Term::Var(variable) => is_variable(kinds, *variable),
    }
}

/// Every value is of some sort.
fn is_value(kinds: &[Kind], value: &Value) -> bool
    ensures { IsTrue result ↔ IsTerm kinds.now (Const value.now) }
{
    match value {
        Value::Bool(_) => true,
        Value::Int(_) => true,
        Value::Set(set) => {
            let _ = set.elements();
            true
        }
    }
}

fn is_variable(kinds: &[Kind], variable: VarId) -> bool
    ensures { IsTrue result ↔ IsTerm kinds.now (Var variable) }
{
    match kinds.get(variable.0 as usize) {
        Some(_) => true,
        None => false,
    }
}

fn are_dims(dims: &[Dim]) -> bool
    ensures { IsTrue result ↔ All IsDim dims.now }
{
    dims.iter().all(|dim| is_dim(dim))
}

/// The list of a dimension is in order by its type.
fn is_dim(dim: &Dim) -> bool
    ensures { IsTrue result ↔ IsDim dim.now }
{
    match dim {
        Dim::Range(_, _) => true,
        Dim::List(elements) => {
            let _ = elements.elements();
            true
        }
    }
}

/// Whether there is one term, where there are no dimensions.
fn has_terms_for(dims: &[Dim], terms: &[Term]) -> bool
    ensures { IsTrue result ↔ (dims.now ≡ [] → length terms.now ≡ 1) }
{
    if !dims.is_empty() {
        return true;
    }
    terms.len() == 1
}
