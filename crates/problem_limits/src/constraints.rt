//! Whether a constraint keeps the limits.
ghost use Rattle.std.specs.Prelude.{◌≡◌, ◌↔◌, ◌≤◌, List, length, IsTrue, IfOk, All, sum_by};
ghost use Rattle.std.specs.List.{flat_map};
ghost use Rattle.set_meaning.specs.declared.problems.VarId.{VarId as AnyVariable};
ghost use Rattle.set_meaning.specs.Relations.{IsScope, terms_of};
ghost use Rattle.bit_layout.specs.Limits.{AreWithinLimits};
ghost use Rattle.problem_limits.specs.Limits.{IsSmallTerm, IsWithinLimits, width_in};
ghost use Rattle.problem_limits.specs.Parts.{AreSmallIn};

use crate::kinds::is_small;
use bit_layout::width;
use set_meaning::{Arg, Constraint, Kind, Term, Value, VarId, scope};
use std::alloc::{AllocError, Global};

/// The most terms of a constraint.
const TERM_LIMIT: u128 = 4_194_304;

/// The most bits of the variables of a constraint.
const SCOPE_LIMIT: u32 = 2048;

/// Whether the constraint, over variables of these kinds, keeps the limits: integer constants from -1,000,000,000 to
/// 1,000,000,000, at most 4,194,304 terms, and variables of at most 2,048 bits in all. It takes the time and memory
/// of a sort of the constraint's variables. An `Err` is want of memory.
pub fn is_within_limits(alloc: Global, kinds: &[Kind], c: &Constraint) -> Result<bool, AllocError>
    requires { AreWithinLimits kinds.now }
    ensures { IfOk result (λ within. IsTrue within ↔ IsWithinLimits kinds.now c.now) }
{
    if !are_small_arguments(c.args.items()) {
        return Ok(false);
    }
    if !are_few_terms(c.args.items()) {
        return Ok(false);
    }
    let narrow = has_narrow_scope(alloc, kinds, c)?;
    Ok(narrow)
}

fn are_small_arguments(args: &[Arg]) -> bool
    ensures { IsTrue result ↔ All AreSmallIn args.now }
{
    args.iter().all(|arg| is_small_argument(arg))
}

#[tactic(auto, unfolding(crate::specs::Parts::AreSmallIn))]
fn is_small_argument(arg: &Arg) -> bool
    ensures { IsTrue result ↔ AreSmallIn arg.now }
{
    are_small_terms(arg.terms())
}

fn are_small_terms(terms: &[Term]) -> bool
    ensures { IsTrue result ↔ All IsSmallTerm terms.now }
{
    terms.iter().all(|term| is_small_term(term))
}

fn is_small_term(term: &Term) -> bool
    ensures { IsTrue result ↔ IsSmallTerm term.now }
{
    match term {
        Term::Const(value) => match value {
            Value::Int(x) => is_small(*x),
            Value::Bool(_) => true,
            Value::Set(_) => true,
        },
        Term::Var(_) => true,
    }
}

fn are_few_terms(args: &[Arg]) -> bool
    ensures { IsTrue result ↔ (length (flat_map terms_of args.now) ≤ 4194304) }
{
    let mut terms = 0u128;
    for arg in args {
        terms += arg.terms().len() as u128;
        if terms > TERM_LIMIT {
            return false;
        }
    }
    true
}

fn has_narrow_scope(alloc: Global, kinds: &[Kind], c: &Constraint) -> Result<bool, AllocError>
    requires { AreWithinLimits kinds.now }
    ensures { IfOk result (λ narrow. IsTrue narrow ↔ ((vs : List AnyVariable) → IsScope c.now vs → sum_by (width_in kinds.now) vs ≤ 2048)) }
{
    let scope = scope(alloc, c)?;
    Ok(are_narrow(kinds, scope.as_slice()))
}

/// Whether the variables have few bits in all.
fn are_narrow(kinds: &[Kind], scope: &[VarId]) -> bool
    requires { AreWithinLimits kinds.now }
    ensures { IsTrue result ↔ (sum_by (width_in kinds.now) scope.now ≤ 2048) }
{
    let mut bits = 0u32;
    for variable in scope {
        bits += width_in(kinds, *variable);
        if bits > SCOPE_LIMIT {
            return false;
        }
    }
    true
}

/// The bits of one variable.
fn width_in(kinds: &[Kind], variable: VarId) -> u32
    requires { AreWithinLimits kinds.now }
    ensures bits { result ≡ width_in kinds.now variable }
    ensures within { result ≤ 1048576 }
{
    match kinds.get(variable.0 as usize) {
        None => 0,
        Some(kind) => width(kind),
    }
}
