//! The first fault at the name of a constraint, or of a variable that is given a value.

ghost use Rattle.std.specs.Prelude.{◌≡◌, ◌↔◌, ◌+◌, ◌<◌, ◌≤◌, IsTrue, length, map, sum_by, Some, IfOk, All};
ghost use Rattle.bit_layout.specs.Limits.{AreWithinLimits};
ghost use Rattle.set_meaning.specs.Rows.{ArePaired, AreOfOneLength};
ghost use Rattle.fzn_model.specs.ConstraintFaults.{IsUnpaired, IsWide, OfConstraint, OfCounts, OfGood, OfMade, OfNaming, before_of, term_count};
ghost use Rattle.fzn_model.specs.FaultsOf.{HasGoodArguments, InConstraint, bits_at};
ghost use Rattle.fzn_model.specs.FirstFault.{IsFirstOf};
ghost use Rattle.fzn_model.specs.Meanings.{IsShort};
ghost use Rattle.fzn_model.specs.ProblemOf.{constraint_named};
ghost use Rattle.fzn_model.specs.Shapes.{argument_shapes};
ghost use Rattle.fzn_model.specs.State.{AreSoFar, naming_of};
ghost use Rattle.fzn_model.specs.Shared.{arg_in, constraint_in};

use crate::declared::Declared;
use crate::earlier::earlier;
use crate::faults::ModelFault;
use crate::names::{ConstraintName, named};
use crate::pieces::constraint_named;
use crate::shared::{SharedArg, SharedConstraint};
use crate::so_far::SoFar;
use crate::term_counts::term_count;
use crate::variables::scope;
use bit_layout::width;
use fzn_parser::{Expr, Form, Item};
use set_meaning::{Kind, VarId, row_of};
use std::alloc::{AllocError, Global};
use std::slice;

/// The most bits of the variables of one constraint.
const SCOPE_LIMIT: u32 = 2048;

/// The most constraints.
const CONSTRAINT_LIMIT: u64 = 100_000;

/// The most terms of all constraints together.
const TERM_LIMIT: u128 = 4_194_304;

/// The first fault at the name of the constraint that the item adds, if it adds one. `is_good` says that no argument
/// has a fault. An `Err` is want of memory.
pub(crate) fn fault_at_constraint(
    alloc: Global,
    so_far: &SoFar,
    before: &[Item],
    item: &Item,
    is_good: bool,
) -> Result<Option<ModelFault>, AllocError>
    requires state { AreSoFar before.now so_far.now }
    requires good { IsTrue is_good ↔ HasGoodArguments before.now item.now }
    ensures { IfOk result (IsFirstOf (InConstraint before.now item.now)) }
{
    let _ = before;
    match &item.form {
        Form::Constraint { name, args, .. } => {
            fault_of_constraint(
                alloc,
                so_far,
                is_good,
                name.at,
                name.name.items(),
                args.items(),
            )
        }
        Form::Variable { name, value, .. } => match value {
            Some(value) => {
                let expressions = slice::from_ref(value);
                Ok(fault_of_counts(so_far, is_good, name.at, 1, expressions))
            }
            None => Ok(None),
        },
        Form::Predicate => Ok(None),
        Form::Param { .. } => Ok(None),
        Form::Array { .. } => Ok(None),
        Form::Solve { .. } => Ok(None),
    }
}

/// The first fault at the name of a constraint item.
fn fault_of_constraint(
    alloc: Global,
    so_far: &SoFar,
    is_good: bool,
    at: usize,
    name: &[u8],
    args: &[Expr],
) -> Result<Option<ModelFault>, AllocError>
    requires within { AreWithinLimits so_far.now.kinds.items }
    requires constraints { so_far.now.counts.constraints ≤ 100000 }
    requires terms { so_far.now.counts.terms ≤ 4194304 }
    requires short { IsTrue is_good → All IsShort args.now }
    ensures { IfOk result (IsFirstOf (OfConstraint (IsTrue is_good) at (before_of so_far.now) name.now args.now)) }
{
    match fault_of_naming(at, name, args.len()) {
        Some(fault) => Ok(Some(fault)),
        None => {
            let own = fault_of_arguments(alloc, so_far, is_good, at, name, args)?;
            let counted = fault_of_counts(so_far, is_good, at, 0, args);
            Ok(earlier(own, counted))
        }
    }
}

// ---- the name and the number of arguments

/// The fault of a constraint whose name no relation has, or that has another number of arguments than its relation.
fn fault_of_naming(at: usize, name: &[u8], count: usize) -> Option<ModelFault>
    ensures { IsFirstOf (OfNaming at name.now count) result }
{
    match named(name) {
        None => Some(ModelFault::UnknownConstraint { at }),
        Some(named) => {
            if count == argument_count(named) {
                return None;
            }
            Some(ModelFault::WrongCount { at })
        }
    }
}

/// How many arguments a constraint of the name has.
fn argument_count(name: ConstraintName) -> usize
    ensures { result ≡ length (argument_shapes name) }
{
    let own = match row_of(name.relation).third {
        Some(_) => 3,
        None => 2,
    };
    if name.is_reified { own + 1 } else { own }
}

// ---- the arguments

/// The first fault of a constraint that needs arguments without faults. No array and no set is copied.
fn fault_of_arguments(
    alloc: Global,
    so_far: &SoFar,
    is_good: bool,
    at: usize,
    name: &[u8],
    args: &[Expr],
) -> Result<Option<ModelFault>, AllocError>
    requires within { AreWithinLimits so_far.now.kinds.items }
    requires short { IsTrue is_good → All IsShort args.now }
    ensures { IfOk result (IsFirstOf (OfGood (IsTrue is_good) at so_far.now.kinds.items (constraint_named (naming_of so_far.now.declared) name.now args.now))) }
{
    if !is_good {
        return Ok(None);
    }
    match constraint_named(alloc, &so_far.declared, name, args)? {
        None => Ok(None),
        Some(made) => fault_of_made(alloc, so_far.kinds.as_slice(), at, &made),
    }
}

/// The first fault of a constraint at this place.
fn fault_of_made(
    alloc: Global,
    kinds: &[Kind],
    at: usize,
    made: &SharedConstraint,
) -> Result<Option<ModelFault>, AllocError>
    requires { AreWithinLimits kinds.now }
    ensures { IfOk result (IsFirstOf (OfMade at kinds.now (Some (constraint_in made.now)))) }
{
    if is_unpaired(made) {
        return Ok(Some(ModelFault::WrongCount { at }));
    }
    if is_wide(alloc, kinds, made)? {
        return Ok(Some(ModelFault::ScopeTooWide { at }));
    }
    Ok(None)
}

/// Whether the constraint is a linear one whose two lists differ in length.
fn is_unpaired(c: &SharedConstraint) -> bool
    ensures { IsTrue result ↔ IsUnpaired (constraint_in c.now) }
{
    row_of(c.relation).paired && !are_paired(c.args.as_slice())
}

fn are_paired(args: &[SharedArg]) -> bool
    ensures { IsTrue result ↔ ArePaired (map arg_in args.now) }
{
    match args {
        [a, b, ..] => are_of_one_length(a, b),
        _ => false,
    }
}

fn are_of_one_length(a: &SharedArg, b: &SharedArg) -> bool
    ensures { IsTrue result ↔ AreOfOneLength (arg_in a.now) (arg_in b.now) }
{
    match (a, b) {
        (SharedArg::Many(cs), SharedArg::Many(xs)) => cs.len() == xs.len(),
        _ => false,
    }
}

/// Whether the variables of the constraint have too many bits.
fn is_wide(alloc: Global, kinds: &[Kind], c: &SharedConstraint) -> Result<bool, AllocError>
    requires { AreWithinLimits kinds.now }
    ensures { IfOk result (λ wide. IsTrue wide ↔ IsWide kinds.now (constraint_in c.now)) }
{
    let scope = scope(alloc, c)?;
    Ok(have_many_bits(kinds, scope.as_slice()))
}

fn have_many_bits(kinds: &[Kind], scope: &[VarId]) -> bool
    requires { AreWithinLimits kinds.now }
    ensures { IsTrue result ↔ (2048 < sum_by (bits_at kinds.now) scope.now) }
{
    let mut bits = 0u32;
    for variable in scope {
        bits += bits_at(kinds, *variable);
        if bits > SCOPE_LIMIT {
            return true;
        }
    }
    false
}

/// The bits of one variable.
fn bits_at(kinds: &[Kind], variable: VarId) -> u32
    requires { AreWithinLimits kinds.now }
    ensures bits { result ≡ bits_at kinds.now variable }
    ensures within { result ≤ 1048576 }
{
    match kinds.get(variable.0 as usize) {
        None => 0,
        Some(kind) => width(kind),
    }
}

// ---- counts

/// The fault at a constraint with which there are too many, or too many terms: `own` terms and those of these
/// expressions.
fn fault_of_counts(
    so_far: &SoFar,
    is_good: bool,
    at: usize,
    own: u64,
    expressions: &[Expr],
) -> Option<ModelFault>
    requires constraints { so_far.now.counts.constraints ≤ 100000 }
    requires terms { so_far.now.counts.terms ≤ 4194304 }
    requires own { own ≤ 1 }
    ensures { IsFirstOf (OfCounts (IsTrue is_good) at (before_of so_far.now) own expressions.now) result }
{
    if so_far.counts.constraints + 1 > CONSTRAINT_LIMIT {
        return Some(ModelFault::TooManyConstraints { at });
    }
    if !is_good {
        return None;
    }
    let start = u128::from(so_far.counts.terms + own);
    if have_many_terms(&so_far.declared, start, expressions) {
        return Some(ModelFault::TooManyConstraints { at });
    }
    None
}

/// Whether these expressions with `start` terms more have too many terms.
fn have_many_terms(declared: &Declared, start: u128, expressions: &[Expr]) -> bool
    requires { start ≤ 4194305 }
    ensures { IsTrue result ↔ (4194304 < start + sum_by (term_count (naming_of declared.now)) expressions.now) }
{
    let mut terms = start;
    for expression in expressions {
        terms = terms.saturating_add(term_count(declared, expression));
    }
    terms > TERM_LIMIT
}
