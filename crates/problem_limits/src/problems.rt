//! Whether a problem keeps the limits.
ghost use Rattle.std.specs.Prelude.{◌↔◌, IsTrue, IfOk, All};
ghost use Rattle.bit_layout.specs.Limits.{AreWithinLimits};
ghost use Rattle.problem_limits.specs.Limits.{IsWithinLimits, KeepsLimits};

use crate::constraints::is_within_limits;
use crate::kinds::{are_within_limits, have_small_numbers};
use crate::legality::is_problem;
use set_meaning::{Constraint, Kind, Problem};
use std::alloc::{AllocError, Global};

/// The most constraints of a problem.
const CONSTRAINT_LIMIT: usize = 100_000;

/// Whether the problem is well formed and keeps the limits: kinds of which a layout can be made, integers from
/// -1,000,000,000 to 1,000,000,000, at most 100,000 constraints, and each of them within the limits. Every problem of
/// a text is so; this is the plain test for one that was made in another way. It looks at each part of the problem
/// once, but for the sort of each constraint's variables. An `Err` is want of memory.
pub fn keeps_limits(alloc: Global, p: &Problem) -> Result<bool, AllocError>
    ensures { IfOk result (λ keeps. IsTrue keeps ↔ KeepsLimits p.now) }
{
    if !is_problem(p) {
        return Ok(false);
    }
    if !are_within_limits(p.kinds.items()) {
        return Ok(false);
    }
    if !have_small_numbers(p.kinds.items()) {
        return Ok(false);
    }
    if p.constraints.items().len() > CONSTRAINT_LIMIT {
        return Ok(false);
    }
    let within = all_within_limits(alloc, p.kinds.items(), p.constraints.items())?;
    Ok(within)
}

fn all_within_limits(
    alloc: Global,
    kinds: &[Kind],
    constraints: &[Constraint],
) -> Result<bool, AllocError>
    requires { AreWithinLimits kinds.now }
    ensures { IfOk result (λ all. IsTrue all ↔ All (IsWithinLimits kinds.now) constraints.now) }
{
    for c in constraints {
        if !is_within_limits(alloc, kinds, c)? {
            return Ok(false);
        }
    }
    Ok(true)
}
