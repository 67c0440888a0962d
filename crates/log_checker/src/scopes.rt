//! Whether the sides of an axiom are of its constraint's variables.

ghost use Rattle.std.specs.Prelude.{◌≡◌, ◌↔◌, Some, None, slice_get, IfOk, IfSome, IfNone, IsTrue, All, Any};
ghost use Rattle.set_meaning.specs.Relations.{IsScope};
ghost use Rattle.log_text.specs.declared.line.Line.TheVariants as lines;
ghost use Rattle.log_rules.specs.Rules.{HasScope};
ghost use Rattle.log_checker.specs.Words.{SideStands};

use crate::lines::Check;
use set_meaning::{Constraint, VarId, scope};
use std::alloc::{AllocError, Global};

/// Whether there is such a constraint, and each side is of a variable that stands in it.
pub(crate) fn has_scope(
    check: &Check<'_>,
    constraint: u64,
    sides: &[(u64, u64)],
) -> Result<bool, AllocError>
    ensures { IfOk result (λ yes. IsTrue yes ↔ HasScope check.now.problem.now (lines.Axiom 0 constraint sides.now)) }
{
    match constraint_at(check, constraint) {
        Some(c) => {
            let yes = all_stand_in(check.alloc, c, sides)?;
            Ok(yes)
        }
        None => Ok(false),
    }
}

/// The constraint of this number.
fn constraint_at<'a>(check: &'a Check<'_>, number: u64) -> Option<&'a Constraint>
    ensures some { IfSome result (λ c. slice_get check.now.problem.now.constraints number ≡ Some c.now) }
    ensures none { IfNone result (slice_get check.now.problem.now.constraints number ≡ None) }
{
    check.problem.constraints.items().get(number as usize)
}

/// Whether each side is of a variable that stands in the constraint.
fn all_stand_in(alloc: Global, c: &Constraint, sides: &[(u64, u64)]) -> Result<bool, AllocError>
    ensures { IfOk result (λ yes. IsTrue yes ↔ All (SideStands c.now) sides.now) }
{
    let scope = scope(alloc, c)?;
    for side in sides {
        if !stands_in(c, scope.as_slice(), *side) {
            return Ok(false);
        }
    }
    Ok(true)
}

/// Whether the side is of a variable that stands in the constraint, whose variables these are.
fn stands_in(_c: &Constraint, scope: &[VarId], side: (u64, u64)) -> bool
    requires { IsScope _c.now scope.now }
    ensures { IsTrue result ↔ SideStands _c.now side }
{
    is_among(scope, side.0)
}

/// Whether the variable is one of these.
fn is_among(variables: &[VarId], variable: u64) -> bool
    ensures { IsTrue result ↔ Any (λ v. v.0 ≡ variable) variables.now }
{
    variables.iter().any(|v| u64::from(v.0) == variable)
}
