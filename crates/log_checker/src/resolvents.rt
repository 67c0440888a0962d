//! Whether a box lies in another, side by side.

ghost use Rattle.std.specs.Prelude.{◌≡◌, ◌↔◌, ◌<◌, ◌&&◌, length, All, IfOk, IsTrue};
ghost use Rattle.log_rules.specs.Boxes.{AreSides, IsSide, LiesIn, everything, resolvent, side_of};
ghost use Rattle.log_checker.specs.Words.{FitsAt, IsResolvedAt, LiesAt, node_of};
ghost use Rattle.log_checker.specs.Body.{IsReady};

use crate::inside::is_inside;
use crate::lines::Check;
use log_rules::walks_go_to_children;
use std::alloc::AllocError;

/// Whether the box lies in the resolvent of the other two on the variable. Only variables that one of these has a side of are looked at.
pub(crate) fn is_resolved(
    check: &Check<'_>,
    first: &[(u64, u64)],
    second: &[(u64, u64)],
    pivot: u64,
    sides: &[(u64, u64)],
) -> Result<bool, AllocError>
    requires ready { IsReady check.now.problem.now check.now.layout.now check.now.earlier.now }
    requires first { AreSides check.now.problem.now.kinds check.now.earlier.now.table first.now }
    requires second { AreSides check.now.problem.now.kinds check.now.earlier.now.table second.now }
    requires sides { AreSides check.now.problem.now.kinds check.now.earlier.now.table sides.now }
    ensures { let kinds = check.now.problem.now.kinds in let table = check.now.earlier.now.table in
        IfOk result (λ yes. IsTrue yes
        ↔ LiesIn kinds (side_of kinds table sides.now) (resolvent (side_of kinds table first.now) (side_of kinds table second.now) pivot)) }
{
    walks_go_to_children();
    let at_first = are_resolved(check, first, first, second, pivot, sides)?;
    let at_second = are_resolved(check, second, first, second, pivot, sides)?;
    Ok(both(at_first, at_second))
}

/// Whether at each variable of `named` the box's side lies in the resolvent's.
fn are_resolved(
    check: &Check<'_>,
    named: &[(u64, u64)],
    first: &[(u64, u64)],
    second: &[(u64, u64)],
    pivot: u64,
    sides: &[(u64, u64)],
) -> Result<bool, AllocError>
    requires ready { IsReady check.now.problem.now check.now.layout.now check.now.earlier.now }
    requires named { All (IsSide check.now.problem.now.kinds check.now.earlier.now.table) named.now }
    requires first { AreSides check.now.problem.now.kinds check.now.earlier.now.table first.now }
    requires second { AreSides check.now.problem.now.kinds check.now.earlier.now.table second.now }
    requires sides { AreSides check.now.problem.now.kinds check.now.earlier.now.table sides.now }
    ensures { IfOk result (λ yes. IsTrue yes
        ↔ All (λ side. IsResolvedAt check.now.problem.now.kinds check.now.earlier.now.table sides.now first.now second.now pivot side.0) named.now) }
{
    for side in named {
        if !is_resolved_at(check, side.0, first, second, pivot, sides)? {
            return Ok(false);
        }
    }
    Ok(true)
}

/// Whether the box's side of the variable lies in the resolvent's: in the union of both sides at the pivot, and else in each.
fn is_resolved_at(
    check: &Check<'_>,
    variable: u64,
    first: &[(u64, u64)],
    second: &[(u64, u64)],
    pivot: u64,
    sides: &[(u64, u64)],
) -> Result<bool, AllocError>
    requires ready { IsReady check.now.problem.now check.now.layout.now check.now.earlier.now }
    requires known { variable < length check.now.problem.now.kinds }
    requires first { AreSides check.now.problem.now.kinds check.now.earlier.now.table first.now }
    requires second { AreSides check.now.problem.now.kinds check.now.earlier.now.table second.now }
    requires sides { AreSides check.now.problem.now.kinds check.now.earlier.now.table sides.now }
    ensures { IfOk result (λ yes. IsTrue yes
        ↔ IsResolvedAt check.now.problem.now.kinds check.now.earlier.now.table sides.now first.now second.now pivot variable) }
{
    let inside = node_of(sides, variable);
    let first = node_of(first, variable);
    let second = node_of(second, variable);
    walks_go_to_children();
    if variable == pivot {
        let in_union = lies_at(check, variable, inside, first, second)?;
        return Ok(in_union);
    }
    let in_first = lies_at(check, variable, inside, first, first)?;
    let in_second = lies_at(check, variable, inside, second, second)?;
    Ok(both(in_first, in_second))
}

/// Whether each initial value of the variable that is accepted from the node `inside` is accepted from one of the other two.
fn lies_at(
    check: &Check<'_>,
    variable: u64,
    inside: u64,
    first: u64,
    second: u64,
) -> Result<bool, AllocError>
    requires ready { IsReady check.now.problem.now check.now.layout.now check.now.earlier.now }
    requires known { variable < length check.now.problem.now.kinds }
    requires inside { FitsAt check.now.problem.now.kinds check.now.earlier.now.table variable inside }
    requires first { FitsAt check.now.problem.now.kinds check.now.earlier.now.table variable first }
    requires second { FitsAt check.now.problem.now.kinds check.now.earlier.now.table variable second }
    ensures { IfOk result (λ yes. IsTrue yes ↔ LiesAt check.now.problem.now.kinds check.now.earlier.now.table variable inside first second) }
{
    match check.kind_at(variable) {
        Some(kind) => {
            let table = &check.earlier.table;
            let yes = is_inside(check.alloc, kind, table, inside, first, second)?;
            Ok(yes)
        }
        None => Ok(true),
    }
}

/// Whether both are so.
fn both(first: bool, second: bool) -> bool
    ensures { result ≡ (first && second) }
{
    first && second
}

/// Whether the box has every initial value of every variable.
pub(crate) fn holds_everything(check: &Check<'_>, sides: &[(u64, u64)]) -> Result<bool, AllocError>
    requires ready { IsReady check.now.problem.now check.now.layout.now check.now.earlier.now }
    requires sides { AreSides check.now.problem.now.kinds check.now.earlier.now.table sides.now }
    ensures { let kinds = check.now.problem.now.kinds in
        IfOk result (λ yes. IsTrue yes ↔ LiesIn kinds everything (side_of kinds check.now.earlier.now.table sides.now)) }
{
    walks_go_to_children();
    let yes = lie_all(check, sides)?;
    Ok(yes)
}

/// Whether each side has every initial value of its variable.
fn lie_all(check: &Check<'_>, sides: &[(u64, u64)]) -> Result<bool, AllocError>
    requires ready { IsReady check.now.problem.now check.now.layout.now check.now.earlier.now }
    requires sides { All (IsSide check.now.problem.now.kinds check.now.earlier.now.table) sides.now }
    ensures { IfOk result (λ yes. IsTrue yes
        ↔ All (λ side. LiesAt check.now.problem.now.kinds check.now.earlier.now.table side.0 1 side.1 side.1) sides.now) }
{
    for side in sides {
        if !lies_at(check, side.0, 1, side.1, side.1)? {
            return Ok(false);
        }
    }
    Ok(true)
}

/// The node of the side of the variable; node 1 where there is no such side.
pub(crate) fn node_of(sides: &[(u64, u64)], variable: u64) -> u64
    ensures { result ≡ node_of sides.now variable }
{
    for side in sides {
        if side.0 == variable {
            return side.1;
        }
    }
    1
}
