//! Whether sides are in order, and what they name is there.

ghost use Rattle.std.specs.Prelude.{◌≡◌, ◌↔◌, ◌<◌, All, None, IfSome, IsTrue};
ghost use Rattle.log_rules.specs.Tables.{next_node};
ghost use Rattle.log_rules.specs.Boxes.{AreSides, IsSide, FitsWidth};
ghost use Rattle.log_checker.specs.Words.{Ascends};
ghost use Rattle.log_checker.specs.Body.{IsReady};

use crate::lines::{Check, is_there};
use bit_layout::width;
use sweep_table::Table;

/// Whether these are sides: in order, each of another variable, with nodes of the table that test places of the variable's words.
pub(crate) fn are_sides(check: &Check<'_>, sides: &[(u64, u64)]) -> bool
    requires ready { IsReady check.now.problem.now check.now.layout.now check.now.earlier.now }
    ensures { IsTrue result ↔ AreSides check.now.problem.now.kinds check.now.earlier.now.table sides.now }
{
    if !is_ascending(sides) {
        return false;
    }
    are_there(check, sides)
}

/// Whether each side names a variable and a node, whose tests are of places of the variable's words.
fn are_there(check: &Check<'_>, sides: &[(u64, u64)]) -> bool
    requires ready { IsReady check.now.problem.now check.now.layout.now check.now.earlier.now }
    ensures { IsTrue result ↔ All (IsSide check.now.problem.now.kinds check.now.earlier.now.table) sides.now }
{
    for side in sides {
        if !is_side(check, *side) {
            return false;
        }
    }
    true
}

/// Whether the variables ascend strictly.
fn is_ascending(sides: &[(u64, u64)]) -> bool
    ensures { IsTrue result ↔ Ascends None sides.now }
{
    let mut last = None;
    for side in sides {
        if !is_after(last, side.0) {
            return false;
        }
        last = Some(side.0);
    }
    true
}

/// Whether the variable is above the last one, if there is one.
fn is_after(last: Option<u64>, variable: u64) -> bool
    ensures { IsTrue result ↔ IfSome last (λ v. v < variable) }
{
    match last {
        Some(before) => before < variable,
        None => true,
    }
}

/// Whether the side names a variable and a node, whose tests are of places of the variable's words.
fn is_side(check: &Check<'_>, side: (u64, u64)) -> bool
    requires ready { IsReady check.now.problem.now check.now.layout.now check.now.earlier.now }
    ensures { IsTrue result ↔ IsSide check.now.problem.now.kinds check.now.earlier.now.table side }
{
    let (variable, node) = side;
    if !is_there(&check.earlier.table, node) {
        return false;
    }
    match check.kind_at(variable) {
        Some(kind) => fits_width(&check.earlier.table, node, width(kind)),
        None => false,
    }
}

/// Whether each node that is reached tests a place below the width.
fn fits_width(table: &Table, node: u64, width: u32) -> bool
    requires { node < next_node table.now }
    ensures { IsTrue result ↔ FitsWidth table.now node width }
{
    match table.deepest(node) {
        Some(place) => place < u64::from(width),
        None => true,
    }
}
