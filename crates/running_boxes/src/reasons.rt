//! Sets of values and their comparison, and the sides of reason boxes.
ghost use Rattle.std.specs.Prelude.{◌≡◌, ◌<◌, ◌↔◌, IfOk, IsTrue, Some, length, slice_get, All};
ghost use Rattle.running_boxes.specs.Work.{removed_sides as sides_without};

use box_clauses::Side;
use diagram_arena::Ref;
use set_meaning::VarId;
use std::alloc::{AllocError, Global};

/// The set of the variable in a list that has one for each.
pub(crate) fn set_at(sets: &[Ref], v: VarId) -> Ref
    requires { v.0 < length sets.now }
    ensures { slice_get sets.now v.0 ≡ Some result }
{
    sets[v.0 as usize]
}

/// Whether two refs are one.
pub(crate) fn is_same(a: Ref, b: Ref) -> bool
    ensures { IsTrue result ↔ (a ≡ b) }
{
    a == b
}

/// The sides of the reason box of a narrowing of `v` by a constraint with this scope: the removed values at `v`, and
/// the domains of the other variables.
pub(crate) fn removed_sides(
    alloc: Global,
    scope: &[VarId],
    domains: &[Ref],
    v: VarId,
    removed: Ref,
) -> Result<Vec<Side>, AllocError>
    requires { All (λ u. u.0 < length domains.now) scope.now }
    ensures { IfOk result (λ sides. sides.items ≡ sides_without domains.now v removed scope.now) }
{
    let mut sides = Vec::new(alloc);
    for u in scope {
        let set = if u.0 == v.0 {
            removed
        } else {
            domains[u.0 as usize]
        };
        sides.push(Side { var: *u, set })?;
    }
    Ok(sides)
}
