//! Families and boxes as lists of sets, one for each variable.

ghost use Rattle.std.specs.Prelude.{◌≡◌, ℕ, ◌<◌, ◌≤◌, [], length, slice_index_or, MatchOption, IfOk};
ghost use Rattle.search_rules.specs.Family.{Lies, Leaves};
ghost use Rattle.plain_steps.specs.Sets.{has, family as family_of};
ghost use Rattle.search_rules.specs.Box.{resolvent as resolvent_of};
ghost use Rattle.plain_steps.specs.Steps.{IsBox};

use crate::Set;
use crate::set::{both, copied, either, lies};
use std::alloc::{AllocError, Global};

/// The set of a variable.
pub fn set_of(sets: &[Set], variable: usize) -> &[u32]
    requires { variable < length sets.now }
    ensures { result.now ≡ slice_index_or sets.now variable [] }
{
    sets[variable].items()
}

/// The first variable from `from` on whose set in the family does not lie in its side.
pub fn next_outside(family: &[Set], sides: &[Set], from: usize) -> Option<usize>
    requires { length family.now ≡ length sides.now }
    ensures { MatchOption result
        ((v : ℕ) → from ≤ v → v < length family.now → Lies (has (slice_index_or family.now v [])) (has (slice_index_or sides.now v [])))
        (λ v. (from ≤ v) × (v < length family.now)
        × Leaves (has (slice_index_or family.now v [])) (has (slice_index_or sides.now v []))
        × ((u : ℕ) → from ≤ u → u < v → Lies (has (slice_index_or family.now u [])) (has (slice_index_or sides.now u [])))) }
{
    for v in from..family.len() {
        if !lies(set_of(family, v), set_of(sides, v)) {
            return Some(v);
        }
    }
    None
}

/// The same sets.
pub fn table_copied(alloc: Global, sets: &[Set]) -> Result<Vec<Set>, AllocError>
    ensures { IfOk result (λ r. r.items ≡ sets.now) }
{
    let mut copy = Vec::new(alloc);
    for set in sets {
        copy.push(copied(alloc, set.items())?)?;
    }
    Ok(copy)
}

/// The resolvent of two boxes on a variable.
pub fn resolvent(
    alloc: Global,
    a: &[Set],
    b: &[Set],
    variable: usize,
) -> Result<Vec<Set>, AllocError>
    requires same { length a.now ≡ length b.now }
    requires known { variable < length a.now }
    ensures { IfOk result (λ r. IsBox r.items (length a.now) (resolvent_of (family_of a.now) (family_of b.now) variable)) }
{
    let mut sides = Vec::new(alloc);
    for u in 0..a.len() {
        let side = if u == variable {
            either(alloc, set_of(a, u), set_of(b, u))?
        } else {
            both(alloc, set_of(a, u), set_of(b, u))?
        };
        sides.push(side)?;
    }
    Ok(sides)
}
