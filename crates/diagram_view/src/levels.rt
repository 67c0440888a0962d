//! The refs that are left of a diagram once its first bits have values.
ghost use Rattle.std.specs.Prelude.{◌≡◌, ◌≢◌, true, All, Any, Contains, MatchBool, IfOk};
ghost use Rattle.std.specs.HashSet.{contains_by};
ghost use Rattle.diagram_arena.specs.declared.nodes.Ref.{Ref};
ghost use Rattle.diagram_arena.specs.contracts.nodes.RefPartialEq.TheImpl.{eq-value};
ghost use Rattle.diagram_arena.specs.Table.{IsLive};
ghost use Rattle.diagram_arena.specs.Arena.{table};
ghost use Rattle.diagram_view.specs.Steps as step;
ghost use Rattle.diagram_view.specs.Levels.{Adds, IsNextLevel};

use crate::steps::{is_zero, side};
use diagram_arena::{Arena, Ref};
use std::alloc::{AllocError, Global};
use std::collections::HashSet;

/// Whether one of the refs has a word with this value at `bit`.
pub(crate) fn goes_on(arena: &Arena, refs: &[Ref], bit: u32, value: bool) -> bool
    requires { All (IsLive (table arena.now)) refs.now }
    ensures { MatchBool result (Any (λ r. step.side (table arena.now) r bit value ≢ Ref.Zero) refs.now) (All (λ r. step.side (table arena.now) r bit value ≡ Ref.Zero) refs.now) }
{
    for r in refs {
        if !is_zero(side(arena, *r, bit, value)) {
            return true;
        }
    }
    false
}

/// What is left of the refs once `bit` has either value, each ref once, without Zero.
pub(crate) fn next_level(
    alloc: Global,
    arena: &Arena,
    refs: &[Ref],
    bit: u32,
) -> Result<Vec<Ref>, AllocError>
    requires { All (IsLive (table arena.now)) refs.now }
    ensures { IfOk result (λ next. IsNextLevel (table arena.now) refs.now bit next.items) }
{
    let mut seen = HashSet::new(alloc);
    let mut next = Vec::new(alloc);
    for r in refs {
        keep(&mut next, &mut seen, side(arena, *r, bit, false))?;
        keep(&mut next, &mut seen, side(arena, *r, bit, true))?;
    }
    Ok(next)
}

/// Adds `r` to `next`, unless it is Zero or there already.
fn keep(next: &mut Vec<Ref>, seen: &mut HashSet<Ref>, r: Ref) -> Result<(), AllocError>
    requires { (q : Ref) → contains_by (eq-value.it q) seen.old ≡ true → Contains next.old.items q }
    ensures adds { IfOk result (λ _. Adds next.old.items next.new.items r) }
    ensures seen { IfOk result (λ _. (q : Ref) → contains_by (eq-value.it q) seen.new ≡ true → Contains next.new.items q) }
{
    if is_zero(r) {
        return Ok(());
    }
    if !seen.insert(r)? {
        return Ok(());
    }
    next.push(r)?;
    Ok(())
}
