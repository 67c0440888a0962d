//! Two set variables, each over the element 1, and their value sets by number: 1 has the empty set, 2 has the set with
//! the element, 3 has both, and 0 none.
ghost use Rattle.std.specs.Prelude.{◌≡◌, ◌<◌, IfOk, length, All};
ghost use Rattle.set_meaning.specs.declared.kinds.Kind.TheVariants as variants;
ghost use Rattle.set_meaning.specs.Sets.{ascending_set};
ghost use Rattle.bit_layout.specs.Limits.{AreWithinLimits};
ghost use Rattle.diagram_arena.specs.Arena.{table};
ghost use Rattle.node_reclaim.specs.Growth.{Stays};
ghost use Rattle.scope_words.specs.Words.{IsSetKind};
ghost use Rattle.value_sets.specs.Sets.{IsValueSet};

use bit_layout::Layout;
use diagram_arena::{Ref, Stop};
use diagram_ops::Ops;
use listed::Listed;
use set_meaning::{Constraint, Goal, Kind, Problem, SetValue, Shown, Text, VarId};
use std::alloc::{AllocError, Global};

fn sets(alloc: Global, universe: &[i64]) -> Result<Kind, AllocError>
    ensures { IfOk result (λ kind. kind ≡ variants.Set (ascending_set universe.now)) }
{
    Ok(Kind::Set(SetValue::from_list(alloc, universe)?))
}

pub(crate) fn kinds(alloc: Global) -> Result<Vec<Kind>, AllocError>
    ensures limits { IfOk result (λ kinds. AreWithinLimits kinds.items) }
    ensures sets { IfOk result (λ kinds. All IsSetKind kinds.items) }
    ensures two { IfOk result (λ kinds. length kinds.items ≡ 2) }
{
    let first = sets(alloc, [1].as_slice())?;
    let second = sets(alloc, [1].as_slice())?;
    let kinds = vec![in alloc; first, second]?;
    Ok(kinds)
}

pub(crate) fn problem(alloc: Global, kinds: Vec<Kind>) -> Problem
    ensures { result.kinds ≡ kinds.items }
{
    let names: Vec<Text> = Vec::new(alloc);
    let constraints: Vec<Constraint> = Vec::new(alloc);
    let shown: Vec<Shown> = Vec::new(alloc);
    Problem {
        kinds: Listed::of(kinds),
        names: Listed::of(names),
        constraints: Listed::of(constraints),
        goal: Goal::Satisfy,
        shown: Listed::of(shown),
    }
}

/// The value set of this number.
pub(crate) fn set_of(ops: &mut Ops, layout: &Layout, v: VarId, number: u8) -> Result<Ref, Stop>
    requires known { v.0 < length layout.now.kinds }
    requires sets { All IsSetKind layout.now.kinds }
    ensures set { IfOk result (IsValueSet layout.now (table ops.new.arena) v) }
    ensures stays { Stays ops.old ops.new }
{
    // What holds of every layout and every pool.
    layout.obeys_order();
    let _ = ops.pool();
    match number {
        0 => Ok(Ref::Zero),
        1 => literal(ops, layout, v, false),
        2 => literal(ops, layout, v, true),
        _ => Ok(Ref::One),
    }
}

/// The sets that have the element, or those that do not have it.
fn literal(ops: &mut Ops, layout: &Layout, v: VarId, has: bool) -> Result<Ref, Stop>
    requires known { v.0 < length layout.now.kinds }
    requires sets { All IsSetKind layout.now.kinds }
    ensures set { IfOk result (IsValueSet layout.now (table ops.new.arena) v) }
    ensures stays { Stays ops.old ops.new }
{
    // What holds of every layout and every pool.
    layout.obeys_order();
    let _ = ops.pool();
    if layout.width(v) == 0 {
        return Ok(Ref::One);
    }
    ops.literal(layout.bit(v, 0), has)
}
