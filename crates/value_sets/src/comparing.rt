//! Whether a value set lies in another, and whether it has a value.
ghost use Rattle.std.specs.Prelude.{◌≡◌, ◌<◌, ◌↔◌, IfOk, IsTrue, MatchBool, length};
ghost use Rattle.set_meaning.specs.declared.problems.VarId.{VarId as AnyVariable};
ghost use Rattle.bit_layout.specs.Order.{LayoutState, IsLayout};
ghost use Rattle.diagram_arena.specs.Table.{Table, IsReduced};
ghost use Rattle.diagram_arena.specs.Arena.{table};
ghost use Rattle.search_rules.specs.Family.{Lies, Leaves, HasValue};
ghost use Rattle.exact_steps.specs.Domains.{values_in};
ghost use Rattle.value_sets.specs.Sets.{IsValueSet, HasNoValue};

use crate::words::word_laws;
use bit_layout::Layout;
use diagram_arena::{Ref, Stop};
use diagram_ops::Ops;
use set_meaning::VarId;
use std::alloc::AllocError;

/// Whether each value of `f` is in `g`. `v` is one of the problem's variables, and `f` and `g` are value sets of it. No
/// node is made; where the two are one ref, the answer comes at once. An `Err` is want of memory.
pub fn is_inside(
    ops: &mut Ops,
    layout: &Layout,
    v: VarId,
    f: Ref,
    g: Ref,
) -> Result<bool, AllocError>
    requires known { v.0 < length layout.now.kinds }
    requires first { IsValueSet layout.now (table ops.old.arena) v f }
    requires second { IsValueSet layout.now (table ops.old.arena) v g }
    ensures inside { let t = table ops.old.arena in let s = values_in layout.now t v f in
        let u = values_in layout.now t v g in
        IfOk result (λ holds. MatchBool holds (Lies s u) (Leaves s u)) }
    ensures same { ops.new ≡ ops.old }
{
    // What holds of every layout, and of words.
    layout.obeys_order();
    word_laws();
    match ops.inside(f, g) {
        Ok(inside) => Ok(inside),
        Err(_) => Err(AllocError),
    }
}

/// Whether the value set has no value: it is Zero exactly then. Takes no memory.
pub fn is_empty(r: Ref) -> bool
    ensures zero { IsTrue result ↔ (r ≡ Ref.Zero) }
    ensures values { (l : LayoutState) (t : Table) (v : AnyVariable) → IsLayout l → IsReduced t → IsValueSet l t v r
        → MatchBool result (HasNoValue (values_in l t v r)) (HasValue (values_in l t v r)) }
{
    // What holds of words.
    word_laws();
    is_zero(r)
}

fn is_zero(r: Ref) -> bool
    ensures { IsTrue result ↔ (r ≡ Ref.Zero) }
{
    r == Ref::Zero
}
