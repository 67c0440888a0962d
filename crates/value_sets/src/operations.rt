//! Intersection, union and difference of value sets.
ghost use Rattle.std.specs.Prelude.{◌≡◌, ◌<◌, ◌∷◌, [], Err, IfOk, length};
ghost use Rattle.diagram_arena.specs.Arena.{table};
ghost use Rattle.node_reclaim.specs.Growth.{IsFull, Stays};
ghost use Rattle.search_rules.specs.Family.{without};
ghost use Rattle.scope_words.specs.Words.{NewReachOnlyScope};
ghost use Rattle.exact_steps.specs.Domains.{values_in};
ghost use Rattle.value_sets.specs.Sets.{IsValueSet, IsSetOf, both, either, NewArePartsOfValues};

use crate::words::word_laws;
use bit_layout::Layout;
use diagram_arena::{Ref, Stop};
use diagram_ops::Ops;
use set_meaning::VarId;

/// The values that are in `f` and in `g`. `v` is one of the problem's variables, and `f` and `g` are value sets of it.
/// Full and Memory come as from `Ops::and`.
pub fn intersection(ops: &mut Ops, layout: &Layout, v: VarId, f: Ref, g: Ref) -> Result<Ref, Stop>
    requires known { v.0 < length layout.now.kinds }
    requires first { IsValueSet layout.now (table ops.old.arena) v f }
    requires second { IsValueSet layout.now (table ops.old.arena) v g }
    ensures set { let t = table ops.old.arena in
        let s = both (values_in layout.now t v f) (values_in layout.now t v g) in
        IfOk result (IsSetOf layout.now (table ops.new.arena) v s) }
    ensures stays { Stays ops.old ops.new }
    ensures full { result ≡ Err Stop.Full → IsFull ops.new }
    ensures parts { let t = table ops.old.arena in
        let s = both (values_in layout.now t v f) (values_in layout.now t v g) in
        NewArePartsOfValues layout.now v s t (table ops.new.arena) }
    ensures reach { NewReachOnlyScope layout.now (v ∷ []) (table ops.old.arena) (table ops.new.arena) }
{
    // What holds of every layout and every pool, and of words.
    layout.obeys_order();
    let _ = ops.pool();
    word_laws();
    ops.and(f, g)
}

/// The values that are in `f` or in `g`. `v` is one of the problem's variables, and `f` and `g` are value sets of it.
/// Full and Memory come as from `Ops::or`.
pub fn union(ops: &mut Ops, layout: &Layout, v: VarId, f: Ref, g: Ref) -> Result<Ref, Stop>
    requires known { v.0 < length layout.now.kinds }
    requires first { IsValueSet layout.now (table ops.old.arena) v f }
    requires second { IsValueSet layout.now (table ops.old.arena) v g }
    ensures set { let t = table ops.old.arena in
        let s = either (values_in layout.now t v f) (values_in layout.now t v g) in
        IfOk result (IsSetOf layout.now (table ops.new.arena) v s) }
    ensures stays { Stays ops.old ops.new }
    ensures full { result ≡ Err Stop.Full → IsFull ops.new }
    ensures parts { let t = table ops.old.arena in
        let s = either (values_in layout.now t v f) (values_in layout.now t v g) in
        NewArePartsOfValues layout.now v s t (table ops.new.arena) }
    ensures reach { NewReachOnlyScope layout.now (v ∷ []) (table ops.old.arena) (table ops.new.arena) }
{
    // What holds of every layout and every pool, and of words.
    layout.obeys_order();
    let _ = ops.pool();
    word_laws();
    ops.or(f, g)
}

/// The values of `f` that are not in `g`. `v` is one of the problem's variables, and `f` and `g` are value sets of it.
/// Full and Memory come as from `Ops::diff`.
pub fn difference(ops: &mut Ops, layout: &Layout, v: VarId, f: Ref, g: Ref) -> Result<Ref, Stop>
    requires known { v.0 < length layout.now.kinds }
    requires first { IsValueSet layout.now (table ops.old.arena) v f }
    requires second { IsValueSet layout.now (table ops.old.arena) v g }
    ensures set { let t = table ops.old.arena in
        let s = without (values_in layout.now t v f) (values_in layout.now t v g) in
        IfOk result (IsSetOf layout.now (table ops.new.arena) v s) }
    ensures stays { Stays ops.old ops.new }
    ensures full { result ≡ Err Stop.Full → IsFull ops.new }
    ensures parts { let t = table ops.old.arena in
        let s = without (values_in layout.now t v f) (values_in layout.now t v g) in
        NewArePartsOfValues layout.now v s t (table ops.new.arena) }
    ensures reach { NewReachOnlyScope layout.now (v ∷ []) (table ops.old.arena) (table ops.new.arena) }
{
    // What holds of every layout and every pool, and of words.
    layout.obeys_order();
    let _ = ops.pool();
    word_laws();
    ops.diff(f, g)
}
