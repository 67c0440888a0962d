//! What value sets are, for callers of the operations. A caller cites a law by calling it.
ghost use Rattle.std.specs.Prelude.{◌≡◌, ◌<◌, ◌↔◌, ◌⊎◌, ◌∷◌, [], true, List, length, Contains};
ghost use Rattle.set_meaning.specs.declared.kinds.Value.{Value};
ghost use Rattle.set_meaning.specs.declared.problems.VarId.{VarId};
ghost use Rattle.bit_layout.specs.Order.{LayoutState, IsLayout};
ghost use Rattle.diagram_arena.specs.declared.nodes.Ref.{Ref};
ghost use Rattle.diagram_arena.specs.Table.{Word, Table, has, IsLive, IsReduced};
ghost use Rattle.diagram_arena.specs.Arena.{Grows};
ghost use Rattle.node_reclaim.specs.Holders.{MeansTheSame};
ghost use Rattle.search_rules.specs.Family.{HasValue, Meets};
ghost use Rattle.scope_words.specs.Words.{IsDiagramOf};
ghost use Rattle.exact_steps.specs.Domains.{values_in, is_initial, IsDomain};
ghost use Rattle.value_sets.specs.Sets.{IsValueSet, AreApart};

use crate::words::word_laws;
use exact_steps::diagrams_of_variables_are_domains;
use scope_words::Condition;

/// A domain is a value set with some value.
pub fn domains_are_value_sets()
    ensures { (l : LayoutState) (t : Table) (v : VarId) (r : Ref)
        → IsDomain l t v r ↔ (IsValueSet l t v r × HasValue (values_in l t v r)) }
{}

/// The diagram of a condition on one variable is a value set. The values of each ref are initial values, and where all
/// are among them, they are just these.
pub fn value_sets_have_initial_values<C: Condition>()
    ensures set { (condition : C) (l : LayoutState) (v : VarId) (t : Table) (r : Ref) → IsLayout l
        → v.0 < length l.kinds
        → IsDiagramOf l (v ∷ []) (C.holds condition) t r → IsValueSet l t v r }
    ensures initial { (l : LayoutState) (t : Table) (v : VarId) (r : Ref) (x : Value) → values_in l t v r x ≡ true
        → is_initial l v x ≡ true }
    ensures all { (l : LayoutState) (t : Table) (v : VarId) (r : Ref)
        → ((x : Value) → is_initial l v x ≡ true → values_in l t v r x ≡ true)
        → values_in l t v r ≡ is_initial l v }
{
    diagrams_of_variables_are_domains::<C>();
}

/// A value set hangs on the words of its ref alone: in another table where the ref has the same words, it is one with
/// the same values.
pub fn value_sets_are_of_words()
    ensures set { (l : LayoutState) (t u : Table) (v : VarId) (r : Ref) → IsLive u r
        → ((w : Word) → has u r w ≡ has t r w) → IsValueSet l t v r → IsValueSet l u v r }
    ensures values { (l : LayoutState) (t u : Table) (v : VarId) (r : Ref) → ((w : Word) → has u r w ≡ has t r w)
        → values_in l u v r ≡ values_in l t v r }
{}

/// As nodes are added, and where refs mean the same in another table, value sets stay value sets and keep their values.
pub fn value_sets_stay()
    ensures grown { (l : LayoutState) (t u : Table) (v : VarId) (r : Ref) → Grows t u → IsValueSet l t v r
        → IsValueSet l u v r × (values_in l u v r ≡ values_in l t v r) }
    ensures meant { (l : LayoutState) (t u : Table) (v : VarId) (r : Ref) (rs : List Ref) → MeansTheSame t u rs
        → Contains rs r → IsValueSet l t v r
        → IsValueSet l u v r × (values_in l u v r ≡ values_in l t v r) }
{}

/// Two value sets of one variable have a common value, or none.
pub fn value_sets_meet_or_are_apart()
    ensures { (l : LayoutState) (t : Table) (v : VarId) (f g : Ref)
        → Meets (values_in l t v f) (values_in l t v g) ⊎ AreApart (values_in l t v f) (values_in l t v g) }
{}

/// Two value sets of one variable are one ref where they have the same values.
pub fn sets_of_the_same_values_are_one()
    ensures { (l : LayoutState) (t : Table) (v : VarId) (f g : Ref) → IsLayout l → IsReduced t → IsValueSet l t v f
        → IsValueSet l t v g
        → ((x : Value) → values_in l t v f x ≡ values_in l t v g x) → f ≡ g }
{
    word_laws();
}
