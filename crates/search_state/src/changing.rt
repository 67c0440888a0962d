//! Laws on what changes of a trail and of stored boxes, as search_rules reads it.

ghost use Rattle.std.specs.Prelude.{◌≡◌, ℕ, ◌+◌, ◌<◌, List, [], ◌∷◌, ◌++◌, length};
ghost use Rattle.set_meaning.specs.declared.problems.VarId.{VarId};
ghost use Rattle.set_meaning.specs.declared.problems.Problem.{Problem};
ghost use Rattle.bit_layout.specs.Order.{LayoutState};
ghost use Rattle.diagram_arena.specs.declared.nodes.Ref.{Ref};
ghost use Rattle.diagram_arena.specs.Table.{Table};
ghost use Rattle.search_rules.specs.Family.{put};
ghost use Rattle.search_rules.specs.Trail as rules;
ghost use Rattle.exact_steps.specs.Domains.{values_in, IsDomain, AreDomains, family};
ghost use Rattle.domain_trail.specs.declared.entries.Reason.{Reason};
ghost use Rattle.domain_trail.specs.declared.entries.Reason.TheVariants as why;
ghost use Rattle.domain_trail.specs.Trail.{TrailState, narrowed, IsUndone, IsUndoneTo};
ghost use Rattle.box_clauses.specs.declared.store.StoredBox.{StoredBox};
ghost use Rattle.box_clauses.specs.Boxes.{AreSides};
ghost use Rattle.search_state.specs.Readings.{boxes_of, entry_of, entries_of, reason_of, stored_of};
ghost use Rattle.search_state.specs.Readings.{IsKnown, AreReadable, IsTrailOf};
ghost use Rattle.search_state.specs.Turns.{IsPartlyUndone};

use exact_steps::narrowed_domains;

/// A narrowed trail reads as one more entry, and a family with that variable's set replaced.
pub fn narrowings_read_as_entries()
    ensures entries { (l : LayoutState) (t : Table) (stored : List StoredBox) (s : TrailState) (v : VarId) (to : Ref)
        (reason : Reason) → v.0 < length s.domains → s.level ≡ rules.top (entries_of l t stored s.entries)
        → entries_of l t stored (narrowed s v to reason).entries
        ≡ rules.narrowing_entry (entries_of l t stored s.entries) (family l t s.domains) v.0
        (reason_of l t stored reason)
        ∷ entries_of l t stored s.entries }

    // a decision, at a new level
    ensures decision { (l : LayoutState) (t : Table) (stored : List StoredBox) (s : TrailState) (v : VarId) (to : Ref)
        → v.0 < length s.domains → s.level ≡ rules.top (entries_of l t stored s.entries) + 1
        → entries_of l t stored (narrowed s v to why.Decision).entries
        ≡ rules.decision_entry (entries_of l t stored s.entries) (family l t s.domains) v.0
        ∷ entries_of l t stored s.entries }
    ensures family { (l : LayoutState) (t : Table) (s : TrailState) (v : VarId) (to : Ref) (reason : Reason)
        → AreDomains l t s.domains → v.0 < length s.domains
        → family l t (narrowed s v to reason).domains ≡ put (family l t s.domains) v.0 (values_in l t v to) }
    ensures readable { (l : LayoutState) (t : Table) (stored : List StoredBox) (s : TrailState) (v : VarId) (to : Ref)
        (reason : Reason) → AreReadable l t stored s → v.0 < length l.kinds → IsDomain l t v to → IsKnown stored reason
        → AreReadable l t stored (narrowed s v to reason) }
{
    narrowed_domains();
}

/// A trail whose newest entry is undone reads as the entries but that one, and the family just before it. It is a trail
/// by the rules still.
pub fn undone_trails_read_back()
    ensures entries { (l : LayoutState) (t : Table) (stored : List StoredBox) (old new : TrailState)
        → (undone : IsUndone old new)
        → entries_of l t stored old.entries ≡ entry_of l t stored undone.entry ∷ entries_of l t stored new.entries }
    ensures family { (l : LayoutState) (t : Table) (stored : List StoredBox) (old new : TrailState)
        → (undone : IsUndone old new) → AreReadable l t stored old
        → family l t new.domains ≡ rules.undo (family l t old.domains) (entry_of l t stored undone.entry) }
    ensures readable { (l : LayoutState) (t : Table) (stored : List StoredBox) (old new : TrailState)
        → IsUndone old new → AreReadable l t stored old → AreReadable l t stored new }
    ensures trail { (p : Problem) (l : LayoutState) (t : Table) (stored : List StoredBox) (old new : TrailState)
        → IsUndone old new → IsTrailOf p l t stored old → IsTrailOf p l t stored new }
{
    narrowed_domains();
}

/// A trail that is undone to a level reads as the entries up to there, and the family at its end. It is a trail by the
/// rules still.
pub fn trails_undone_to_a_level_read_back()
    ensures entries { (l : LayoutState) (t : Table) (stored : List StoredBox) (k : ℕ) (old new : TrailState)
        → IsUndoneTo k old new
        → entries_of l t stored new.entries ≡ rules.cut k (entries_of l t stored old.entries) }
    ensures family { (l : LayoutState) (t : Table) (stored : List StoredBox) (k : ℕ) (old new : TrailState)
        → IsUndoneTo k old new → AreReadable l t stored old
        → family l t new.domains ≡ rules.back k (entries_of l t stored old.entries) (family l t old.domains) }
    ensures readable { (l : LayoutState) (t : Table) (stored : List StoredBox) (k : ℕ) (old new : TrailState)
        → IsUndoneTo k old new → AreReadable l t stored old → AreReadable l t stored new }
    ensures trail { (p : Problem) (l : LayoutState) (t : Table) (stored : List StoredBox) (k : ℕ) (old new : TrailState)
        → IsUndoneTo k old new → IsTrailOf p l t stored old → IsTrailOf p l t stored new }
{
    narrowed_domains();
}

/// To a level below its newest, a trail that was undone entry by entry is undone as the trail that it was.
pub fn partly_undone_trails_go_back_alike()
    ensures itself { (s : TrailState) → IsPartlyUndone s s }
    ensures further { (p : Problem) (l : LayoutState) (t : Table) (stored : List StoredBox) (old now next : TrailState)
        → IsTrailOf p l t stored now → IsUndone now next → IsPartlyUndone old now → IsPartlyUndone old next }
{}

/// An added box reads as one more stored box, the newest. Entries that name none but stored boxes read as before.
pub fn added_boxes_read_as_stored()
    ensures boxes { (l : LayoutState) (t : Table) (stored : List StoredBox) (added : StoredBox)
        → boxes_of l t (stored ++ added ∷ []) ≡ stored_of l t added ∷ boxes_of l t stored }
    ensures entries { (l : LayoutState) (t : Table) (stored : List StoredBox) (added : StoredBox) (s : TrailState)
        → AreReadable l t stored s
        → entries_of l t (stored ++ added ∷ []) s.entries ≡ entries_of l t stored s.entries }
    ensures readable { (l : LayoutState) (t : Table) (stored : List StoredBox) (added : StoredBox) (s : TrailState)
        → AreReadable l t stored s → AreSides l t added.sides → AreReadable l t (stored ++ added ∷ []) s }
{}
