//! Laws on tables: what is read of refs stays where they mean the same.

ghost use Rattle.std.specs.Prelude.{◌≡◌, ℕ, List, [], ◌∷◌, All};
ghost use Rattle.set_meaning.specs.declared.kinds.Value.{Value};
ghost use Rattle.set_meaning.specs.declared.problems.Problem.{Problem};
ghost use Rattle.bit_layout.specs.Order.{LayoutState};
ghost use Rattle.diagram_arena.specs.declared.nodes.Ref.{Ref};
ghost use Rattle.diagram_arena.specs.Table.{Table, IsLive};
ghost use Rattle.diagram_arena.specs.Arena.{Grows};
ghost use Rattle.node_reclaim.specs.Holders.{MeansTheSame};
ghost use Rattle.exact_steps.specs.Domains.{AreDomains, family};
ghost use Rattle.domain_trail.specs.declared.entries.Entry.{Entry};
ghost use Rattle.domain_trail.specs.Trail.{TrailState, befores, held};
ghost use Rattle.box_clauses.specs.declared.sides.Side.{Side};
ghost use Rattle.box_clauses.specs.declared.store.StoredBox.{StoredBox};
ghost use Rattle.box_clauses.specs.Sides.{sets_of};
ghost use Rattle.box_clauses.specs.Boxes.{box_of, AreSides};
ghost use Rattle.box_clauses.specs.Stored.{stored_sets};
ghost use Rattle.search_state.specs.Readings.{sides_at, entry_of, boxes_of, entries_of};
ghost use Rattle.search_state.specs.Readings.{AreReadable, IsTrailOf, IsLegalState};
ghost use Rattle.search_state.specs.Laws.{SetLaws};

use value_sets::{domains_are_value_sets, value_sets_are_of_words};

/// Where refs mean the same in another table, what is read of them is the same: domains with their family, boxes, and
/// entries.
pub fn readings_stay()
    ensures domains { (l : LayoutState) (t u : Table) (domains : List Ref) → MeansTheSame t u domains
        → AreDomains l t domains → AreDomains l u domains }
    ensures family { (l : LayoutState) (t u : Table) (domains : List Ref) → MeansTheSame t u domains
        → family l u domains ≡ family l t domains }
    ensures sides { (l : LayoutState) (t u : Table) (sides : List Side) → MeansTheSame t u (sets_of sides)
        → AreSides l t sides → AreSides l u sides }
    ensures the_box { (l : LayoutState) (t u : Table) (sides : List Side) → MeansTheSame t u (sets_of sides)
        → box_of l u sides ≡ box_of l t sides }
    ensures under { (l : LayoutState) (t u : Table) (stored : List StoredBox) (id : ℕ)
        → MeansTheSame t u (stored_sets stored)
        → box_of l u (sides_at stored id) ≡ box_of l t (sides_at stored id) }
    ensures boxes { (l : LayoutState) (t u : Table) (stored : List StoredBox)
        → MeansTheSame t u (stored_sets stored) → boxes_of l u stored ≡ boxes_of l t stored }
    ensures entry { (l : LayoutState) (t u : Table) (stored : List StoredBox) (e : Entry)
        → MeansTheSame t u (e.before ∷ []) → MeansTheSame t u (stored_sets stored)
        → entry_of l u stored e ≡ entry_of l t stored e }
    ensures entries { (l : LayoutState) (t u : Table) (stored : List StoredBox) (entries : List Entry)
        → MeansTheSame t u (befores entries) → MeansTheSame t u (stored_sets stored)
        → entries_of l u stored entries ≡ entries_of l t stored entries }
{
    set_laws();
}

/// A state stays readable, a trail, and legal, where its refs mean the same in another table: after a collection, and
/// as nodes are added, since the refs of a readable state are live.
pub fn states_stay()
    ensures readable { (l : LayoutState) (t u : Table) (stored : List StoredBox) (s : TrailState)
        → MeansTheSame t u (held s) → MeansTheSame t u (stored_sets stored)
        → AreReadable l t stored s → AreReadable l u stored s }
    ensures trail { (p : Problem) (l : LayoutState) (t u : Table) (stored : List StoredBox) (s : TrailState)
        → MeansTheSame t u (held s) → MeansTheSame t u (stored_sets stored)
        → IsTrailOf p l t stored s → IsTrailOf p l u stored s }
    ensures legal { (p : Problem) (l : LayoutState) (t u : Table) (answers : List (ℕ → Value)) (stored : List StoredBox)
        (s : TrailState) → MeansTheSame t u (held s) → MeansTheSame t u (stored_sets stored)
        → IsLegalState p l t answers stored s → IsLegalState p l u answers stored s }
    ensures live { (l : LayoutState) (t : Table) (stored : List StoredBox) (s : TrailState) → AreReadable l t stored s
        → All (IsLive t) (held s) × All (IsLive t) (stored_sets stored) }
    ensures grown { (t u : Table) (refs : List Ref) → Grows t u → All (IsLive t) refs → MeansTheSame t u refs }
{
    set_laws();
}

/// The laws of value sets.
fn set_laws()
    ensures { SetLaws }
{
    domains_are_value_sets();
    value_sets_are_of_words();
}
