//! Laws of the walk from a conflict over a trail that is undone as it goes.

ghost use Rattle.std.specs.Prelude.{ℕ, Bool, List};
ghost use Rattle.set_meaning.specs.declared.kinds.Value.{Value};
ghost use Rattle.set_meaning.specs.declared.problems.Problem.{Problem};
ghost use Rattle.bit_layout.specs.Order.{LayoutState};
ghost use Rattle.diagram_arena.specs.Table.{Table};
ghost use Rattle.search_rules.specs.Family.{Lies};
ghost use Rattle.search_rules.specs.Box.{resolvent};
ghost use Rattle.search_rules.specs.Trail.{Entry, undo};
ghost use Rattle.search_rules.specs.Walk.{GoesOn, Matters, Walk, reason_box};
ghost use Rattle.exact_steps.specs.Domains.{family};
ghost use Rattle.problem_rules.specs.Posed.{problem_of};
ghost use Rattle.domain_trail.specs.Trail.{TrailState, IsUndone};
ghost use Rattle.box_clauses.specs.declared.store.StoredBox.{StoredBox};
ghost use Rattle.search_state.specs.Readings.{entry_of, entries_of, AreReadable};

use exact_steps::narrowed_domains;

/// A walk that has come to the trail `now` goes on to the trail with its newest entry undone: it passes an entry that
/// does not matter, and resolves one that does with its reason box.
pub fn walks_follow_undone_trails()
    ensures passed { (p : Problem) (l : LayoutState) (t : Table) (stored : List StoredBox) (now next : TrailState)
        (es : List (Entry Value)) (f b c : ℕ → Value → Bool)
        → AreReadable l t stored now → (undone : IsUndone now next)
        → Walk (problem_of p) es f b (entries_of l t stored now.entries) (family l t now.domains) c
        → GoesOn (entries_of l t stored now.entries) c
        → let e = entry_of l t stored undone.entry in Lies e.before (c e.var)
        → Walk (problem_of p) es f b (entries_of l t stored next.entries) (family l t next.domains) c }
    ensures resolved { (p : Problem) (l : LayoutState) (t : Table) (stored : List StoredBox) (now next : TrailState)
        (es : List (Entry Value)) (f b c : ℕ → Value → Bool)
        → AreReadable l t stored now → (undone : IsUndone now next)
        → Walk (problem_of p) es f b (entries_of l t stored now.entries) (family l t now.domains) c
        → GoesOn (entries_of l t stored now.entries) c
        → let e = entry_of l t stored undone.entry in let g = family l t now.domains in Matters e c
        → let r = reason_box (problem_of p) e.reason (undo g e) e.var (g e.var) in
        Walk (problem_of p) es f b (entries_of l t stored next.entries) (family l t next.domains)
        (resolvent c r e.var) }
{
    narrowed_domains();
}
