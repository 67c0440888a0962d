//! Laws on entries by their places in the trail's list, oldest first.

ghost use Rattle.std.specs.Prelude.{◌≡◌, ◌≢◌, ◌⊎◌, ℕ, ◌+◌, Bool, Some, List, ◌∷◌, ◌++◌};
ghost use Rattle.std.specs.Prelude.{All, Contains, take, drop, slice_get};
ghost use Rattle.set_meaning.specs.declared.kinds.Value.{Value};
ghost use Rattle.bit_layout.specs.Order.{LayoutState};
ghost use Rattle.diagram_arena.specs.Table.{Table};
ghost use Rattle.search_rules.specs.Family.{Lies};
ghost use Rattle.search_rules.specs.Walk.{Matters, SomeMatters};
ghost use Rattle.search_moves.specs.Scans.{NoneMatters, NoOtherMatters, OnlyOneMatters};
ghost use Rattle.exact_steps.specs.Domains.{values_in};
ghost use Rattle.domain_trail.specs.declared.entries.Entry.{Entry};
ghost use Rattle.box_clauses.specs.declared.store.StoredBox.{StoredBox};
ghost use Rattle.search_state.specs.Readings.{entry_of, entries_of};

/// The entry at a place reads as the one between the readings of the later entries and those of the earlier ones.
pub fn entries_read_by_place()
    ensures next { (l : LayoutState) (t : Table) (stored : List StoredBox) (entries : List Entry) (i : ℕ) (e : Entry)
        → slice_get entries i ≡ Some e
        → entries_of l t stored (take (i + 1) entries)
        ≡ entry_of l t stored e ∷ entries_of l t stored (take i entries) }
    ensures split { (l : LayoutState) (t : Table) (stored : List StoredBox) (entries : List Entry) (i : ℕ) (e : Entry)
        → slice_get entries i ≡ Some e
        → entries_of l t stored entries
        ≡ entries_of l t stored (drop (i + 1) entries)
        ++ entry_of l t stored e ∷ entries_of l t stored (take i entries) }
{}

/// What matters to a box among entries, and what does not, as a scan of them finds it.
pub fn scanned_entries_read_as_scanned()
    ensures none { (l : LayoutState) (t : Table) (stored : List StoredBox) (es : List Entry) (b : ℕ → Value → Bool)
        → All (λ (e : Entry). Lies (values_in l t e.var e.before) (b e.var.0)) es
        → NoneMatters (entries_of l t stored es) b }
    ensures no_other { (l : LayoutState) (t : Table) (stored : List StoredBox) (es : List Entry) (b : ℕ → Value → Bool)
        (k v : ℕ)
        → All (λ (e : Entry). e.level ≡ k → e.var.0 ≢ v → Lies (values_in l t e.var e.before) (b e.var.0)) es
        → NoOtherMatters (entries_of l t stored es) b k v }
    ensures only_one { (l : LayoutState) (t : Table) (stored : List StoredBox) (es : List Entry) (b : ℕ → Value → Bool)
        (v : ℕ)
        → All (λ (e : Entry). (e.var.0 ≡ v) ⊎ Lies (values_in l t e.var e.before) (b e.var.0)) es
        → OnlyOneMatters (entries_of l t stored es) b v }
    ensures some { (l : LayoutState) (t : Table) (stored : List StoredBox) (es : List Entry) (b : ℕ → Value → Bool)
        (e : Entry) → Contains es e → Matters (entry_of l t stored e) b
        → SomeMatters (entries_of l t stored es) b e.level e.var.0 }
{}
