//! What holds of every trail.
ghost use Rattle.std.specs.Prelude.{◌≡◌, ℕ, List, filter, nat_le};
ghost use Rattle.domain_trail.specs.declared.entries.Entry.{Entry};
ghost use Rattle.domain_trail.specs.Trail.{cut, HaveLevels};

/// Undoing to a level leaves exactly the entries up to that level, where no entry's level is below that of the entry
/// before it. The call does nothing.
pub fn undoing_keeps_levels()
    ensures { (k : ℕ) (es : List Entry) → HaveLevels es → cut k es ≡ filter (λ e. nat_le e.level k) es }
{}
