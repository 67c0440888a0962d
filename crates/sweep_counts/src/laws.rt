//! What a shape of a cardinality accepts. A caller cites a law by calling it.
ghost use Rattle.std.specs.Prelude.{◌≡◌, ◌↔◌, ℕ, ℤ, true, List, length, map};
ghost use Rattle.set_meaning.specs.Kinds.{IsSetWithin};
ghost use Rattle.set_meaning.specs.Sets.{IsAscending};
ghost use Rattle.bit_layout.specs.Words.{lists};
ghost use Rattle.sweep_rules.specs.Rules.{accepts};
ghost use Rattle.sweep_counts.specs.Counts.{count_rules};

/// Of the bits that say for each element of a universe whether a set has it, the shape of a number accepts those of the sets with so many
/// elements.
pub fn counts_are_sizes()
    ensures { (size : ℕ) (universe set : List ℤ) → IsAscending universe → IsSetWithin universe set
        → (accepts (count_rules size) (map (lists set) universe) ≡ true) ↔ (length set ≡ size) }
{}
