//! What the definitions say, for callers that reason about words over lists of bits.
ghost use Rattle.std.specs.Prelude.{◌≡◌, ℕ, Bool, List, length, map};
ghost use Rattle.std.specs.List.Sorted.{IsStrictlyIncreasing};
ghost use Rattle.diagram_arena.specs.declared.nodes.Ref.{Ref};
ghost use Rattle.diagram_arena.specs.Table.{Word, Table, has, IsLive, IsReduced};
ghost use Rattle.diagram_arena.specs.Reach.{among, ReachesOnly};
ghost use Rattle.diagram_view.specs.Words.{ListWords, words_over};
ghost use Rattle.diagram_view.specs.Residuals.{IsResidualCount};

use diagram_arena::{reduced_tables, zero_and_one};

/// A word is in a ref of a reduced table where the values of its bits are, over a list of bits that
/// holds every bit under the ref; and refs with the same words over one such list are one.
pub fn words_over_bits()
    ensures values { (t : Table) (f : Ref) (bits : List ℕ) → IsReduced t → IsLive t f → ReachesOnly t (among bits) f → (w : Word) → has t f w ≡ (words_over t f bits).test (map w bits) }
    ensures same { (t : Table) (f g : Ref) (bits : List ℕ) → IsReduced t → IsLive t f → IsLive t g → ReachesOnly t (among bits) f → ReachesOnly t (among bits) g
        → ((vs : List Bool) → length vs ≡ length bits → (words_over t f bits).test vs ≡ (words_over t g bits).test vs) → f ≡ g }
{
    reduced_tables();
    zero_and_one();
}

/// A set of words has one residual count at most.
pub fn residual_counts_are_one()
    ensures { (W : ListWords) (n k : ℕ) → IsResidualCount W n → IsResidualCount W k → n ≡ k }
{}
