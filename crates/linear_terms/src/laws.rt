//! What the definitions say, for callers that reason about linear sums. A caller cites a law by calling it.
ghost use Rattle.std.specs.Prelude.{◌≡◌, ◌↔◌, ℕ, true, ℤ, ◌+ℤ◌, List, map, All, Contains};
ghost use Rattle.set_meaning.specs.declared.problems.VarId.{VarId};
ghost use Rattle.set_meaning.specs.declared.kinds.Value.{Value};
ghost use Rattle.diagram_arena.specs.Table.{Word, Words};
ghost use Rattle.bit_layout.specs.Order.{LayoutState, IsLayout};
ghost use Rattle.scope_words.specs.Words.{AreBitsOf, Gives};
ghost use Rattle.linear_machine.specs.declared.comparison.Comparison.{Comparison};
ghost use Rattle.linear_machine.specs.Sums.{Compares};
ghost use Rattle.linear_terms.specs.declared.terms.LinearTerm.{LinearTerm};
ghost use Rattle.linear_terms.specs.Terms.{HasBitsOf, linear_sum};

use bit_layout::integers_have_offsets;
use linear_machine::accepts_by_its_sum;
use scope_words::bits_of_a_scope_have_positions;

/// The bits of a scope have those of each term whose variable is of the scope, as `linear_over` asks.
pub fn scopes_have_the_bits_of_terms()
    ensures { (l : LayoutState) (scope : List VarId) (bits : List ℕ) (terms : List LinearTerm) → IsLayout l → AreBitsOf l scope bits
        → All (λ t. Contains scope t.variable) terms → All (λ t. HasBitsOf l bits t.variable) terms }
{
    // What holds of the bits of a scope.
    bits_of_a_scope_have_positions();
}

/// There is a set of words that has, of those which give values to the terms' variables, just those for which the constant and the terms compare so
/// with 0, also where no machine was made for want of memory.
pub fn linear_sums_have_words()
    ensures { (l : LayoutState) (terms : List LinearTerm) (constant : ℤ) (comparison : Comparison) → IsLayout l
        → (set : Words) × ((values : List Value) (w : Word) → Gives l (map (λ t. t.variable) terms) values w
        → (set w ≡ true) ↔ Compares comparison (constant +ℤ linear_sum terms values)) }
{
    // What holds of words, and of machines.
    integers_have_offsets();
    accepts_by_its_sum();
}
