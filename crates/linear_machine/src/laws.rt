//! What the definitions say, for callers that reason about machines. A caller cites a law by calling it.
ghost use Rattle.std.specs.Prelude.{◌≡◌, ◌↔◌, ℕ, true, ◌+ℤ◌, List};
ghost use Rattle.diagram_arena.specs.Table.{Word};
ghost use Rattle.bit_machine.specs.Rules.{accepts};
ghost use Rattle.linear_machine.specs.Sums.{Compares, LinearState, sum_of_true};
ghost use Rattle.linear_machine.specs.Steps.{rules_of};

/// The machine of a linear sum accepts just the words for which the constant and the weights of the true bits together compare
/// with 0 as asked. A weight without a bit counts as one whose bit is false, a bit without a weight as one of weight 0.
pub fn accepts_by_its_sum()
    ensures { (m : LinearState) (bits : List ℕ) (w : Word)
        → (accepts (rules_of m) bits w ≡ true) ↔ Compares m.comparison (m.constant +ℤ sum_of_true bits m.weights w) }
{}
