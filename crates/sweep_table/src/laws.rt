//! What a side accepts. A caller cites a law by calling it.
ghost use Rattle.std.specs.Prelude.{◌≡◌, ℕ, ◌<◌, Bool, List, Option, length};
ghost use Rattle.log_rules.specs.declared.nodes.Node.{Node};
ghost use Rattle.log_rules.specs.Tables.{IsTable, next_node, walk};
ghost use Rattle.log_rules.specs.Boxes.{FitsWidth};
ghost use Rattle.sweep_rules.specs.Rules.{accepts};
ghost use Rattle.sweep_table.specs.Sides.{CountFrom, own_bits, own_count, side_rules};

/// A side accepts where the walk of the variable's bits does.
pub fn sides_accept()
    ensures { (table : List Node) (root : ℕ) (places : List (Option ℕ)) (bits : List Bool) → IsTable table → root < next_node table → CountFrom 0 places
        → FitsWidth table root (own_count places) → length bits ≡ length places
        → accepts (side_rules table root places) bits ≡ walk table root (own_bits places bits) }
{}
