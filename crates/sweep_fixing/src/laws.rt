//! What giving a variable a value is good for. A caller cites a law by calling it.
ghost use Rattle.std.specs.Prelude.{◌≡◌, ◌↔◌, ◌<◌, List, length, All, Contains, Some, slice_get};
ghost use Rattle.set_meaning.specs.declared.kinds.Kind.{Kind};
ghost use Rattle.set_meaning.specs.declared.kinds.Value.{Value};
ghost use Rattle.set_meaning.specs.declared.problems.VarId.{VarId};
ghost use Rattle.set_meaning.specs.declared.problems.Constraint.{Constraint};
ghost use Rattle.set_meaning.specs.Kinds.{InKind};
ghost use Rattle.set_meaning.specs.Rows.{FitsRow};
ghost use Rattle.set_meaning.specs.Relations.{variables_of};
ghost use Rattle.log_rules.specs.declared.nodes.Node.{Node};
ghost use Rattle.log_rules.specs.Boxes.{AreSides, Sides, SomeSatisfy};
ghost use Rattle.log_rules.specs.Rules.{StandsIn};
ghost use Rattle.sweep_fixing.specs.Fixing.{fixed, others, SomeFixed};

/// Values in the sides satisfy the constraint exactly where, for some value of the variable in its side, values satisfy the constraint
/// that has it in place. That constraint has the arguments of its relation, fewer variables, and the sides of the others.
pub fn fixing_is_exact()
    ensures exact { (kinds : List Kind) (table : List Node) (sides : Sides) (c : Constraint) (v : VarId) → FitsRow kinds c → v.0 < length kinds
        → SomeFixed kinds table sides c v ↔ SomeSatisfy kinds table sides c }
    ensures fits { (kinds : List Kind) (c : Constraint) (v : VarId) (k : Kind) (x : Value) → FitsRow kinds c → slice_get kinds v.0 ≡ Some k → InKind k x
        → FitsRow kinds (fixed v x c) }
    ensures sides { (kinds : List Kind) (table : List Node) (sides : Sides) (v : VarId) → AreSides kinds table sides → AreSides kinds table (others v.0 sides) }
    ensures named { (sides : Sides) (c : Constraint) (v : VarId) (x : Value) → All (λ side. StandsIn c side.0) sides
        → All (λ side. StandsIn (fixed v x c) side.0) (others v.0 sides) }
    ensures fewer { (c : Constraint) (v : VarId) (x : Value) → Contains (variables_of c) v
        → length (variables_of (fixed v x c)) < length (variables_of c) }
{}
