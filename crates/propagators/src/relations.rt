//! The diagram of a constraint's relation.
ghost use Rattle.std.specs.Prelude.{◌≡◌, ℕ, ◌≤◌, List, All, length, Err, IfOk};
ghost use Rattle.set_meaning.specs.declared.problems.Relation.{Relation as AnyRelation};
ghost use Rattle.set_meaning.specs.Relations.{HoldsOf};
ghost use Rattle.set_meaning.specs.Rows.{FitsRow};
ghost use Rattle.diagram_arena.specs.Arena.{table};
ghost use Rattle.node_reclaim.specs.Growth.{IsFull, Stays};
ghost use Rattle.bit_machine.specs.Rules.{most_bits};
ghost use Rattle.scope_words.specs.Words.{variables_in, AreBitsOf, IsDiagramOf, NewArePartsOfWords};
ghost use Rattle.problem_limits.specs.Limits.{HasSmallNumbers, IsWithinLimits};
ghost use Rattle.propagators.specs.Relations.{kinds_of_relation};

use bit_layout::Layout;
use card_diagram::{card_shape, is_card_shape};
use diagram_arena::{Ref, Stop};
use diagram_ops::Ops;
use int_channel::scalar_shape;
use set_meaning::{Constraint, Problem};
use set_shapes::{is_set_shape, set_shape};
use std::alloc::Global;

/// Each relation is of exactly one of the three kinds of which there are diagrams.
pub fn relations_have_one_kind()
    ensures { (relation : AnyRelation) → kinds_of_relation relation ≡ 1 }
{}

/// The diagram of the words that give the variables of the arguments values which satisfy the relation; the truth value is set aside.
pub(crate) fn relation_diagram(
    alloc: Global,
    ops: &mut Ops,
    layout: &Layout,
    p: &Problem,
    c: &Constraint,
) -> Result<Ref, Stop>
    requires fits { FitsRow p.now.kinds c.now }
    requires layout { layout.now.kinds ≡ p.now.kinds }
    requires few { (bits : List ℕ) → AreBitsOf layout.now (variables_in c.now.args) bits → length bits ≤ most_bits }
    requires numbers { All HasSmallNumbers p.now.kinds }
    requires limits { IsWithinLimits p.now.kinds c.now }
    ensures diagram { IfOk result (IsDiagramOf layout.now (variables_in c.now.args) (HoldsOf c.now.relation c.now.args) (table ops.new.arena)) }
    ensures stays { Stays ops.old ops.new }
    ensures full { result ≡ Err Stop.Full → IsFull ops.new }
    ensures parts { NewArePartsOfWords layout.now (variables_in c.now.args) (HoldsOf c.now.relation c.now.args) (table ops.old.arena) (table ops.new.arena) }
{
    if is_set_shape(c.relation) {
        return set_shape(alloc, ops, layout, p, c);
    }
    if is_card_shape(c.relation) {
        return card_shape(alloc, ops, layout, p, c);
    }
    scalar_shape(alloc, ops, layout, p, c)
}
