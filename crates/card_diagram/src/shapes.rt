//! The diagram of a cardinality.
ghost use Rattle.std.specs.Prelude.{◌≡◌, ℕ, ◌≤◌, true, length, List, Err, IfOk};
ghost use Rattle.diagram_arena.specs.Arena.{table};
ghost use Rattle.node_reclaim.specs.Growth.{IsFull, Stays};
ghost use Rattle.bit_machine.specs.Rules.{most_bits};
ghost use Rattle.set_meaning.specs.Relations.{HoldsOf};
ghost use Rattle.set_meaning.specs.Rows.{FitsRow};
ghost use Rattle.scope_words.specs.Words.{HaveFewBits, variables_in, AreBitsOf, IsDiagramOf, NewArePartsOfWords, NewReachOnlyScope};
ghost use Rattle.card_diagram.specs.Shapes.{is_shape};

use crate::machines::{cardinalities_have_words, machine_of};
use bit_layout::Layout;
use bit_machine::build;
use diagram_arena::{Ref, Stop};
use diagram_ops::Ops;
use set_meaning::{Constraint, Problem, Relation};
use std::alloc::Global;

/// Whether the relation is a cardinality.
pub fn is_card_shape(relation: Relation) -> bool
    ensures { result ≡ is_shape relation }
{
    match relation {
        Relation::SetCard => true,
        _ => false,
    }
}

/// The diagram of the words of initial values of the constraint's variables that satisfy its relation; its truth value is set aside. The variables
/// have at most 2,048 bits in all, as those of each constraint. Constants and variables may be mixed.
///
/// It is made in one build. New nodes are at most quadratic in the universe: at each place there are at most as many states as sums that can
/// still be met. Full and Memory come as from `Ops::node`; memory is also wanted for tables that last one call. Nodes that were made before a
/// refusal stay.
pub fn card_shape(
    alloc: Global,
    ops: &mut Ops,
    layout: &Layout,
    p: &Problem,
    c: &Constraint,
) -> Result<Ref, Stop>
    requires shape { is_shape c.now.relation ≡ true }
    requires fits { FitsRow p.now.kinds c.now }
    requires layout { layout.now.kinds ≡ p.now.kinds }
    requires few { HaveFewBits layout.now (variables_in c.now.args) }
    ensures diagram { IfOk result (IsDiagramOf layout.now (variables_in c.now.args) (HoldsOf c.now.relation c.now.args) (table ops.new.arena)) }
    ensures stays { Stays ops.old ops.new }
    ensures full { result ≡ Err Stop.Full → IsFull ops.new }
    ensures parts { NewArePartsOfWords layout.now (variables_in c.now.args) (HoldsOf c.now.relation c.now.args) (table ops.old.arena) (table ops.new.arena) }
    ensures reach { NewReachOnlyScope layout.now (variables_in c.now.args) (table ops.old.arena) (table ops.new.arena) }
{
    // What holds of every layout and pool, and of cardinalities.
    layout.obeys_order();
    let _ = ops.pool();
    cardinalities_have_words();
    match machine_of(alloc, layout, p.kinds.items(), c.args.items()) {
        Ok(m) => build(alloc, ops, &m.machine, m.bits.as_slice()),
        Err(_) => Err(Stop::Memory),
    }
}
