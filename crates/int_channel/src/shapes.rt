//! The diagram of a relation.
ghost use Rattle.std.specs.Prelude.{◌≡◌, ℕ, ◌≤◌, true, length, List, Err, IfOk, IsTrue, All};
ghost use Rattle.std.specs.List.{AllZip, flat_map};
ghost use Rattle.diagram_arena.specs.Arena.{table};
ghost use Rattle.node_reclaim.specs.Growth.{IsFull, Stays};
ghost use Rattle.bit_machine.specs.Rules.{most_bits};
ghost use Rattle.set_meaning.specs.Relations.{HoldsOf, terms_of};
ghost use Rattle.set_meaning.specs.Rows.{ArePaired, FitsRow, HasShape, row_of, shapes_of};
ghost use Rattle.problem_limits.specs.Limits.{HasSmallNumbers, IsSmallTerm};
ghost use Rattle.scope_words.specs.Words.{HaveFewBits, variables_in, AreBitsOf, IsDiagramOf, NewArePartsOfWords, NewReachOnlyScope};
ghost use Rattle.int_channel.specs.Shapes.{is_choice, is_shape, is_sum};
ghost use Rattle.int_channel.specs.Machines.{IsMachineOf};

use crate::machines::{Beside, choice_beside, relations_have_sets, sum_beside};
use bit_layout::Layout;
use bit_machine::{Machine, build};
use diagram_arena::{Ref, Stop};
use diagram_ops::Ops;
use set_meaning::{Arg, Constraint, Kind, Problem, Relation};
use std::alloc::{AllocError, Global};

/// Whether `scalar_shape` makes the diagram of the relation: each relation whose arguments are integers and Booleans, and `set_in`.
pub fn is_scalar_shape(relation: Relation) -> bool
    ensures { result ≡ is_shape relation }
{
    is_sum(relation) || is_choice(relation)
}

/// Whether the relation is one linear sum that is compared with 0.
fn is_sum(relation: Relation) -> bool
    ensures { result ≡ is_sum relation }
{
    match relation {
        Relation::IntEq => true,
        Relation::IntNe => true,
        Relation::IntLe => true,
        Relation::IntLt => true,
        Relation::IntLinEq => true,
        Relation::IntLinLe => true,
        Relation::IntLinNe => true,
        Relation::IntPlus => true,
        Relation::BoolEq => true,
        Relation::BoolLe => true,
        Relation::BoolLt => true,
        Relation::BoolNot => true,
        Relation::BoolClause => true,
        Relation::Bool2Int => true,
        _ => false,
    }
}

/// Whether the relation is a choice of branches.
fn is_choice(relation: Relation) -> bool
    ensures { result ≡ is_choice relation }
{
    match relation {
        Relation::SetIn => true,
        Relation::IntTimes => true,
        Relation::IntMin => true,
        Relation::IntMax => true,
        Relation::IntAbs => true,
        Relation::ArrayIntElement => true,
        Relation::BoolAnd => true,
        Relation::BoolOr => true,
        Relation::BoolXor => true,
        Relation::ArrayBoolAnd => true,
        Relation::ArrayBoolOr => true,
        Relation::ArrayBoolElement => true,
        _ => false,
    }
}

/// The diagram of the words of initial values of the constraint's variables that satisfy its relation; its truth value is set aside. The variables
/// have at most 2,048 bits in all, as those of each constraint, and integers are at most 1,000,000,000 in size. Constants and variables may be
/// mixed, and a variable may stand more than once.
///
/// It is made in one build. Of a relation that is one sum, at each place there are at most as many states as sums that can still be met; of a
/// choice, as many as sets of its branches, each with such a state, that can still be met. Full and Memory come as from `Ops::node`; memory is
/// also wanted for tables that last one call: a product takes in proportion to the values of the factor with fewer, an element to the array,
/// a membership to the elements that can be, each times the bits. Nodes that were made before a refusal stay.
pub fn scalar_shape(
    alloc: Global,
    ops: &mut Ops,
    layout: &Layout,
    p: &Problem,
    c: &Constraint,
) -> Result<Ref, Stop>
    requires shape { is_shape c.now.relation ≡ true }
    requires fits { FitsRow p.now.kinds c.now }
    requires layout { layout.now.kinds ≡ p.now.kinds }
    requires few { HaveFewBits layout.now (variables_in c.now.args) }
    requires numbers { All HasSmallNumbers p.now.kinds }
    requires constants { All IsSmallTerm (flat_map terms_of c.now.args) }
    requires terms { length (flat_map terms_of c.now.args) ≤ 4194304 }
    ensures diagram { IfOk result (IsDiagramOf layout.now (variables_in c.now.args) (HoldsOf c.now.relation c.now.args) (table ops.new.arena)) }
    ensures stays { Stays ops.old ops.new }
    ensures full { result ≡ Err Stop.Full → IsFull ops.new }
    ensures parts { NewArePartsOfWords layout.now (variables_in c.now.args) (HoldsOf c.now.relation c.now.args) (table ops.old.arena) (table ops.new.arena) }
    ensures reach { NewReachOnlyScope layout.now (variables_in c.now.args) (table ops.old.arena) (table ops.new.arena) }
{
    shape_over(
        alloc,
        ops,
        layout,
        p.kinds.items(),
        c.relation,
        c.args.items(),
    )
}

/// The diagram of the relation over these arguments.
fn shape_over(
    alloc: Global,
    ops: &mut Ops,
    layout: &Layout,
    kinds: &[Kind],
    relation: Relation,
    args: &[Arg],
) -> Result<Ref, Stop>
    requires shape { is_shape relation ≡ true }
    requires kinds { layout.now.kinds ≡ kinds.now }
    requires fits { AllZip (HasShape kinds.now) (shapes_of (row_of relation)) args.now }
    requires paired { IsTrue (row_of relation).paired → ArePaired args.now }
    requires few { HaveFewBits layout.now (variables_in args.now) }
    requires numbers { All HasSmallNumbers kinds.now }
    requires constants { All IsSmallTerm (flat_map terms_of args.now) }
    requires terms { length (flat_map terms_of args.now) ≤ 4194304 }
    ensures diagram { IfOk result (IsDiagramOf layout.now (variables_in args.now) (HoldsOf relation args.now) (table ops.new.arena)) }
    ensures stays { Stays ops.old ops.new }
    ensures full { result ≡ Err Stop.Full → IsFull ops.new }
    ensures parts { NewArePartsOfWords layout.now (variables_in args.now) (HoldsOf relation args.now) (table ops.old.arena) (table ops.new.arena) }
    ensures reach { NewReachOnlyScope layout.now (variables_in args.now) (table ops.old.arena) (table ops.new.arena) }
{
    if is_sum(relation) {
        let made = sum_beside(alloc, layout, kinds, relation, args);
        return built(alloc, ops, layout, relation, args, made);
    }
    let made = choice_beside(alloc, layout, kinds, relation, args);
    built(alloc, ops, layout, relation, args, made)
}

/// The diagram of a relation whose machines were made.
fn built<M: Machine + Drop>(
    alloc: Global,
    ops: &mut Ops,
    layout: &Layout,
    relation: Relation,
    args: &[Arg],
    made: Result<Beside<M>, AllocError>,
) -> Result<Ref, Stop>
    requires shape { is_shape relation ≡ true }
    requires few { HaveFewBits layout.now (variables_in args.now) }
    requires machine { IfOk made (λ m. IsMachineOf layout.now relation args.now m.bits.items m.machine.first (M.rules m.machine.second)) }
    requires places { IfOk made (λ m. M.places m.machine.second ≡ length m.bits.items) }
    requires valid { IfOk made (λ m. M.valid m.machine.second) }
    ensures diagram { IfOk result (IsDiagramOf layout.now (variables_in args.now) (HoldsOf relation args.now) (table ops.new.arena)) }
    ensures stays { Stays ops.old ops.new }
    ensures full { result ≡ Err Stop.Full → IsFull ops.new }
    ensures parts { NewArePartsOfWords layout.now (variables_in args.now) (HoldsOf relation args.now) (table ops.old.arena) (table ops.new.arena) }
    ensures reach { NewReachOnlyScope layout.now (variables_in args.now) (table ops.old.arena) (table ops.new.arena) }
{
    // What holds of every layout and pool, and of relations.
    layout.obeys_order();
    let _ = ops.pool();
    relations_have_sets();
    let _ = args;
    match made {
        Ok(m) => build(alloc, ops, &m.machine, m.bits.as_slice()),
        Err(_) => Err(Stop::Memory),
    }
}
