//! The diagrams of set relations.
ghost use Rattle.std.specs.Prelude.{◌≡◌, ℕ, ◌≤◌, true, length, List, Err, IfOk};
ghost use Rattle.diagram_arena.specs.Arena.{table};
ghost use Rattle.std.specs.List.{AllPass as All_pass};
ghost use Rattle.std.specs.List.Sorted.{IsStrictlyIncreasing};
ghost use Rattle.diagram_arena.specs.Reach.{Bits};
ghost use Rattle.node_reclaim.specs.Growth.{IsFull, Stays, NewArePartsOf, NewReachOnly};
ghost use Rattle.diagram_ops.specs.Words.{Denotes};
ghost use Rattle.bit_machine.specs.Rules.{accepts, most_bits};
ghost use Rattle.element_machine.specs.Reading.{AreGrouped, by_elements};
ghost use Rattle.set_meaning.specs.Relations.{HoldsOf};
ghost use Rattle.set_meaning.specs.Rows.{FitsRow};
ghost use Rattle.scope_words.specs.Words.{HaveFewBits, variables_in, AreBitsOf, IsDiagramOf, NewArePartsOfWords, NewReachOnlyScope};
ghost use Rattle.set_shapes.specs.Operands.{operands_of};
ghost use Rattle.set_shapes.specs.Shapes.{is_between_sets, is_element, is_shape, machine_of, accepted_by};
ghost use Rattle.set_shapes.specs.Tables.{AreSets, IsTable};

use crate::element_relation::{elements_have_words, item_machine};
use crate::machines::{SetMachine, is_element, machine_of};
use crate::operands::operands_of;
use crate::tables::Table;
use bit_layout::Layout;
use bit_machine::build;
use diagram_arena::{Ref, Stop};
use diagram_ops::Ops;
use element_machine::{ByElements, ElementMachine};
use set_meaning::{Arg, Constraint, Kind, Problem};
use std::alloc::{AllocError, Global};

/// The diagram of the words that give the variables of the constraint's arguments values which satisfy its relation; its truth value is set
/// aside. Constants and variables may be mixed, a variable may stand twice, and universes may differ. The variables have at most 2,048
/// bits in all, as those of each constraint.
///
/// It is made in one build, for relations of sets alone in time linear in the bits and the elements times the logarithm of their number. For the
/// element relation, at each place there are at most as many states as sets of items that can still be met, each with its progress; memory is
/// wanted in proportion to the items times the bits, and times the constant elements of each item and of the set. An index outside its array
/// satisfies nothing. Full and Memory come as from `Ops::node`; memory is also wanted for tables that last one call. Nodes that were made
/// before a refusal stay.
pub fn set_shape(
    alloc: Global,
    ops: &mut Ops,
    layout: &Layout,
    p: &Problem,
    c: &Constraint,
) -> Result<Ref, Stop>
    requires shape { is_shape c.now.relation ≡ true }
    requires fits { FitsRow p.now.kinds c.now }
    requires layout { layout.now.kinds ≡ p.now.kinds }
    requires few { HaveFewBits layout.now (variables_in c.now.args) }
    ensures diagram { IfOk result (IsDiagramOf layout.now (variables_in c.now.args) (HoldsOf c.now.relation c.now.args) (table ops.new.arena)) }
    ensures stays { Stays ops.old ops.new }
    ensures full { result ≡ Err Stop.Full → IsFull ops.new }
    ensures parts { NewArePartsOfWords layout.now (variables_in c.now.args) (HoldsOf c.now.relation c.now.args) (table ops.old.arena) (table ops.new.arena) }
    ensures reach { NewReachOnlyScope layout.now (variables_in c.now.args) (table ops.old.arena) (table ops.new.arena) }
{
    if is_element(c.relation) {
        return element_shape(alloc, ops, layout, p, c);
    }
    shape_between_sets(alloc, ops, layout, p, c)
}

/// The diagram of an element relation.
fn element_shape(
    alloc: Global,
    ops: &mut Ops,
    layout: &Layout,
    p: &Problem,
    c: &Constraint,
) -> Result<Ref, Stop>
    requires shape { is_element c.now.relation ≡ true }
    requires fits { FitsRow p.now.kinds c.now }
    requires layout { layout.now.kinds ≡ p.now.kinds }
    requires few { HaveFewBits layout.now (variables_in c.now.args) }
    ensures diagram { IfOk result (IsDiagramOf layout.now (variables_in c.now.args) (HoldsOf c.now.relation c.now.args) (table ops.new.arena)) }
    ensures stays { Stays ops.old ops.new }
    ensures full { result ≡ Err Stop.Full → IsFull ops.new }
    ensures parts { NewArePartsOfWords layout.now (variables_in c.now.args) (HoldsOf c.now.relation c.now.args) (table ops.old.arena) (table ops.new.arena) }
    ensures reach { NewReachOnlyScope layout.now (variables_in c.now.args) (table ops.old.arena) (table ops.new.arena) }
{
    // What holds of every layout and pool, and of element relations.
    layout.obeys_order();
    let _ = ops.pool();
    elements_have_words();
    match item_machine(alloc, layout, p.kinds.items(), c.args.items()) {
        Ok(m) => build(alloc, ops, &m.machine, m.bits.as_slice()),
        Err(_) => Err(Stop::Memory),
    }
}

/// The diagram of a relation of two or three sets.
fn shape_between_sets(
    alloc: Global,
    ops: &mut Ops,
    layout: &Layout,
    p: &Problem,
    c: &Constraint,
) -> Result<Ref, Stop>
    requires shape { is_between_sets c.now.relation ≡ true }
    requires fits { FitsRow p.now.kinds c.now }
    requires layout { layout.now.kinds ≡ p.now.kinds }
    requires few { HaveFewBits layout.now (variables_in c.now.args) }
    ensures diagram { IfOk result (IsDiagramOf layout.now (variables_in c.now.args) (HoldsOf c.now.relation c.now.args) (table ops.new.arena)) }
    ensures stays { Stays ops.old ops.new }
    ensures full { result ≡ Err Stop.Full → IsFull ops.new }
    ensures parts { NewArePartsOfWords layout.now (variables_in c.now.args) (HoldsOf c.now.relation c.now.args) (table ops.old.arena) (table ops.new.arena) }
    ensures reach { NewReachOnlyScope layout.now (variables_in c.now.args) (table ops.old.arena) (table ops.new.arena) }
{
    layout.obeys_order();
    // What holds of every pool.
    let _ = ops.pool();
    match table_of(alloc, layout, p.kinds.items(), c.args.items()) {
        Ok(table) => diagram_of(alloc, ops, machine_of(c.relation), &table),
        Err(_) => Err(Stop::Memory),
    }
}

/// The table of the constraint's bits.
fn table_of(
    alloc: Global,
    layout: &Layout,
    kinds: &[Kind],
    args: &[Arg],
) -> Result<Table, AllocError>
    requires kinds { layout.now.kinds ≡ kinds.now }
    requires sets { AreSets kinds.now (operands_of args.now) }
    ensures { IfOk result (λ t. IsTable layout.now (operands_of args.now) t.bits.items t.constants.items t.entries.items) }
{
    let operands = operands_of(alloc, args)?;
    Table::new(alloc, layout, kinds, &operands)
}

/// The diagram of the words that the machine accepts by the table.
fn diagram_of(alloc: Global, ops: &mut Ops, machine: SetMachine, t: &Table) -> Result<Ref, Stop>
    requires ascend { IsStrictlyIncreasing t.now.bits.items }
    requires few { length t.now.bits.items ≤ most_bits }
    requires long { length t.now.entries.items ≡ length t.now.bits.items }
    requires grouped { AreGrouped (length t.now.constants.items) t.now.entries.items }
    ensures words { IfOk result (Denotes (table ops.new.arena) (accepted_by machine t.now.constants.items t.now.entries.items t.now.bits.items)) }
    ensures stays { Stays ops.old ops.new }
    ensures full { result ≡ Err Stop.Full → IsFull ops.new }
    ensures parts { NewArePartsOf (table ops.old.arena) (table ops.new.arena) (accepted_by machine t.now.constants.items t.now.entries.items t.now.bits.items) }
    ensures reach { (set : Bits) → All_pass set t.now.bits.items → NewReachOnly (table ops.old.arena) (table ops.new.arena) set }
{
    match machine {
        SetMachine::Tested(machine) => built(alloc, ops, machine, t),
        SetMachine::Ordered(machine) => built(alloc, ops, machine, t),
    }
}

/// The diagram of what the machine accepts over the table's bits.
fn built<M: ElementMachine + Drop>(
    alloc: Global,
    ops: &mut Ops,
    machine: M,
    t: &Table,
) -> Result<Ref, Stop>
    requires ascend { IsStrictlyIncreasing t.now.bits.items }
    requires few { length t.now.bits.items ≤ most_bits }
    requires long { length t.now.entries.items ≡ length t.now.bits.items }
    requires grouped { AreGrouped (length t.now.constants.items) t.now.entries.items }
    ensures words { IfOk result (Denotes (table ops.new.arena) (accepts (by_elements (M.rules machine) t.now.constants.items t.now.entries.items) t.now.bits.items)) }
    ensures stays { Stays ops.old ops.new }
    ensures full { result ≡ Err Stop.Full → IsFull ops.new }
    ensures parts { NewArePartsOf (table ops.old.arena) (table ops.new.arena) (accepts (by_elements (M.rules machine) t.now.constants.items t.now.entries.items) t.now.bits.items) }
    ensures reach { (set : Bits) → All_pass set t.now.bits.items → NewReachOnly (table ops.old.arena) (table ops.new.arena) set }
{
    let machine = ByElements {
        machine,
        constants: t.constants.as_slice(),
        entries: t.entries.as_slice(),
    };
    build(alloc, ops, &machine, t.bits.as_slice())
}
