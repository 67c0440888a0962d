//! The machines of a relation: that of initial values, and beside it that of one sum or of a choice.
ghost use Rattle.std.specs.Prelude.{◌≡◌, ◌≤◌, true, ℕ, List, length, IfOk, IsTrue, All};
ghost use Rattle.std.specs.List.{AllZip, flat_map};
ghost use Rattle.set_meaning.specs.declared.problems.Arg.{Arg as AnyArg};
ghost use Rattle.set_meaning.specs.declared.problems.Relation.{Relation as AnyRelation};
ghost use Rattle.set_meaning.specs.Relations.{HoldsOf, terms_of};
ghost use Rattle.set_meaning.specs.Rows.{ArePaired, HasShape, row_of, shapes_of};
ghost use Rattle.diagram_arena.specs.Table.{Words};
ghost use Rattle.bit_layout.specs.Order.{LayoutState, IsLayout};
ghost use Rattle.problem_limits.specs.Limits.{HasSmallNumbers, IsSmallTerm};
ghost use Rattle.scope_words.specs.Words.{variables_in, AreBitsOf, AreWordsOf};
ghost use Rattle.linear_machine.specs.Steps.{rules_of as sum_rules};
ghost use Rattle.choice_machine.specs.Choices.{rules_of as choice_rules};
ghost use Rattle.int_channel.specs.Shapes.{is_choice, is_shape, is_sum};
ghost use Rattle.int_channel.specs.Machines.{IsMachineOf};

use crate::branches::{branch_machines, sum_machine};
use crate::choices::branches_of;
use crate::sums::sum_of;
use bit_layout::{Bit, Layout, words_of_sets_have_values};
use bit_machine::Both;
use choice_machine::{ChoiceMachine, choice_of};
use linear_machine::Linear;
use scope_words::{scope_bits, variables_in, words_are_read_by_position, words_give_one_value};
use set_meaning::{Arg, Constraint, Kind, Relation};
use std::alloc::{AllocError, Global};
use table_machine::{TableMachine, relations_have_words, values_fit_together};

/// The bits of the arguments' variables, and the machines that read them: that of initial values beside that of the relation.
#[derive(Drop)]
pub(crate) struct Beside<M> {
    pub(crate) bits: Vec<Bit>,
    pub(crate) machine: Both<TableMachine, M>,
}

/// The machines of a relation that is one linear sum.
pub(crate) fn sum_beside(
    alloc: Global,
    layout: &Layout,
    kinds: &[Kind],
    relation: Relation,
    args: &[Arg],
) -> Result<Beside<Linear>, AllocError>
    requires shape { is_sum relation ≡ true }
    requires kinds { layout.now.kinds ≡ kinds.now }
    requires fits { AllZip (HasShape kinds.now) (shapes_of (row_of relation)) args.now }
    requires paired { IsTrue (row_of relation).paired → ArePaired args.now }
    requires constants { All IsSmallTerm (flat_map terms_of args.now) }
    requires few { length (flat_map terms_of args.now) ≤ 4194304 }
    ensures machine { IfOk result (λ m. IsMachineOf layout.now relation args.now m.bits.items m.machine.first (sum_rules m.machine.second)) }
    ensures places { IfOk result (λ m. length m.machine.second.weights ≡ length m.bits.items) }
{
    let bits = bits_of(alloc, layout, kinds, relation, args)?;
    let machine = sum_over(alloc, layout, kinds, relation, args, bits.as_slice())?;
    Ok(Beside { bits, machine })
}

/// The machines of a relation that is a choice.
pub(crate) fn choice_beside(
    alloc: Global,
    layout: &Layout,
    kinds: &[Kind],
    relation: Relation,
    args: &[Arg],
) -> Result<Beside<ChoiceMachine>, AllocError>
    requires shape { is_choice relation ≡ true }
    requires kinds { layout.now.kinds ≡ kinds.now }
    requires fits { AllZip (HasShape kinds.now) (shapes_of (row_of relation)) args.now }
    requires numbers { All HasSmallNumbers kinds.now }
    requires constants { All IsSmallTerm (flat_map terms_of args.now) }
    requires few { length (flat_map terms_of args.now) ≤ 4194304 }
    ensures machine { IfOk result (λ m. IsMachineOf layout.now relation args.now m.bits.items m.machine.first (choice_rules m.machine.second)) }
    ensures places { IfOk result (λ m. m.machine.second.places ≡ length m.bits.items) }
{
    let bits = bits_of(alloc, layout, kinds, relation, args)?;
    let machine = choice_over(alloc, layout, kinds, relation, args, bits.as_slice())?;
    Ok(Beside { bits, machine })
}

/// The bits of the arguments' variables.
pub(crate) fn bits_of(
    alloc: Global,
    layout: &Layout,
    kinds: &[Kind],
    relation: Relation,
    args: &[Arg],
) -> Result<Vec<Bit>, AllocError>
    requires kinds { layout.now.kinds ≡ kinds.now }
    requires fits { AllZip (HasShape kinds.now) (shapes_of (row_of relation)) args.now }
    ensures { IfOk result (λ bits. AreBitsOf layout.now (variables_in args.now) bits.items) }
{
    let scope = variables_in(alloc, args)?;
    let bits = scope_bits(alloc, layout, scope.as_slice())?;
    Ok(bits)
}

/// The machines over these bits of a relation that is one linear sum.
fn sum_over(
    alloc: Global,
    layout: &Layout,
    kinds: &[Kind],
    relation: Relation,
    args: &[Arg],
    bits: &[Bit],
) -> Result<Both<TableMachine, Linear>, AllocError>
    requires shape { is_sum relation ≡ true }
    requires kinds { layout.now.kinds ≡ kinds.now }
    requires fits { AllZip (HasShape kinds.now) (shapes_of (row_of relation)) args.now }
    requires paired { IsTrue (row_of relation).paired → ArePaired args.now }
    requires constants { All IsSmallTerm (flat_map terms_of args.now) }
    requires few { length (flat_map terms_of args.now) ≤ 4194304 }
    requires bits { AreBitsOf layout.now (variables_in args.now) bits.now }
    ensures machine { IfOk result (λ m. IsMachineOf layout.now relation args.now bits.now m.first (sum_rules m.second)) }
    ensures places { IfOk result (λ m. length m.second.weights ≡ length bits.now) }
{
    // What holds of every layout, and of relations beside initial values.
    layout.obeys_order();
    relations_have_words::<Constraint, table_machine::State, linear_machine::State>();
    let sum = sum_of(alloc, kinds, relation, args)?;
    let first = TableMachine::initial_values(alloc, layout, kinds, bits)?;
    let second = sum_machine(alloc, layout, kinds, bits, &sum)?;
    Ok(Both { first, second })
}

/// The machines over these bits of a relation that is a choice.
fn choice_over(
    alloc: Global,
    layout: &Layout,
    kinds: &[Kind],
    relation: Relation,
    args: &[Arg],
    bits: &[Bit],
) -> Result<Both<TableMachine, ChoiceMachine>, AllocError>
    requires shape { is_choice relation ≡ true }
    requires kinds { layout.now.kinds ≡ kinds.now }
    requires fits { AllZip (HasShape kinds.now) (shapes_of (row_of relation)) args.now }
    requires numbers { All HasSmallNumbers kinds.now }
    requires constants { All IsSmallTerm (flat_map terms_of args.now) }
    requires few { length (flat_map terms_of args.now) ≤ 4194304 }
    requires bits { AreBitsOf layout.now (variables_in args.now) bits.now }
    ensures machine { IfOk result (λ m. IsMachineOf layout.now relation args.now bits.now m.first (choice_rules m.second)) }
    ensures places { IfOk result (λ m. m.second.places ≡ length bits.now) }
{
    // What holds of every layout, and of relations beside initial values.
    layout.obeys_order();
    relations_have_words::<Constraint, table_machine::State, usize>();
    let branches = branches_of(alloc, kinds, relation, args)?;
    let first = TableMachine::initial_values(alloc, layout, kinds, bits)?;
    let machines = branch_machines(alloc, layout, kinds, bits, branches.as_slice())?;
    let second = choice_of(alloc, machines.as_slice(), bits.len())?;
    Ok(Both { first, second })
}

/// There is a set of the words of initial values that satisfy the relation, also where no machine was made for want of memory.
pub(crate) fn relations_have_sets()
    ensures { (l : LayoutState) (relation : AnyRelation) (args : List AnyArg) → IsLayout l → is_shape relation ≡ true
        → (set : Words) × AreWordsOf l (variables_in args) (HoldsOf relation args) set }
{
    // What holds of words and values.
    words_are_read_by_position();
    words_of_sets_have_values();
    values_fit_together();
    words_give_one_value();
}
