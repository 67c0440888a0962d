//! The element relation of sets: the machine of initial values, and beside it that of the choice of its branches.
ghost use Rattle.std.specs.Prelude.{◌≡◌, ◌∷◌, [], List, length, IfOk};
ghost use Rattle.std.specs.List.{AllZip};
ghost use Rattle.set_meaning.specs.declared.problems.Arg.{Arg as AnyArg};
ghost use Rattle.set_meaning.specs.declared.problems.Arg.TheVariants as arg;
ghost use Rattle.set_meaning.specs.declared.problems.Relation.TheVariants.{ArraySetElement};
ghost use Rattle.set_meaning.specs.Relations.{HoldsOf};
ghost use Rattle.set_meaning.specs.Rows.{HasShape, row_of, shapes_of};
ghost use Rattle.diagram_arena.specs.Table.{Words};
ghost use Rattle.bit_layout.specs.Order.{LayoutState, IsLayout};
ghost use Rattle.scope_words.specs.Words.{variables_in, AreBitsOf, AreWordsOf};
ghost use Rattle.set_shapes.specs.Elements.{IsOneTerm, AreManyTerms, ArePlaceItemsAndSet, IsMachineOf};

use crate::branches::branches_of;
use bit_layout::{Bit, Layout, words_of_sets_have_values};
use bit_machine::Both;
use choice_machine::{ChoiceMachine, choice_of};
use scope_words::{scope_bits, variables_in, words_are_read_by_position, words_give_one_value};
use set_meaning::{Arg, Constraint, Kind, Term};
use std::alloc::{AllocError, Global};
use table_machine::{TableMachine, relations_have_words, values_fit_together};

/// The bits of the arguments' variables, and the machines that read them: that of initial values beside that of the choice.
#[derive(Drop)]
pub(crate) struct ItemMachine {
    pub(crate) bits: Vec<Bit>,
    pub(crate) machine: Both<TableMachine, ChoiceMachine>,
}

pub(crate) fn item_machine(
    alloc: Global,
    layout: &Layout,
    kinds: &[Kind],
    args: &[Arg],
) -> Result<ItemMachine, AllocError>
    requires kinds { layout.now.kinds ≡ kinds.now }
    requires fits { AllZip (HasShape kinds.now) (shapes_of (row_of ArraySetElement)) args.now }
    ensures { IfOk result (λ m. IsMachineOf layout.now args.now m.bits.items m.machine.first m.machine.second) }
{
    let bits = bits_of(alloc, layout, kinds, args)?;
    let machine = machine_over(alloc, layout, kinds, args, bits.as_slice())?;
    Ok(ItemMachine { bits, machine })
}

/// The bits of the arguments' variables.
fn bits_of(
    alloc: Global,
    layout: &Layout,
    kinds: &[Kind],
    args: &[Arg],
) -> Result<Vec<Bit>, AllocError>
    requires kinds { layout.now.kinds ≡ kinds.now }
    requires fits { AllZip (HasShape kinds.now) (shapes_of (row_of ArraySetElement)) args.now }
    ensures { IfOk result (λ bits. AreBitsOf layout.now (variables_in args.now) bits.items) }
{
    let scope = variables_in(alloc, args)?;
    let bits = scope_bits(alloc, layout, scope.as_slice())?;
    Ok(bits)
}

/// The machines over these bits.
fn machine_over(
    alloc: Global,
    layout: &Layout,
    kinds: &[Kind],
    args: &[Arg],
    bits: &[Bit],
) -> Result<Both<TableMachine, ChoiceMachine>, AllocError>
    requires kinds { layout.now.kinds ≡ kinds.now }
    requires fits { AllZip (HasShape kinds.now) (shapes_of (row_of ArraySetElement)) args.now }
    requires bits { AreBitsOf layout.now (variables_in args.now) bits.now }
    ensures { IfOk result (λ m. IsMachineOf layout.now args.now bits.now m.first m.second) }
{
    // What holds of every layout, and of relations beside initial values.
    layout.obeys_order();
    relations_have_words::<Constraint, table_machine::State, usize>();
    let terms = place_items_and_set(args);
    let first = TableMachine::initial_values(alloc, layout, kinds, bits)?;
    let machines = branches_of(
        alloc,
        layout,
        kinds,
        bits,
        terms.index,
        terms.items,
        terms.set,
    )?;
    let second = choice_of(alloc, machines.as_slice(), bits.len())?;
    Ok(Both { first, second })
}

#[derive(Drop)]
struct PlaceItemsAndSet<'a> {
    index: &'a Term,
    items: &'a [Term],
    set: &'a Term,
}

/// The index, the array and the set that the arguments are.
fn place_items_and_set(args: &[Arg]) -> PlaceItemsAndSet
    requires { ArePlaceItemsAndSet args.now }
    ensures { args.now ≡ arg.One result.index.now ∷ arg.Many result.items.now ∷ arg.One result.set.now ∷ [] }
{
    match args {
        [first, second, third] => PlaceItemsAndSet {
            index: term(first),
            items: items(second),
            set: term(third),
        },
        _ => unreachable!(),
    }
}

fn items(argument: &Arg) -> &[Term]
    requires { AreManyTerms argument.now }
    ensures { argument.now ≡ arg.Many result.now }
{
    match argument {
        Arg::One(_) => unreachable!(),
        Arg::Many(terms) => terms.items(),
    }
}

fn term(argument: &Arg) -> &Term
    requires { IsOneTerm argument.now }
    ensures { argument.now ≡ arg.One result.now }
{
    match argument {
        Arg::One(term) => term,
        Arg::Many(_) => unreachable!(),
    }
}

/// There is a set of the words of initial values that satisfy the relation, also where no machine was made for want of memory.
pub(crate) fn elements_have_words()
    ensures { (l : LayoutState) (args : List AnyArg) → IsLayout l → (set : Words) × AreWordsOf l (variables_in args) (HoldsOf ArraySetElement args) set }
{
    // What holds of words and values.
    words_are_read_by_position();
    words_of_sets_have_values();
    values_fit_together();
    words_give_one_value();
}
