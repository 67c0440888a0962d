//! The machines of a cardinality: that of initial values, and that of the sum.
ghost use Rattle.std.specs.Prelude.{◌≡◌, List, map, IfOk};
ghost use Rattle.std.specs.List.{AllZip};
ghost use Rattle.set_meaning.specs.declared.problems.Arg.{Arg as AnyArg};
ghost use Rattle.set_meaning.specs.declared.problems.Relation.TheVariants.{SetCard};
ghost use Rattle.set_meaning.specs.Relations.{HoldsOf};
ghost use Rattle.set_meaning.specs.Rows.{HasShape, row_of, shapes_of};
ghost use Rattle.diagram_arena.specs.Table.{Words};
ghost use Rattle.bit_layout.specs.Order.{LayoutState, IsLayout};
ghost use Rattle.scope_words.specs.Words.{variables_in, AreWordsOf};
ghost use Rattle.card_diagram.specs.Sums.{IsMachineOf};

use crate::sums::{LinearSum, card_sum};
use bit_layout::{Bit, Layout, words_of_sets_have_values};
use bit_machine::Both;
use linear_machine::{Comparison, Linear};
use linear_terms::{linear_over, linear_sums_have_words, scopes_have_the_bits_of_terms};
use scope_words::{scope_bits, words_are_read_by_position};
use set_meaning::{Arg, Constraint, Kind, VarId};
use std::alloc::{AllocError, Global};
use table_machine::{TableMachine, relations_have_words, values_fit_together};

/// The bits of the arguments' variables, and the machines that read them.
#[derive(Drop)]
pub(crate) struct CardMachine {
    pub(crate) bits: Vec<Bit>,
    pub(crate) machine: Both<TableMachine, Linear>,
}

pub(crate) fn machine_of(
    alloc: Global,
    layout: &Layout,
    kinds: &[Kind],
    args: &[Arg],
) -> Result<CardMachine, AllocError>
    requires kinds { layout.now.kinds ≡ kinds.now }
    requires fits { AllZip (HasShape kinds.now) (shapes_of (row_of SetCard)) args.now }
    ensures { IfOk result (λ m. IsMachineOf layout.now args.now m.bits.items m.machine.first m.machine.second) }
{
    // What holds of every layout, of the bits of terms, and of relations beside initial values.
    layout.obeys_order();
    scopes_have_the_bits_of_terms();
    relations_have_words::<Constraint, table_machine::State, linear_machine::State>();
    let sum = card_sum(alloc, args)?;
    let scope = variables(alloc, &sum)?;
    let bits = scope_bits(alloc, layout, scope.as_slice())?;
    let first = TableMachine::initial_values(alloc, layout, kinds, bits.as_slice())?;
    let second = linear_over(
        alloc,
        layout,
        kinds,
        bits.as_slice(),
        sum.terms.as_slice(),
        sum.constant,
        Comparison::Equal,
    )?;
    let machine = Both { first, second };
    Ok(CardMachine { bits, machine })
}

/// The variables of the terms.
fn variables(alloc: Global, sum: &LinearSum) -> Result<Vec<VarId>, AllocError>
    ensures { IfOk result (λ vs. vs.items ≡ map (λ t. t.variable) sum.now.terms.items) }
{
    sum.terms.iter().map(|t| t.variable).collect(alloc)
}

/// There is a set of the words of initial values that satisfy the relation, also where no machine was made for want of memory.
pub(crate) fn cardinalities_have_words()
    ensures { (l : LayoutState) (args : List AnyArg) → IsLayout l → AllZip (HasShape l.kinds) (shapes_of (row_of SetCard)) args
        → (set : Words) × AreWordsOf l (variables_in args) (HoldsOf SetCard args) set }
{
    // What holds of words and values, and of sums.
    words_are_read_by_position();
    words_of_sets_have_values();
    values_fit_together();
    linear_sums_have_words();
}
