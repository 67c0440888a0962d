//! The machines of branches.
ghost use Rattle.std.specs.Prelude.{◌≡◌, ◌↔◌, ℕ, ◌<◌, true, List, map, length, All, IfOk, slice_get};
ghost use Rattle.std.specs.List.{AllZip};
ghost use Rattle.std.specs.List.Sorted.{IsStrictlyIncreasing};
ghost use Rattle.set_meaning.specs.declared.kinds.Value.{Value};
ghost use Rattle.diagram_arena.specs.Table.{Word};
ghost use Rattle.bit_machine.specs.Rules.{accepts};
ghost use Rattle.scope_words.specs.Words.{Gives};
ghost use Rattle.linear_machine.specs.Steps.{rules_of};
ghost use Rattle.linear_terms.specs.Terms.{HasBitsOf};
ghost use Rattle.int_channel.specs.Forms.{AtomHolds, IsSmallSum, SumHolds};
ghost use Rattle.int_channel.specs.Machines.{IsBranchReadBy, IsMachineOfBranch, IsReadBy, variables_of_atom};

use crate::forms::{Atom, Branch, LinearSum};
use crate::members::member_machine;
use bit_layout::{Bit, Layout};
use bit_machine::{Both, side_by_side_accepts};
use linear_machine::Linear;
use linear_terms::linear_over;
use set_meaning::Kind;
use std::alloc::{AllocError, Global};

/// The machine over these bits that accepts where the sum compares so with 0.
pub(crate) fn sum_machine(
    alloc: Global,
    layout: &Layout,
    kinds: &[Kind],
    bits: &[Bit],
    sum: &LinearSum,
) -> Result<Linear, AllocError>
    requires kinds { layout.now.kinds ≡ kinds.now }
    requires ascend { IsStrictlyIncreasing bits.now }
    requires known { All (λ t. t.variable.0 < length layout.now.kinds) sum.now.terms }
    requires listed { All (λ t. HasBitsOf layout.now bits.now t.variable) sum.now.terms }
    requires small { IsSmallSum sum.now }
    ensures places { IfOk result (λ m. length m.weights ≡ length bits.now) }
    ensures accepts { IfOk result (λ m. (values : List Value) (w : Word) → Gives layout.now (map (λ t. t.variable) sum.now.terms) values w
        → (accepts (rules_of m) bits.now w ≡ true) ↔ SumHolds values sum.now) }
{
    linear_over(
        alloc,
        layout,
        kinds,
        bits,
        sum.terms.items(),
        sum.constant,
        sum.comparison,
    )
}

/// The machine over these bits that accepts where the sum compares so, or the set has the element.
fn atom_machine(
    alloc: Global,
    layout: &Layout,
    kinds: &[Kind],
    bits: &[Bit],
    atom: &Atom,
) -> Result<Linear, AllocError>
    requires kinds { layout.now.kinds ≡ kinds.now }
    requires ascend { IsStrictlyIncreasing bits.now }
    requires reads { IsReadBy layout.now bits.now atom.now }
    ensures places { IfOk result (λ m. length m.weights ≡ length bits.now) }
    ensures accepts { IfOk result (λ m. (values : List Value) (w : Word) → Gives layout.now (variables_of_atom atom.now) values w
        → (accepts (rules_of m) bits.now w ≡ true) ↔ AtomHolds values atom.now) }
{
    match atom {
        Atom::Sum(sum) => sum_machine(alloc, layout, kinds, bits, sum),
        Atom::Member { set, element } => member_machine(alloc, layout, kinds, bits, *set, *element),
    }
}

/// The machine over these bits that accepts where both facts of the branch hold.
fn branch_machine(
    alloc: Global,
    layout: &Layout,
    kinds: &[Kind],
    bits: &[Bit],
    branch: &Branch,
) -> Result<Both<Linear, Linear>, AllocError>
    requires kinds { layout.now.kinds ≡ kinds.now }
    requires ascend { IsStrictlyIncreasing bits.now }
    requires reads { IsBranchReadBy layout.now bits.now branch.now }
    ensures { IfOk result (λ m. IsMachineOfBranch layout.now bits.now branch.now m.first m.second) }
{
    side_by_side_accepts::<linear_machine::State, linear_machine::State>();
    let first = atom_machine(alloc, layout, kinds, bits, &branch.first)?;
    let second = atom_machine(alloc, layout, kinds, bits, &branch.second)?;
    Ok(Both { first, second })
}

/// The machines of the branches, in order.
pub(crate) fn branch_machines(
    alloc: Global,
    layout: &Layout,
    kinds: &[Kind],
    bits: &[Bit],
    branches: &[Branch],
) -> Result<Vec<Both<Linear, Linear>>, AllocError>
    requires kinds { layout.now.kinds ≡ kinds.now }
    requires ascend { IsStrictlyIncreasing bits.now }
    requires reads { All (IsBranchReadBy layout.now bits.now) branches.now }
    ensures { IfOk result (λ ms. AllZip (λ b m. IsMachineOfBranch layout.now bits.now b m.first m.second) branches.now ms.items) }
{
    let mut machines = Vec::new(alloc);
    for branch in branches {
        machines.push(branch_machine(alloc, layout, kinds, bits, branch)?)?;
    }
    Ok(machines)
}
