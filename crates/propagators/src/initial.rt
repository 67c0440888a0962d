//! The words of initial values, and the domains that have them all.
ghost use Rattle.std.specs.Prelude.{◌≡◌, ◌<◌, [], ◌∷◌, All, Some, length, slice_get, Err, IfOk};
ghost use Rattle.diagram_arena.specs.Arena.{table};
ghost use Rattle.node_reclaim.specs.Growth.{IsFull, Stays};
ghost use Rattle.scope_words.specs.Words.{IsDiagramOf};
ghost use Rattle.propagators.specs.Compiled.{IsInitialDomain};
ghost use Rattle.propagators.specs.Units.{Anything};
ghost use Rattle.scope_words.specs.Words.{HaveFewBits};
ghost use Rattle.propagators.specs.Work.{NewAreOfWords, AcceptsInitial};

use bit_layout::{Bit, Layout};
use bit_machine::build;
use diagram_arena::{Ref, Stop};
use diagram_ops::Ops;
use scope_words::scope_bits;
use set_meaning::{Kind, VarId};
use std::alloc::{AllocError, Global};
use table_machine::{TableMachine, values_fit_together};

/// The words of initial values of these variables, which have at most 2,048 bits.
pub(crate) fn initial_words(
    alloc: Global,
    ops: &mut Ops,
    layout: &Layout,
    kinds: &[Kind],
    variables: &[VarId],
) -> Result<Ref, Stop>
    requires kinds { layout.now.kinds ≡ kinds.now }
    requires known { All (λ v. v.0 < length layout.now.kinds) variables.now }
    requires few { HaveFewBits layout.now variables.now }
    ensures diagram { IfOk result (IsDiagramOf layout.now variables.now Anything (table ops.new.arena)) }
    ensures stays { Stays ops.old ops.new }
    ensures full { result ≡ Err Stop.Full → IsFull ops.new }
    ensures parts { NewAreOfWords layout.now variables.now Anything (table ops.old.arena) (table ops.new.arena) }
{
    // What holds of every pool.
    let _ = ops.pool();
    match machine_of(alloc, layout, kinds, variables) {
        Ok(m) => build(alloc, ops, &m.machine, m.bits.as_slice()),
        Err(_) => Err(Stop::Memory),
    }
}

/// The domain of all initial values of a variable, which is of this kind.
pub(crate) fn initial_domain(
    alloc: Global,
    ops: &mut Ops,
    layout: &Layout,
    kinds: &[Kind],
    v: VarId,
    kind: &Kind,
) -> Result<Ref, Stop>
    requires kinds { layout.now.kinds ≡ kinds.now }
    requires kind { slice_get layout.now.kinds v.0 ≡ Some kind.now }
    ensures domain { IfOk result (IsInitialDomain layout.now (table ops.new.arena) v) }
    ensures stays { Stays ops.old ops.new }
    ensures full { result ≡ Err Stop.Full → IsFull ops.new }
    ensures parts { NewAreOfWords layout.now (v ∷ []) Anything (table ops.old.arena) (table ops.new.arena) }
{
    // What holds of every layout and pool, and of values.
    layout.obeys_order();
    let _ = ops.pool();
    values_fit_together();
    match kind {
        Kind::Bool => Ok(Ref::One),
        Kind::Int(_) => initial_words(alloc, ops, layout, kinds, [v].as_slice()),
        Kind::Set(_) => Ok(Ref::One),
    }
}

/// The bits of the variables, and the machine that reads them.
#[derive(Drop)]
struct InitialMachine {
    bits: Vec<Bit>,
    machine: TableMachine,
}

fn machine_of(
    alloc: Global,
    layout: &Layout,
    kinds: &[Kind],
    variables: &[VarId],
) -> Result<InitialMachine, AllocError>
    requires kinds { layout.now.kinds ≡ kinds.now }
    requires known { All (λ v. v.0 < length layout.now.kinds) variables.now }
    ensures { IfOk result (λ m. AcceptsInitial layout.now variables.now m.bits.items m.machine) }
{
    // What holds of every layout, and of values.
    layout.obeys_order();
    values_fit_together();
    let bits = scope_bits(alloc, layout, variables)?;
    let machine = TableMachine::initial_values(alloc, layout, kinds, bits.as_slice())?;
    Ok(InitialMachine { bits, machine })
}
