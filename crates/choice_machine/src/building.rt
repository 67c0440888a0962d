//! How the automaton of a choice is made: layer by layer, a layer having the joint states that reading so many bits gives.
ghost use Rattle.std.specs.Prelude.{◌≡◌, ℕ, ◌+◌, ◌<◌, ◌≤◌, ◌++◌, ◌↔◌, true, List, [], length, All, Any, IfOk, OnOk};
ghost use Rattle.diagram_arena.specs.Table.{Word};
ghost use Rattle.bit_machine.specs.Rules.{accepts};
ghost use Rattle.choice_machine.specs.Choices.{rules_of, IsLost};
ghost use Rattle.choice_machine.specs.Building.{IsNumbered, AreStatesAt, AppendsUnless, AppendsNext, AreStarts, IsNext, SomeAccepts, LeadsTo, IsLayer, AreRowsOfChoice};

use crate::losing::Losing;
use crate::machine::ChoiceMachine;
use crate::rows::Row;
use indexmap::IndexSet;
use std::alloc::{AllocError, Global};

/// The automaton that accepts, of words read over just so many bits, those that at least one of the machines accepts. With no machine it
/// accepts nothing. Ask for as many places as there are bits to read: nothing is said of what it accepts after fewer or more.
///
/// It is made place by place: what it keeps of a word is the state of each machine that is not lost, so that at each place time and memory
/// are in proportion to these states over all that can be kept there. An `Err` is want of memory.
pub fn choice_of<M: Losing>(
    alloc: Global,
    machines: &[M],
    places: usize,
) -> Result<ChoiceMachine, AllocError>
    requires valid { All M.valid machines.now }
    requires places { All (λ machine. places ≤ M.places machine) machines.now }
    ensures places { IfOk result (λ m. m.places ≡ places) }
    ensures accepts { IfOk result (λ m. (bits : List ℕ) (w : Word) → length bits ≡ places
        → (accepts (rules_of m) bits w ≡ true) ↔ Any (λ machine. accepts (M.rules machine) bits w ≡ true) machines.now) }
{
    let mut rows = Vec::new(alloc);
    let mut layer = first_layer(alloc, machines)?;
    for at in 0..places {
        layer = next_layer(alloc, machines, places, at, layer.as_slice(), &mut rows)?;
    }
    push_ends(machines, places, layer.as_slice(), &mut rows)?;
    Ok(ChoiceMachine::of(rows, places))
}

/// The layer of the one joint state before any bit is read.
fn first_layer<M: Losing>(
    alloc: Global,
    machines: &[M],
) -> Result<IndexSet<Vec<(usize, M::State)>>, AllocError>
    requires valid { All M.valid machines.now }
    ensures { IfOk result (λ s. IsLayer M.rules (λ joint. joint.items) machines.now M.occurs [] 0 s.keys) }
{
    let mut layer = IndexSet::new(alloc);
    layer.insert_full(first_joint(alloc, machines)?)?;
    Ok(layer)
}

/// The joint state before any bit is read.
fn first_joint<M: Losing>(
    alloc: Global,
    machines: &[M],
) -> Result<Vec<(usize, M::State)>, AllocError>
    requires valid { All M.valid machines.now }
    ensures occur { IfOk result (λ joint. AreStatesAt M.occurs machines.now 0 joint.items) }
    ensures starts { IfOk result (λ joint. AreStarts M.rules machines.now (length machines.now) joint.items) }
{
    let mut joint = Vec::new(alloc);
    for (number, machine) in machines.iter().enumerate() {
        push_unless_lost(&mut joint, machine, number, 0, machine.start())?;
    }
    Ok(joint)
}

/// Appends the state of a machine before the bit at place `at`, unless it is lost.
fn push_unless_lost<M: Losing>(
    joint: &mut Vec<(usize, M::State)>,
    machine: &M,
    number: usize,
    at: usize,
    state: M::State,
) -> Result<(), AllocError>
    requires valid { M.valid machine.now }
    requires within { at ≤ M.places machine.now }
    requires from { M.occurs machine.now at state }
    ensures { OnOk result (AppendsUnless (IsLost (M.rules machine.now) at state) joint.old.items joint.new.items (number, state)) }
{
    if !machine.is_lost(at, state) {
        joint.push((number, state))?;
    }
    Ok(())
}

/// The next layer. Appends a row for each joint state of this one.
fn next_layer<M: Losing>(
    alloc: Global,
    machines: &[M],
    places: usize,
    at: usize,
    joints: &[Vec<(usize, M::State)>],
    rows: &mut Vec<Row>,
) -> Result<IndexSet<Vec<(usize, M::State)>>, AllocError>
    requires valid { All M.valid machines.now }
    requires places { All (λ machine. places ≤ M.places machine) machines.now }
    requires within { at < places }
    requires layer { IsLayer M.rules (λ joint. joint.items) machines.now M.occurs rows.old.items at joints.now }
    ensures { IfOk result (λ s. IsLayer M.rules (λ joint. joint.items) machines.now M.occurs rows.new.items (at + 1) s.keys) }
{
    let base = rows.len() + joints.len();
    let mut layer = IndexSet::new(alloc);
    for joint in joints {
        let on_false = number_after(
            alloc,
            machines,
            places,
            at,
            joint.as_slice(),
            false,
            base,
            &mut layer,
        )?;
        let on_true = number_after(
            alloc,
            machines,
            places,
            at,
            joint.as_slice(),
            true,
            base,
            &mut layer,
        )?;
        rows.push(Row {
            on_false,
            on_true,
            accepts: false,
        })?;
    }
    Ok(layer)
}

/// The number of the joint state after the bit at place `at`, where those of the next layer begin with `base`. It is put there if it is new.
fn number_after<M: Losing>(
    alloc: Global,
    machines: &[M],
    places: usize,
    at: usize,
    joint: &[(usize, M::State)],
    value: bool,
    base: usize,
    layer: &mut IndexSet<Vec<(usize, M::State)>>,
) -> Result<usize, AllocError>
    requires valid { All M.valid machines.now }
    requires places { All (λ machine. places ≤ M.places machine) machines.now }
    requires within { at < places }
    requires from { AreStatesAt M.occurs machines.now at joint.now }
    requires occur { All (λ joint. AreStatesAt M.occurs machines.now (at + 1) joint.items) layer.old.keys }
    ensures occur { OnOk result (All (λ joint. AreStatesAt M.occurs machines.now (at + 1) joint.items) layer.new.keys) }
    ensures next { IfOk result (LeadsTo M.rules (λ joint. joint.items) machines.now at value base joint.now layer.new.keys) }
    ensures grows { OnOk result ((more : List _) × (layer.new.keys ≡ layer.old.keys ++ more)) }
{
    let next = joint_after(alloc, machines, places, at, joint, value)?;
    let (number, _) = layer.insert_full(next)?;
    number_from(base, number)
}

/// The number of a state, if there can be so many.
fn number_from(base: usize, number: usize) -> Result<usize, AllocError>
    ensures { IfOk result (λ n. n ≡ base + number) }
{
    match base.checked_add(number) {
        Some(n) => Ok(n),
        None => Err(AllocError),
    }
}

/// The joint state after the bit at place `at`.
fn joint_after<M: Losing>(
    alloc: Global,
    machines: &[M],
    places: usize,
    at: usize,
    joint: &[(usize, M::State)],
    value: bool,
) -> Result<Vec<(usize, M::State)>, AllocError>
    requires valid { All M.valid machines.now }
    requires places { All (λ machine. places ≤ M.places machine) machines.now }
    requires within { at < places }
    requires from { AreStatesAt M.occurs machines.now at joint.now }
    ensures occur { IfOk result (λ next. AreStatesAt M.occurs machines.now (at + 1) next.items) }
    ensures next { IfOk result (λ next. IsNext M.rules machines.now at value joint.now next.items) }
{
    let mut next = Vec::new(alloc);
    for member in joint {
        push_after(&mut next, machines, places, at, *member, value)?;
    }
    Ok(next)
}

/// Appends the state of one machine after the bit at place `at`, unless it is lost.
fn push_after<M: Losing>(
    next: &mut Vec<(usize, M::State)>,
    machines: &[M],
    places: usize,
    at: usize,
    member: (usize, M::State),
    value: bool,
) -> Result<(), AllocError>
    requires valid { All M.valid machines.now }
    requires places { All (λ machine. places ≤ M.places machine) machines.now }
    requires within { at < places }
    requires from { IsNumbered machines.now member.0 (λ m. M.occurs m at member.1) }
    requires occur { AreStatesAt M.occurs machines.now (at + 1) next.old.items }
    ensures occur { OnOk result (AreStatesAt M.occurs machines.now (at + 1) next.new.items) }
    ensures appends { OnOk result (AppendsNext M.rules machines.now at value member next.old.items next.new.items) }
{
    let (number, state) = member;
    let machine = &machines[number];
    push_unless_lost(
        next,
        machine,
        number,
        at + 1,
        machine.step(at, state, value),
    )
}

/// Appends the rows of the last layer.
fn push_ends<M: Losing>(
    machines: &[M],
    places: usize,
    joints: &[Vec<(usize, M::State)>],
    rows: &mut Vec<Row>,
) -> Result<(), AllocError>
    requires valid { All M.valid machines.now }
    requires places { All (λ machine. places ≤ M.places machine) machines.now }
    requires layer { IsLayer M.rules (λ joint. joint.items) machines.now M.occurs rows.old.items places joints.now }
    ensures { OnOk result (AreRowsOfChoice M.rules machines.now places rows.new.items) }
{
    for joint in joints {
        rows.push(Row {
            on_false: 0,
            on_true: 0,
            accepts: some_accepts(machines, places, joint.as_slice()),
        })?;
    }
    Ok(())
}

/// Whether one of the joint state's machines accepts, once so many bits are read.
fn some_accepts<M: Losing>(machines: &[M], places: usize, joint: &[(usize, M::State)]) -> bool
    requires valid { All M.valid machines.now }
    requires places { All (λ machine. places ≤ M.places machine) machines.now }
    requires from { AreStatesAt M.occurs machines.now places joint.now }
    ensures { (result ≡ true) ↔ SomeAccepts M.rules machines.now joint.now }
{
    for member in joint {
        let (number, state) = *member;
        if machines[number].accepts(state) {
            return true;
        }
    }
    false
}
