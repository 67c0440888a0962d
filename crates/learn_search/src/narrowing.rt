//! From the initial domains to the root family: constraints are taken from a queue, and each one again after a variable of its scope was
//! narrowed by another. The domains stay pinned, and each step is a unit: where it finds no room, what no pin reaches is reclaimed, and it is
//! tried once more.
ghost use Rattle.std.specs.Prelude.{◌≡◌, ◌<◌, ◌++◌, [], Err, IfOk, OnOk, length, All};
ghost use Rattle.diagram_arena.specs.Table.{IsLive};
ghost use Rattle.diagram_arena.specs.Arena.{table};
ghost use Rattle.node_reclaim.specs.Growth.{IsFull};
ghost use Rattle.node_reclaim.specs.Holders.{AreHeld};
ghost use Rattle.pin_lists.specs.Units.{Moves, UnitsLeave};
ghost use Rattle.problem_limits.specs.Limits.{KeepsLimits};
ghost use Rattle.propagators.specs.Compiled.{pinned_by, IsCompiled};
ghost use Rattle.learn_search.specs.Nodes.{IsOfRoot};
ghost use Rattle.learn_search.specs.Pinned.{AreDomainsOfFirst};
ghost use Rattle.exact_steps.specs.Domains.{family};
ghost use Rattle.learn_search.specs.Way.{IsOnWay, IsTaken, IsFixed, IsQueueOf, AreSettledBut, IsTurn, put_each};

use crate::agenda::{flag_each, measure_each, queue_of, sizes_of};
use bit_layout::Layout;
use constraint_queue::ConstraintQueue;
use diagram_arena::{Ref, Stop};
use diagram_ops::Ops;
use pin_lists::{PinList, collect};
use propagators::{Compiled, StepResult, step};
use set_meaning::{ConId, Problem, VarId};
use std::alloc::{AllocError, Global};

/// What a step did to the domains.
#[derive(Drop)]
pub(crate) enum Taken {
    /// Nothing: each value extends, and some values satisfy the constraint.
    Quiet,
    /// It took values of these variables, which have these domains now.
    Narrowed(Vec<(VarId, Ref)>),
    /// No values in the domains satisfy the constraint.
    Violated,
}

/// Narrows the domains to the root family. False says that the root is refuted.
pub(crate) fn narrow(
    alloc: Global,
    ops: &mut Ops,
    layout: &Layout,
    p: &Problem,
    compiled: &Compiled,
    domains: &mut PinList,
) -> Result<bool, Stop>
    requires limits { KeepsLimits p.now }
    requires compiled { IsCompiled layout.now p.now (table ops.old.arena) compiled.now }
    requires way { IsOnWay p.now layout.now (table ops.old.arena) domains.old }
    requires held { AreHeld ops.old (pinned_by compiled.now ++ domains.old) }
    ensures fixed { IfOk result (IsFixed p.now layout.now (table ops.new.arena) domains.new) }
    ensures left { UnitsLeave (IsOfRoot p.now) ops.old ops.new domains.old domains.new }
    ensures full { result ≡ Err Stop.Full → IsFull ops.new }
    ensures stopped { result ≡ Err Stop.Full → AreDomainsOfFirst layout.now (table ops.new.arena) domains.new }
{
    // What holds of every pool.
    let _ = ops.pool();
    let mut sizes = sizes_of(alloc, ops, layout, domains.refs())?;
    let mut queue = queue_of(alloc, ops, layout, p, compiled)?;
    queue.flag_all(sizes.as_slice());
    'steps: while let Some(c) = queue.next() {
        if !turn(
            alloc, ops, layout, p, compiled, c, domains, &mut queue, &mut sizes,
        )? {
            return Ok(false);
        }
    }
    Ok(true)
}

/// Takes the step of a constraint that has lost its flag, and flags the constraints that may narrow more after it. False says that the root is
/// refuted.
fn turn(
    alloc: Global,
    ops: &mut Ops,
    layout: &Layout,
    p: &Problem,
    compiled: &Compiled,
    c: ConId,
    domains: &mut PinList,
    queue: &mut ConstraintQueue,
    sizes: &mut Vec<u64>,
) -> Result<bool, Stop>
    requires known { c.0 < length p.now.constraints }
    requires compiled { IsCompiled layout.now p.now (table ops.old.arena) compiled.now }
    requires way { IsOnWay p.now layout.now (table ops.old.arena) domains.old }
    requires held { AreHeld ops.old (pinned_by compiled.now ++ domains.old) }
    requires queue { IsQueueOf p.now compiled.now queue.old }
    requires settled { AreSettledBut p.now (family layout.now (table ops.old.arena) domains.old) queue.old c.0 }
    ensures turn { IfOk result
        (IsTurn p.now layout.now (table ops.old.arena) (table ops.new.arena) compiled.now domains.old domains.new queue.old queue.new) }
    ensures left { UnitsLeave (IsOfRoot p.now) ops.old ops.new domains.old domains.new }
    ensures full { result ≡ Err Stop.Full → IsFull ops.new }
    ensures stopped { result ≡ Err Stop.Full → AreDomainsOfFirst layout.now (table ops.new.arena) domains.new }
{
    match take(alloc, ops, layout, p, compiled, c, domains)? {
        Taken::Quiet => Ok(true),
        Taken::Narrowed(kept) => {
            measure_each(alloc, ops, kept.as_slice(), sizes)?;
            flag_each(queue, kept.as_slice(), c, sizes.as_slice());
            Ok(true)
        }
        Taken::Violated => Ok(false),
    }
}

/// Takes the step of one constraint.
fn take(
    alloc: Global,
    ops: &mut Ops,
    layout: &Layout,
    p: &Problem,
    compiled: &Compiled,
    c: ConId,
    domains: &mut PinList,
) -> Result<Taken, Stop>
    requires known { c.0 < length p.now.constraints }
    requires compiled { IsCompiled layout.now p.now (table ops.old.arena) compiled.now }
    requires way { IsOnWay p.now layout.now (table ops.old.arena) domains.old }
    requires held { AreHeld ops.old (pinned_by compiled.now ++ domains.old) }
    ensures taken { IfOk result (IsTaken p.now layout.now (table ops.old.arena) (table ops.new.arena) c.0 domains.old domains.new) }
    ensures left { UnitsLeave (IsOfRoot p.now) ops.old ops.new domains.old domains.new }
    ensures full { result ≡ Err Stop.Full → IsFull ops.new }
    ensures stopped { result ≡ Err Stop.Full → AreDomainsOfFirst layout.now (table ops.new.arena) domains.new }
{
    ops.begin_unit();
    match attempt(alloc, ops, layout, p, compiled, c, domains) {
        Ok(taken) => Ok(taken),
        Err(Stop::Memory) => Err(Stop::Memory),
        Err(Stop::Full) => {
            collect(ops);
            ops.begin_unit();
            attempt(alloc, ops, layout, p, compiled, c, domains)
        }
    }
}

/// One try of that unit.
fn attempt(
    alloc: Global,
    ops: &mut Ops,
    layout: &Layout,
    p: &Problem,
    compiled: &Compiled,
    c: ConId,
    domains: &mut PinList,
) -> Result<Taken, Stop>
    requires known { c.0 < length p.now.constraints }
    requires compiled { IsCompiled layout.now p.now (table ops.old.arena) compiled.now }
    requires way { IsOnWay p.now layout.now (table ops.old.arena) domains.old }
    requires held { AreHeld ops.old (pinned_by compiled.now ++ domains.old) }
    ensures taken { IfOk result (IsTaken p.now layout.now (table ops.old.arena) (table ops.new.arena) c.0 domains.old domains.new) }
    ensures left { UnitsLeave (IsOfRoot p.now) ops.old ops.new domains.old domains.new }
    ensures full { result ≡ Err Stop.Full → IsFull ops.new }
    ensures refused { result ≡ Err Stop.Full → (domains.new ≡ domains.old) × UnitsLeave (IsOfRoot p.now) ops.old ops.new [] [] }
{
    // What holds of every layout and every pool.
    layout.obeys_order();
    let _ = ops.pool();
    match step(alloc, ops, layout, compiled, c, domains.refs())? {
        StepResult::Same => Ok(Taken::Quiet),
        StepResult::Narrowed(kept) => {
            put(ops, domains, kept.as_slice())?;
            Ok(Taken::Narrowed(kept))
        }
        StepResult::Empty => Ok(Taken::Violated),
    }
}

/// Pins each of the refs at its variable's place, in place of what was there.
fn put(ops: &mut Ops, domains: &mut PinList, kept: &[(VarId, Ref)]) -> Result<(), AllocError>
    requires known { All (λ e. e.0.0 < length domains.old) kept.now }
    requires live { All (λ e. IsLive (table ops.old.arena) e.1) kept.now }
    requires held { AreHeld ops.old domains.old }
    ensures put { OnOk result (domains.new ≡ put_each kept.now domains.old) }
    ensures moved { Moves ops.old ops.new domains.old domains.new }
    ensures only { ops.new ≡ record ops.old { counts = ops.new.counts } }
{
    for (v, r) in kept {
        domains.replace(ops, v.0 as usize, *r)?;
    }
    Ok(())
}
