//! The units of a compilation, one after another: the domain of each variable's initial values, and the diagram of each constraint. Where
//! a unit finds no room, what no pin reaches is reclaimed, and the unit is tried once more.
ghost use Rattle.std.specs.Prelude.{◌≡◌, [], ◌∷◌, ◌++◌, All, Contains, Some, length, slice_get, Err, IfOk, OnOk, OnErr};
ghost use Rattle.std.specs.List.{AllZip};
ghost use Rattle.set_meaning.specs.Relations.{IsScope};
ghost use Rattle.set_meaning.specs.Rows.{FitsRow};
ghost use Rattle.diagram_arena.specs.Arena.{table};
ghost use Rattle.scope_words.specs.Words.{variables_in};
ghost use Rattle.problem_limits.specs.Limits.{HasSmallNumbers, IsWithinLimits, KeepsLimits};
ghost use Rattle.propagators.specs.Compiled.{IsInitialDomain, AreInitialDomains, IsDiagramOfConstraint};
ghost use Rattle.scope_words.specs.Words.{HaveFewBits};
ghost use Rattle.propagators.specs.Work.{LeavesUnits, AddsHeld, AreFirstDomains, HoldsConstraints, HoldsUnits};
ghost use Rattle.node_reclaim.specs.Growth.{IsFull};
ghost use Rattle.node_reclaim.specs.Holders.{AreHeld};

use crate::initial::initial_domain;
use crate::reified::constraint_diagram;
use bit_layout::Layout;
use diagram_arena::{Ref, Stop};
use diagram_ops::Ops;
use listed::Listed;
use pin_lists::{PinList, collect};
use set_meaning::{Constraint, Kind, Problem, VarId, scope};
use std::alloc::{AllocError, Global};

/// What the units give.
#[derive(Drop)]
pub(crate) struct Units {
    pub(crate) start: Vec<Ref>,
    pub(crate) scopes: Vec<Listed<VarId>>,
    pub(crate) diagrams: Vec<Ref>,
}

/// All units of the problem. `pins`, which has none before, has those of what is done.
pub(crate) fn compile(
    alloc: Global,
    p: &Problem,
    layout: &Layout,
    ops: &mut Ops,
    pins: &mut PinList,
) -> Result<Units, Stop>
    requires limits { KeepsLimits p.now }
    requires layout { layout.now.kinds ≡ p.now.kinds }
    requires empty { pins.old ≡ [] }
    ensures start { IfOk result (λ u. AreInitialDomains layout.now (table ops.new.arena) u.start.items) }
    ensures scopes { IfOk result (λ u. AllZip IsScope p.now.constraints u.scopes.items) }
    ensures diagrams { IfOk result (λ u. AllZip (IsDiagramOfConstraint layout.now (table ops.new.arena)) p.now.constraints u.diagrams.items) }
    ensures pinned { IfOk result (λ u. pins.new ≡ u.start.items ++ u.diagrams.items) }
    ensures held { HoldsUnits layout.now p.now ops.old ops.new pins.new }
    ensures full { result ≡ Err Stop.Full → IsFull ops.new }
{
    let start = domains(alloc, p, layout, ops, pins)?;
    let (scopes, diagrams) = constraints(alloc, p, layout, ops, start.as_slice(), pins)?;
    Ok(Units {
        start,
        scopes,
        diagrams,
    })
}

/// The domains of all variables.
fn domains(
    alloc: Global,
    p: &Problem,
    layout: &Layout,
    ops: &mut Ops,
    pins: &mut PinList,
) -> Result<Vec<Ref>, Stop>
    requires limits { KeepsLimits p.now }
    requires layout { layout.now.kinds ≡ p.now.kinds }
    requires empty { pins.old ≡ [] }
    ensures long { IfOk result (λ start. length start.items ≡ length p.now.kinds) }
    ensures pinned { IfOk result (λ start. pins.new ≡ start.items) }
    ensures done { AreFirstDomains layout.now p.now (table ops.new.arena) pins.new }
    ensures left { LeavesUnits layout.now p.now ops.old ops.new pins.new }
    ensures full { result ≡ Err Stop.Full → IsFull ops.new }
{
    // What holds of every pool.
    let _ = ops.pool();
    let mut start = Vec::new(alloc);
    for (v, kind) in p.kinds.items().iter().enumerate() {
        let r = held_domain(alloc, ops, layout, p, VarId(v as u32), kind, pins)?;
        append(&mut start, r)?;
    }
    Ok(start)
}

/// The domain of a variable's initial values, pinned.
fn held_domain(
    alloc: Global,
    ops: &mut Ops,
    layout: &Layout,
    p: &Problem,
    v: VarId,
    kind: &Kind,
    pins: &mut PinList,
) -> Result<Ref, Stop>
    requires layout { layout.now.kinds ≡ p.now.kinds }
    requires kind { slice_get layout.now.kinds v.0 ≡ Some kind.now }
    ensures domain { IfOk result (IsInitialDomain layout.now (table ops.new.arena) v) }
    ensures held { IfOk result (λ r. AddsHeld layout.now p.now ops.old ops.new pins.old pins.new (r ∷ [])) }
    ensures refused { OnErr result (AddsHeld layout.now p.now ops.old ops.new pins.old pins.new []) }
    ensures full { result ≡ Err Stop.Full → IsFull ops.new }
{
    match made_domain(alloc, ops, layout, p, v, kind, pins) {
        Ok(r) => Ok(r),
        Err(Stop::Memory) => Err(Stop::Memory),
        Err(Stop::Full) => {
            collect(ops);
            made_domain(alloc, ops, layout, p, v, kind, pins)
        }
    }
}

/// One try of that unit.
fn made_domain(
    alloc: Global,
    ops: &mut Ops,
    layout: &Layout,
    p: &Problem,
    v: VarId,
    kind: &Kind,
    pins: &mut PinList,
) -> Result<Ref, Stop>
    requires layout { layout.now.kinds ≡ p.now.kinds }
    requires kind { slice_get layout.now.kinds v.0 ≡ Some kind.now }
    ensures domain { IfOk result (IsInitialDomain layout.now (table ops.new.arena) v) }
    ensures held { IfOk result (λ r. AddsHeld layout.now p.now ops.old ops.new pins.old pins.new (r ∷ [])) }
    ensures refused { OnErr result (AddsHeld layout.now p.now ops.old ops.new pins.old pins.new []) }
    ensures full { result ≡ Err Stop.Full → IsFull ops.new }
{
    // What holds of every pool.
    let _ = ops.pool();
    ops.begin_unit();
    let r = initial_domain(alloc, ops, layout, p.kinds.items(), v, kind)?;
    pins.hold(ops, r)?;
    Ok(r)
}

/// The scopes and the diagrams of all constraints.
fn constraints(
    alloc: Global,
    p: &Problem,
    layout: &Layout,
    ops: &mut Ops,
    start: &[Ref],
    pins: &mut PinList,
) -> Result<(Vec<Listed<VarId>>, Vec<Ref>), Stop>
    requires limits { KeepsLimits p.now }
    requires layout { layout.now.kinds ≡ p.now.kinds }
    requires domains { AreFirstDomains layout.now p.now (table ops.old.arena) start.now }
    requires pinned { pins.old ≡ start.now }
    requires held { AreHeld ops.old start.now }
    ensures scopes { IfOk result (λ r. AllZip IsScope p.now.constraints r.0.items) }
    ensures diagrams { IfOk result (λ r. AllZip (IsDiagramOfConstraint layout.now (table ops.new.arena)) p.now.constraints r.1.items) }
    ensures pinned { IfOk result (λ r. pins.new ≡ start.now ++ r.1.items) }
    ensures held { HoldsConstraints layout.now p.now ops.old ops.new start.now pins.new }
    ensures full { result ≡ Err Stop.Full → IsFull ops.new }
{
    // What holds of every layout and pool.
    layout.obeys_order();
    let _ = ops.pool();
    let mut scopes = Vec::new(alloc);
    let mut diagrams = Vec::new(alloc);
    for c in p.constraints.items() {
        let variables = scope(alloc, c)?;
        let r = held_diagram(alloc, ops, layout, p, c, pins)?;
        append(&mut scopes, Listed::of(variables))?;
        append(&mut diagrams, r)?;
    }
    Ok((scopes, diagrams))
}

/// The diagram of a constraint, pinned.
fn held_diagram(
    alloc: Global,
    ops: &mut Ops,
    layout: &Layout,
    p: &Problem,
    c: &Constraint,
    pins: &mut PinList,
) -> Result<Ref, Stop>
    requires listed { Contains p.now.constraints c.now }
    requires fits { FitsRow p.now.kinds c.now }
    requires layout { layout.now.kinds ≡ p.now.kinds }
    requires numbers { All HasSmallNumbers p.now.kinds }
    requires limits { IsWithinLimits p.now.kinds c.now }
    requires few { HaveFewBits layout.now (variables_in c.now.args) }
    ensures diagram { IfOk result (IsDiagramOfConstraint layout.now (table ops.new.arena) c.now) }
    ensures held { IfOk result (λ r. AddsHeld layout.now p.now ops.old ops.new pins.old pins.new (r ∷ [])) }
    ensures refused { OnErr result (AddsHeld layout.now p.now ops.old ops.new pins.old pins.new []) }
    ensures full { result ≡ Err Stop.Full → IsFull ops.new }
{
    match made_diagram(alloc, ops, layout, p, c, pins) {
        Ok(r) => Ok(r),
        Err(Stop::Memory) => Err(Stop::Memory),
        Err(Stop::Full) => {
            collect(ops);
            made_diagram(alloc, ops, layout, p, c, pins)
        }
    }
}

/// One try of that unit.
fn made_diagram(
    alloc: Global,
    ops: &mut Ops,
    layout: &Layout,
    p: &Problem,
    c: &Constraint,
    pins: &mut PinList,
) -> Result<Ref, Stop>
    requires listed { Contains p.now.constraints c.now }
    requires fits { FitsRow p.now.kinds c.now }
    requires layout { layout.now.kinds ≡ p.now.kinds }
    requires numbers { All HasSmallNumbers p.now.kinds }
    requires limits { IsWithinLimits p.now.kinds c.now }
    requires few { HaveFewBits layout.now (variables_in c.now.args) }
    ensures diagram { IfOk result (IsDiagramOfConstraint layout.now (table ops.new.arena) c.now) }
    ensures held { IfOk result (λ r. AddsHeld layout.now p.now ops.old ops.new pins.old pins.new (r ∷ [])) }
    ensures refused { OnErr result (AddsHeld layout.now p.now ops.old ops.new pins.old pins.new []) }
    ensures full { result ≡ Err Stop.Full → IsFull ops.new }
{
    // What holds of every layout and pool.
    layout.obeys_order();
    let _ = ops.pool();
    ops.begin_unit();
    let diagram = constraint_diagram(alloc, ops, layout, p, c)?;
    pins.hold(ops, diagram)?;
    Ok(diagram)
}

/// Appends the item, which is dropped where memory is wanted.
fn append<T: Drop>(list: &mut Vec<T>, item: T) -> Result<(), AllocError>
    ensures { OnOk result (list.new.items ≡ list.old.items ++ item ∷ []) }
{
    list.push(item)?;
    Ok(())
}
