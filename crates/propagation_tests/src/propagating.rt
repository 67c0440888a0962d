//! Propagation over small problems, worked out by hand.
ghost use Rattle.std.specs.Prelude.{◌≡◌, ℕ, ◌<◌, ◌+◌, ◌++◌, [], IfOk, OnOk, length, All, Some, slice_get};
ghost use Rattle.diagram_arena.specs.Arena.{table};
ghost use Rattle.node_reclaim.specs.Growth.{Stays};
ghost use Rattle.node_reclaim.specs.Holders.{AreHeld};
ghost use Rattle.scope_words.specs.Words.{IsSetKind};
ghost use Rattle.problem_limits.specs.Limits.{KeepsLimits};
ghost use Rattle.exact_steps.specs.Domains.{family};
ghost use Rattle.propagators.specs.Compiled.{pinned_by, IsCompiled};
ghost use Rattle.constraint_queue.specs.Queue.{HasFlag};
ghost use Rattle.domain_trail.specs.Trail.{held};
ghost use Rattle.box_clauses.specs.Boxes.{AreSides};
ghost use Rattle.box_clauses.specs.Stored.{stored_sets};
ghost use Rattle.search_state.specs.Readings.{IsTrailOf};
ghost use Rattle.propagation.specs.Quiet.{IsQueueOf, AreSettled};
ghost use Rattle.propagation_tests.specs.Filled.{IsFilled};

use crate::samples::{Case, Given, problem, set_of};
use bit_layout::Layout;
use box_clauses::{BoxStore, Held, Side};
use constraint_queue::ConstraintQueue;
use diagram_arena::{Ref, Stop};
use diagram_ops::Ops;
use domain_trail::Trail;
use listed::Listed;
use node_reclaim::pools_grow;
use problem_limits::keeps_limits;
use problem_rules::initial_domains_are_the_initial_family;
use propagation::{Found, propagate};
use propagators::{Compiled, compiled_stays, initial_domains_are_domains};
use running_boxes::Conflict;
use set_meaning::{ConId, Problem, Relation, VarId};
use std::alloc::{AllocError, Global};
use std::test::Fail;
use value_sets::value_sets_stay;

/// Numbers of value sets, by variable.
type Sides = (u8, u8, u8);

/// What propagation comes to from the initial domains, with these constraints and boxes in store: the kind of a
/// conflict, or the numbers of the domains.
fn told(alloc: Global, cases: &[Case], boxes: &[Sides]) -> Result<String, Fail>
    requires { length boxes.now < 100 }
{
    let p = problem(alloc, cases)?;
    if !keeps_limits(alloc, &p)? {
        return Ok("no problem".to_string(alloc)?);
    }
    let layout = Layout::new(alloc, &p)?;
    let mut ops = Ops::new(alloc, 1_000, 8)?;
    let compiled = Compiled::new(alloc, &p, &layout, &mut ops)?;
    let mut store = BoxStore::new(alloc);
    let done = with_boxes(alloc, &mut ops, &layout, &p, &compiled, &mut store, boxes);
    store.leave();
    compiled.leave();
    done
}

fn with_boxes(
    alloc: Global,
    ops: &mut Ops,
    layout: &Layout,
    p: &Problem,
    compiled: &Compiled,
    store: &mut BoxStore,
    boxes: &[Sides],
) -> Result<String, Fail>
    requires limits { KeepsLimits p.now }
    requires three { length layout.now.kinds ≡ 3 }
    requires sets { All IsSetKind layout.now.kinds }
    requires few { length boxes.now < 100 }
    requires filled { IsFilled p.now layout.now ops.old compiled.now store.old }
    requires none { store.old ≡ [] }
{
    for sides in boxes {
        add(alloc, ops, layout, p, compiled, store, *sides)?;
    }
    begin(alloc, ops, layout, p, compiled, store)
}

/// Adds the box with these value sets as its sides.
fn add(
    alloc: Global,
    ops: &mut Ops,
    layout: &Layout,
    p: &Problem,
    compiled: &Compiled,
    store: &mut BoxStore,
    numbers: Sides,
) -> Result<(), Fail>
    requires three { length layout.now.kinds ≡ 3 }
    requires sets { All IsSetKind layout.now.kinds }
    requires few { length store.old < 100 }
    requires filled { IsFilled p.now layout.now ops.old compiled.now store.old }
    ensures filled { OnOk result (IsFilled p.now layout.now ops.new compiled.now store.new) }
    ensures more { OnOk result (length store.new ≡ length store.old + 1) }
{
    // What holds of every pool, and of what stays.
    let _ = ops.pool();
    compiled_stays();
    value_sets_stay();
    let sides = sides_of(alloc, ops, layout, numbers)?;
    let held = Held::new(alloc, ops, sides.as_slice())?;
    store.add(ops, held, 0, false)?;
    Ok(())
}

fn sides_of(
    alloc: Global,
    ops: &mut Ops,
    layout: &Layout,
    numbers: Sides,
) -> Result<Vec<Side>, Fail>
    requires three { length layout.now.kinds ≡ 3 }
    requires sets { All IsSetKind layout.now.kinds }
    ensures sides { IfOk result (λ sides. AreSides layout.now (table ops.new.arena) sides.items) }
    ensures stays { OnOk result (Stays ops.old ops.new) }
{
    pools_grow();
    value_sets_stay();
    let (first, second, third) = numbers;
    let first = set_of(ops, layout, VarId(0), first)?;
    let second = set_of(ops, layout, VarId(1), second)?;
    let third = set_of(ops, layout, VarId(2), third)?;
    let sides = vec![in alloc;
        Side {
            var: VarId(0),
            set: first
        },
        Side {
            var: VarId(1),
            set: second
        },
        Side {
            var: VarId(2),
            set: third
        },
    ]?;
    Ok(sides)
}

fn begin(
    alloc: Global,
    ops: &mut Ops,
    layout: &Layout,
    p: &Problem,
    compiled: &Compiled,
    store: &BoxStore,
) -> Result<String, Fail>
    requires limits { KeepsLimits p.now }
    requires three { length layout.now.kinds ≡ 3 }
    requires sets { All IsSetKind layout.now.kinds }
    requires few { length store.now < 100 }
    requires filled { IsFilled p.now layout.now ops.old compiled.now store.now }
{
    // What holds of initial domains.
    initial_domains_are_domains();
    initial_domains_are_the_initial_family();
    let mut trail = Trail::new(alloc, ops, compiled.start())?;
    let done = run(alloc, ops, layout, p, compiled, store, &mut trail);
    trail.leave();
    done
}

fn run(
    alloc: Global,
    ops: &mut Ops,
    layout: &Layout,
    p: &Problem,
    compiled: &Compiled,
    store: &BoxStore,
    trail: &mut Trail,
) -> Result<String, Fail>
    requires limits { KeepsLimits p.now }
    requires three { length layout.now.kinds ≡ 3 }
    requires sets { All IsSetKind layout.now.kinds }
    requires few { length store.now < 100 }
    requires compiled { IsCompiled layout.now p.now (table ops.old.arena) compiled.now }
    requires trail { IsTrailOf p.now layout.now (table ops.old.arena) store.now trail.old }
    requires held { AreHeld ops.old (pinned_by compiled.now ++ (held trail.old ++ stored_sets store.now)) }
{
    let mut queue = queue_of(alloc, ops, layout, p, compiled)?;
    let mut sizes: Vec<u64> = Vec::new(alloc);
    match propagate(
        alloc, ops, p, layout, compiled, trail, store, &mut queue, &mut sizes,
    )? {
        Found::Quiet => domains_text(alloc, ops, layout, trail),
        Found::Conflict(Conflict::Constraint(_)) => Ok("constraint".to_string(alloc)?),
        Found::Conflict(Conflict::Box(_)) => Ok("box".to_string(alloc)?),
    }
}

/// The numbers of the domains.
fn domains_text(
    alloc: Global,
    ops: &mut Ops,
    layout: &Layout,
    trail: &Trail,
) -> Result<String, Fail>
    requires three { length layout.now.kinds ≡ 3 }
    requires sets { All IsSetKind layout.now.kinds }
{
    let mut text = "quiet".to_string(alloc)?;
    for v in 0..3 {
        if (v as usize) < trail.domains().len() {
            let number = number_of(ops, layout, VarId(v), trail.domains()[v as usize])?;
            let part = format!(in alloc; " {number}")?;
            text.push_str(part.as_str())?;
        }
    }
    Ok(text)
}

/// The number of the value set, 0 where it is none of three.
fn number_of(ops: &mut Ops, layout: &Layout, v: VarId, r: Ref) -> Result<u8, Stop>
    requires known { v.0 < length layout.now.kinds }
    requires sets { All IsSetKind layout.now.kinds }
{
    for number in 1..4 {
        if set_of(ops, layout, v, number)? == r {
            return Ok(number);
        }
    }
    Ok(0)
}

/// A queue of the constraints of the compiled problem, each with a flag.
fn queue_of(
    alloc: Global,
    ops: &Ops,
    layout: &Layout,
    p: &Problem,
    compiled: &Compiled,
) -> Result<ConstraintQueue, AllocError>
    requires limits { KeepsLimits p.now }
    requires compiled { IsCompiled layout.now p.now (table ops.now.arena) compiled.now }
    ensures queue { IfOk result (IsQueueOf compiled.now) }
    ensures all { IfOk result (λ q. (c : ℕ) → c < length p.now.constraints → HasFlag q c) }
{
    let _ = ops.pool();
    let mut scopes = Vec::new(alloc);
    for c in 0..p.constraints.items().len() as u32 {
        scopes.push(scope_of(alloc, compiled, ConId(c))?)?;
    }
    let mut queue = ConstraintQueue::new(alloc, p.kinds.items().len(), scopes)?;
    queue.flag_all(&[]);
    Ok(queue)
}

/// The scope of the constraint.
fn scope_of(alloc: Global, compiled: &Compiled, c: ConId) -> Result<Listed<VarId>, AllocError>
    requires { c.0 < length compiled.now.scopes }
    ensures { IfOk result (λ scope. slice_get compiled.now.scopes c.0 ≡ Some scope) }
{
    let scope = Vec::from_slice(alloc, compiled.scope(c))?;
    Ok(Listed::of(scope))
}

const X: Given = Given::Variable(0);

const Y: Given = Given::Variable(1);

const FULL: Given = Given::Full;

const EMPTY: Given = Given::Empty;

#[test]
fn nothing_narrows(rt: HostRuntime) -> Result<(), Fail> {
    let none = told(rt.alloc(), &[], &[])?;
    assert_eq!(rt; none.as_str(), "quiet 3 3 3");
    let open = told(rt.alloc(), &[(Relation::SetSubset, X, Y)], &[(3, 2, 1)])?;
    assert_eq!(rt; open.as_str(), "quiet 3 3 3");
    Ok(())
}

/// X is full, so Y is; then the box has only values of the third variable outside.
#[test]
fn constraints_and_a_box_narrow(rt: HostRuntime) -> Result<(), Fail> {
    let cases = [(Relation::SetSubset, X, Y), (Relation::SetEq, X, FULL)];
    let without = told(rt.alloc(), &cases, &[])?;
    assert_eq!(rt; without.as_str(), "quiet 2 2 3");
    let with = told(rt.alloc(), &cases, &[(3, 2, 1)])?;
    assert_eq!(rt; with.as_str(), "quiet 2 2 2");
    Ok(())
}

/// The second box narrows Y, and the first one then the third variable.
#[test]
fn boxes_narrow_one_after_another(rt: HostRuntime) -> Result<(), Fail> {
    let boxes = [(3, 2, 1), (2, 1, 3)];
    let text = told(rt.alloc(), &[(Relation::SetEq, X, FULL)], &boxes)?;
    assert_eq!(rt; text.as_str(), "quiet 2 2 2");
    Ok(())
}

/// A box narrows Y, which leaves X no value.
#[test]
fn a_box_leads_to_a_constraint(rt: HostRuntime) -> Result<(), Fail> {
    let cases = [(Relation::SetNe, X, Y), (Relation::SetEq, X, FULL)];
    let free = told(rt.alloc(), &cases, &[])?;
    assert_eq!(rt; free.as_str(), "quiet 2 1 3");
    let text = told(rt.alloc(), &cases, &[(3, 1, 3)])?;
    assert_eq!(rt; text.as_str(), "constraint");
    Ok(())
}

#[test]
fn conflicts_of_constraints(rt: HostRuntime) -> Result<(), Fail> {
    let cases = [
        (Relation::SetSubset, X, Y),
        (Relation::SetEq, X, FULL),
        (Relation::SetEq, Y, EMPTY),
    ];
    let text = told(rt.alloc(), &cases, &[])?;
    assert_eq!(rt; text.as_str(), "constraint");
    Ok(())
}

/// Constraints without variables.
#[test]
fn constants(rt: HostRuntime) -> Result<(), Fail> {
    let holds = told(rt.alloc(), &[(Relation::SetSubset, EMPTY, FULL)], &[])?;
    assert_eq!(rt; holds.as_str(), "quiet 3 3 3");
    let fails = told(rt.alloc(), &[(Relation::SetEq, EMPTY, FULL)], &[])?;
    assert_eq!(rt; fails.as_str(), "constraint");
    Ok(())
}

/// All domains lie in the box: from the start, or once X and Y are full.
#[test]
fn conflicts_of_boxes(rt: HostRuntime) -> Result<(), Fail> {
    let whole = told(rt.alloc(), &[], &[(3, 3, 3)])?;
    assert_eq!(rt; whole.as_str(), "box");
    let cases = [(Relation::SetEq, X, FULL), (Relation::SetEq, Y, FULL)];
    let text = told(rt.alloc(), &cases, &[(3, 2, 1), (2, 2, 2)])?;
    assert_eq!(rt; text.as_str(), "box");
    Ok(())
}
