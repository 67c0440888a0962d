//! The step of a box.
ghost use Rattle.std.specs.Prelude.{◌≡◌, ◌<◌, ◌≤◌, ◌↔◌, Err, Some, IfOk, IsTrue, MatchBool, length, slice_get};
ghost use Rattle.diagram_arena.specs.Arena.{table};
ghost use Rattle.node_reclaim.specs.Growth.{IsFull, Stays};
ghost use Rattle.search_rules.specs.Box.{IsBoxStep, IsStepOutside};
ghost use Rattle.exact_steps.specs.Domains.{AreDomains, family};
ghost use Rattle.box_clauses.specs.Boxes.{AreSides, IsSide, box_of, step_of, GivesDomain, NewArePartsOutside};
ghost use Rattle.box_clauses.specs.Work.{IsHeld, IsOutside, IsFirstOutside, IsOnlyOutside};
ghost use Rattle.box_clauses.specs.Laws.{SetLaws};

use crate::sides::Side;
use bit_layout::Layout;
use diagram_arena::{Ref, Stop};
use diagram_ops::Ops;
use node_reclaim::pools_grow;
use search_rules::box_step_is_the_step_outside;
use set_meaning::{Value, VarId};
use std::alloc::AllocError;
use value_sets::{
    difference, domains_are_value_sets, is_inside, sets_of_the_same_values_are_one,
    value_sets_meet_or_are_apart, value_sets_stay,
};

/// What the step of a box does to the domains.
#[derive(Clone, Copy, PartialEq, Eq, Debug)]
pub enum BoxResult {
    /// Each value of each variable extends to values in the domains that are outside the box.
    Same,
    /// Only the values of this domain do, of this variable; of every other variable each value does.
    Narrowed(VarId, Ref),
    /// All values in the domains are in the box.
    Empty,
}

/// The exact step of the constraint "not in the box". `sides` has the box's sides, by ascending variables of the
/// problem; `domains` has for each variable of the problem, in order, its domain.
///
/// It asks of one side after another whether its variable's domain lies in it, and stops at the second that does not
/// hold it. One `difference` is made where just one does not. Nothing is pinned. Full and Memory come as from these
/// calls.
pub fn box_step(
    ops: &mut Ops,
    layout: &Layout,
    sides: &[Side],
    domains: &[Ref],
) -> Result<BoxResult, Stop>
    requires sides { AreSides layout.now (table ops.old.arena) sides.now }
    requires domains { AreDomains layout.now (table ops.old.arena) domains.now }
    ensures step { let l = layout.now in let t = table ops.old.arena in
        let u = table ops.new.arena in
        IfOk result (λ r. IsBoxStep (box_of l t sides.now) (family l t domains.now) (step_of l u r)) }
    ensures outside { let l = layout.now in let t = table ops.old.arena in
        let u = table ops.new.arena in
        IfOk result (λ r. IsStepOutside (box_of l t sides.now) (family l t domains.now) (step_of l u r)) }
    ensures domain { let l = layout.now in let t = table ops.old.arena in
        IfOk result (GivesDomain l (table ops.new.arena) (family l t domains.now)) }
    ensures stays { Stays ops.old ops.new }
    ensures full { result ≡ Err Stop.Full → IsFull ops.new }
    ensures parts { let l = layout.now in let t = table ops.old.arena in
        NewArePartsOutside l (box_of l t sides.now) (family l t domains.now) t (table ops.new.arena) }
{
    // What holds of every layout, of every pool, and of the step of a box.
    layout.obeys_order();
    let _ = ops.pool();
    pools_grow();
    box_step_is_the_step_outside::<Value>();
    match first_outside(ops, layout, sides, domains, 0)? {
        None => Ok(BoxResult::Empty),
        Some(at) => match first_outside(ops, layout, sides, domains, at + 1)? {
            Some(_) => Ok(BoxResult::Same),
            None => narrow(ops, layout, sides, domains, at),
        },
    }
}

/// From this place on, the first side that does not hold the domain of its variable.
fn first_outside(
    ops: &mut Ops,
    layout: &Layout,
    sides: &[Side],
    domains: &[Ref],
    from: usize,
) -> Result<Option<usize>, AllocError>
    requires sides { AreSides layout.now (table ops.old.arena) sides.now }
    requires domains { AreDomains layout.now (table ops.old.arena) domains.now }
    requires from { from ≤ length sides.now }
    ensures first { IfOk result (IsFirstOutside layout.now (table ops.old.arena) domains.now sides.now from) }
    ensures same { ops.new ≡ ops.old }
{
    for at in from..sides.len() {
        let side = side_at(sides, at);
        if !holds(ops, layout, side, domains)? {
            return Ok(Some(at));
        }
    }
    Ok(None)
}

/// Whether the domain of the side's variable lies in the side.
fn holds(ops: &mut Ops, layout: &Layout, side: Side, domains: &[Ref]) -> Result<bool, AllocError>
    requires side { IsSide layout.now (table ops.old.arena) side }
    requires domains { AreDomains layout.now (table ops.old.arena) domains.now }
    ensures holds { let l = layout.now in let t = table ops.old.arena in
        IfOk result (λ holds. MatchBool holds (IsHeld l t domains.now side) (IsOutside l t domains.now side)) }
    ensures same { ops.new ≡ ops.old }
{
    domains_are_value_sets();
    let domain = domain_of(domains, side.var);
    is_inside(ops, layout, side.var, domain, side.set)
}

/// The side at this place.
fn side_at(sides: &[Side], at: usize) -> Side
    requires { at < length sides.now }
    ensures { slice_get sides.now at ≡ Some result }
{
    sides[at]
}

/// The domain of a variable.
fn domain_of(domains: &[Ref], v: VarId) -> Ref
    requires { v.0 < length domains.now }
    ensures { slice_get domains.now v.0 ≡ Some result }
{
    domains[v.0 as usize]
}

/// Takes the side's values from its variable's domain, where only the side at this place does not hold its domain.
fn narrow(
    ops: &mut Ops,
    layout: &Layout,
    sides: &[Side],
    domains: &[Ref],
    at: usize,
) -> Result<BoxResult, Stop>
    requires sides { AreSides layout.now (table ops.old.arena) sides.now }
    requires domains { AreDomains layout.now (table ops.old.arena) domains.now }
    requires only { IsOnlyOutside layout.now (table ops.old.arena) domains.now sides.now at }
    ensures step { let l = layout.now in let t = table ops.old.arena in
        let u = table ops.new.arena in
        IfOk result (λ r. IsBoxStep (box_of l t sides.now) (family l t domains.now) (step_of l u r)) }
    ensures domain { let l = layout.now in let t = table ops.old.arena in
        IfOk result (GivesDomain l (table ops.new.arena) (family l t domains.now)) }
    ensures stays { Stays ops.old ops.new }
    ensures full { result ≡ Err Stop.Full → IsFull ops.new }
    ensures parts { let l = layout.now in let t = table ops.old.arena in
        NewArePartsOutside l (box_of l t sides.now) (family l t domains.now) t (table ops.new.arena) }
{
    // What holds of every layout, of every pool, and of value sets.
    layout.obeys_order();
    let _ = ops.pool();
    set_laws();
    let side = side_at(sides, at);
    let domain = domain_of(domains, side.var);
    let left = difference(ops, layout, side.var, domain, side.set)?;
    if is_one(left, domain) {
        Ok(BoxResult::Same)
    } else {
        Ok(BoxResult::Narrowed(side.var, left))
    }
}

/// Whether the two refs are one.
fn is_one(a: Ref, b: Ref) -> bool
    ensures { IsTrue result ↔ (a ≡ b) }
{
    a == b
}

/// The laws of value sets.
fn set_laws()
    ensures { SetLaws }
{
    domains_are_value_sets();
    value_sets_stay();
    value_sets_meet_or_are_apart();
    sets_of_the_same_values_are_one();
}
