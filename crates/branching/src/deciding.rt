//! The decision that the branching rule takes.
ghost use Rattle.std.specs.Prelude.{◌≡◌, ◌<◌, Err, IfOk, IfSome, IfNone, Some, length, slice_get};
ghost use Rattle.std.specs.List.Sorted.{IsStrictlyIncreasing};
ghost use Rattle.diagram_arena.specs.Arena.{table};
ghost use Rattle.diagram_view.specs.Words.{IsFirstOpen};
ghost use Rattle.scope_words.specs.Words.{bits_at};
ghost use Rattle.node_reclaim.specs.Growth.{IsFull, Stays, NewAre};
ghost use Rattle.exact_steps.specs.Domains.{AreDomains, IsDomain, family, values_in};
ghost use Rattle.branching.specs.Decisions.{HaveOneValueBelow, IsDecided, IsPartOfDecision, NewReachOneVariable};
ghost use Rattle.branching.specs.Work.{domain_words, HasOneValue, IsOpenAt};

use crate::keeping::with_true;
use bit_layout::{Bit, Layout};
use diagram_arena::{Arena, Ref, Stop};
use diagram_ops::Ops;
use diagram_view::first_open;
use set_meaning::VarId;

/// The decision that the branching rule takes: a variable and the new domain, or None where every domain has one value.
/// The variables below `from`, which may be 0, are known to have one value each, and are not looked at. Each other one
/// that is passed costs one walk down its domain. Full and Memory come as from `Ops::and`.
pub fn decision(
    ops: &mut Ops,
    layout: &Layout,
    domains: &[Ref],
    from: usize,
) -> Result<Option<(VarId, Ref)>, Stop>
    requires domains { AreDomains layout.now (table ops.old.arena) domains.now }
    requires below { HaveOneValueBelow from (family layout.now (table ops.old.arena) domains.now) }
    ensures none { let f = family layout.now (table ops.old.arena) domains.now in
        IfOk result (λ found. IfNone found (HaveOneValueBelow (length layout.now.kinds) f)) }
    ensures decided { let t = table ops.old.arena in let u = table ops.new.arena in
        IfOk result (λ found. IfSome found (λ d. IsDecided layout.now t u domains.now from d.0 d.1)) }
    ensures stays { Stays ops.old ops.new }
    ensures full { result ≡ Err Stop.Full → IsFull ops.new }
    ensures parts { let t = table ops.old.arena in
        NewAre t (table ops.new.arena) (IsPartOfDecision layout.now t domains.now) }
    ensures reach { NewReachOneVariable layout.now (table ops.old.arena) (table ops.new.arena) }
{
    // What holds of every pool.
    let _ = ops.pool();
    match first_open_variable(ops, layout, domains, from) {
        None => Ok(None),
        Some(chosen) => {
            let r = kept_at(ops, layout, domains, from, chosen)?;
            Ok(Some((chosen.variable, r)))
        }
    }
}

/// A variable with more than one value, and the first position of its words at which both bits occur.
#[derive(Clone, Copy)]
struct OpenAt {
    variable: VarId,
    position: u32,
}

/// The first variable from `from` on with more than one value.
fn first_open_variable(ops: &Ops, layout: &Layout, domains: &[Ref], from: usize) -> Option<OpenAt>
    requires domains { AreDomains layout.now (table ops.now.arena) domains.now }
    requires below { HaveOneValueBelow from (family layout.now (table ops.now.arena) domains.now) }
    ensures none { IfNone result
        (HaveOneValueBelow (length layout.now.kinds) (family layout.now (table ops.now.arena) domains.now)) }
    ensures some { let t = table ops.now.arena in
        IfSome result (λ o. IsOpenAt layout.now t domains.now from o.variable o.position) }
{
    for i in from..domains.len() {
        let v = variable(layout, i);
        let domain = domain_of(domains, v);
        match open_position(ops, layout, v, domain) {
            Some(position) => {
                return Some(OpenAt {
                    variable: v,
                    position,
                });
            }
            None => {}
        }
    }
    None
}

pub(crate) fn variable(layout: &Layout, i: usize) -> VarId
    requires { i < length layout.now.kinds }
    ensures { result.0 ≡ i }
{
    // There are few variables.
    layout.obeys_order();
    VarId(i as u32)
}

/// The domain of a variable.
pub(crate) fn domain_of(domains: &[Ref], v: VarId) -> Ref
    requires { v.0 < length domains.now }
    ensures { slice_get domains.now v.0 ≡ Some result }
{
    domains[v.0 as usize]
}

/// The first position at which both bits occur in the words of a domain. None: it has one value.
fn open_position(ops: &Ops, layout: &Layout, v: VarId, domain: Ref) -> Option<u32>
    requires known { v.0 < length layout.now.kinds }
    requires domain { IsDomain layout.now (table ops.now.arena) v domain }
    ensures first { let t = table ops.now.arena in
        IfSome result (IsFirstOpen (domain_words layout.now t v domain)) }
    ensures none { let t = table ops.now.arena in
        IfNone result (HasOneValue (values_in layout.now t v domain)) }
{
    open_at(ops.pool().arena(), layout, v, domain)
}

fn open_at(arena: &Arena, layout: &Layout, v: VarId, domain: Ref) -> Option<u32>
    requires known { v.0 < length layout.now.kinds }
    requires domain { IsDomain layout.now (table arena.now) v domain }
    ensures first { let t = table arena.now in
        IfSome result (IsFirstOpen (domain_words layout.now t v domain)) }
    ensures none { let t = table arena.now in
        IfNone result (HasOneValue (values_in layout.now t v domain)) }
{
    // What holds of every layout and diagram.
    layout.obeys_order();
    arena.reaches_what_words_depend_on(domain);
    first_open(arena, domain, bits_of(layout, v))
}

/// The bits of one variable, as a list.
pub(crate) fn bits_of(layout: &Layout, v: VarId) -> &[Bit]
    requires { v.0 < length layout.now.kinds }
    ensures bits { result.now ≡ bits_at layout.now v }
    ensures ascending { IsStrictlyIncreasing result.now }
{
    layout.bits_of(v)
}

/// The values of the open variable with a true bit at the position.
fn kept_at(
    ops: &mut Ops,
    layout: &Layout,
    domains: &[Ref],
    from: usize,
    chosen: OpenAt,
) -> Result<Ref, Stop>
    requires domains { AreDomains layout.now (table ops.old.arena) domains.now }
    requires chosen { IsOpenAt layout.now (table ops.old.arena) domains.now from chosen.variable chosen.position }
    ensures decided { let t = table ops.old.arena in
        IfOk result (IsDecided layout.now t (table ops.new.arena) domains.now from chosen.variable) }
    ensures stays { Stays ops.old ops.new }
    ensures full { result ≡ Err Stop.Full → IsFull ops.new }
    ensures parts { let t = table ops.old.arena in
        NewAre t (table ops.new.arena) (IsPartOfDecision layout.now t domains.now) }
    ensures reach { NewReachOneVariable layout.now (table ops.old.arena) (table ops.new.arena) }
{
    // What holds of every layout.
    layout.obeys_order();
    let domain = domain_of(domains, chosen.variable);
    let bit = layout.bit(chosen.variable, chosen.position);
    with_true(ops, domain, bit)
}
