//! The projection of a step's words to each variable of the scope.
ghost use Rattle.std.specs.Prelude.{◌≡◌, ◌<◌, ◌∷◌, ◌++◌, [], IfOk, OnOk, length, All, IsTrue, Err};
ghost use Rattle.std.specs.Ordering.{nat_cmp};
ghost use Rattle.std.specs.List.Sorted.{IsStrictlyIncreasing, IsStrictlySortedBy};
ghost use Rattle.diagram_arena.specs.Table.{IsLive};
ghost use Rattle.diagram_arena.specs.Reach.{among, ReachesOnly};
ghost use Rattle.diagram_arena.specs.Arena.{table};
ghost use Rattle.node_reclaim.specs.Growth.{IsFull, Stays, words_of};
ghost use Rattle.diagram_ops.specs.Words.{product_of, Lies, HasSome, NewArePartsOfProjections};
ghost use Rattle.scope_words.specs.Words.{bits_at};
ghost use Rattle.exact_steps.specs.Domains.{AreDomains, IsDomain};
ghost use Rattle.exact_steps.specs.Work.{domains_at, HasOneReading, NewAreProjected, IsProjecting, IsLookedAt};

use crate::comparing::is_same;
use crate::gathering::domain_of;
use bit_layout::{Bit, Layout};
use diagram_arena::{Ref, Stop};
use diagram_ops::Ops;
use diagram_view::{first_open, words_over_bits};
use set_meaning::VarId;
use std::alloc::{AllocError, Global};

/// The variables of the scope whose projection of the words that are in the constraint and in all of the scope's domains is another set than
/// their domain, each with that projection. There is such a word. `own` has the domains of the scope.
pub(crate) fn projected(
    alloc: Global,
    ops: &mut Ops,
    layout: &Layout,
    scope: &[VarId],
    constraint: Ref,
    domains: &[Ref],
    own: &[Ref],
) -> Result<Vec<(VarId, Ref)>, Stop>
    requires known { All (λ v. v.0 < length layout.now.kinds) scope.now }
    requires ascending { IsStrictlySortedBy (λ v w. nat_cmp v.0 w.0) scope.now }
    requires constraint { IsLive (table ops.old.arena) constraint }
    requires domains { AreDomains layout.now (table ops.old.arena) domains.now }
    requires own { own.now ≡ domains_at domains.now scope.now }
    requires some { HasSome (product_of (table ops.old.arena) constraint own.now) }
    ensures kept { IfOk result (λ kept. IsProjecting layout.now scope.now (product_of (table ops.old.arena) constraint own.now) domains.now ops.old (length scope.now) ops.new kept.items) }
    ensures stays { Stays ops.old ops.new }
    ensures full { result ≡ Err Stop.Full → IsFull ops.new }
    ensures parts { NewAreProjected layout.now scope.now (product_of (table ops.old.arena) constraint own.now) (table ops.old.arena) (table ops.new.arena) }
{
    // What holds of every layout and every pool.
    layout.obeys_order();
    let _ = ops.pool();
    let mut kept = Vec::new(alloc);
    for v in scope {
        let domain = domain_of(domains, *v);
        look_at(ops, layout, constraint, own, *v, domain, &mut kept)?;
    }
    Ok(kept)
}

/// Appends the variable with its projection, unless that is its domain. The one value of a domain is in the projection, since there is a word.
fn look_at(
    ops: &mut Ops,
    layout: &Layout,
    constraint: Ref,
    own: &[Ref],
    v: VarId,
    domain: Ref,
    kept: &mut Vec<(VarId, Ref)>,
) -> Result<(), Stop>
    requires known { v.0 < length layout.now.kinds }
    requires constraint { IsLive (table ops.old.arena) constraint }
    requires own { All (IsLive (table ops.old.arena)) own.now }
    requires domain { IsDomain layout.now (table ops.old.arena) v domain }
    requires within { Lies (product_of (table ops.old.arena) constraint own.now) (words_of ops.old domain) }
    requires some { HasSome (product_of (table ops.old.arena) constraint own.now) }
    ensures looked { OnOk result (IsLookedAt layout.now domain (product_of (table ops.old.arena) constraint own.now) (table ops.new.arena) kept.old.items kept.new.items v) }
    ensures stays { Stays ops.old ops.new }
    ensures full { result ≡ Err Stop.Full → IsFull ops.new }
    ensures parts { NewArePartsOfProjections (table ops.old.arena) (table ops.new.arena) (among (bits_at layout.now v)) (product_of (table ops.old.arena) constraint own.now) }
{
    // What holds of every layout and every pool.
    layout.obeys_order();
    let _ = ops.pool();
    let bits = bits_of(layout, v);
    if has_one_reading(ops, bits, domain) {
        return Ok(());
    }
    let extending = ops.project_product(constraint, own, bits, domain)?;
    if is_same(extending, domain) {
        return Ok(());
    }
    append(kept, v, extending)?;
    Ok(())
}

/// The bits of one variable, as a list.
fn bits_of(layout: &Layout, v: VarId) -> &[Bit]
    requires { v.0 < length layout.now.kinds }
    ensures bits { result.now ≡ bits_at layout.now v }
    ensures ascending { IsStrictlyIncreasing result.now }
{
    layout.bits_of(v)
}

/// Whether all words of the set have the same values at its bits.
fn has_one_reading(ops: &Ops, bits: &[Bit], r: Ref) -> bool
    requires live { IsLive (table ops.now.arena) r }
    requires ascending { IsStrictlyIncreasing bits.now }
    requires holds { ReachesOnly (table ops.now.arena) (among bits.now) r }
    ensures { IsTrue result → HasOneReading bits.now (words_of ops.now r) }
{
    // What holds of every pool, and of words over bits.
    let _ = ops.pool();
    words_over_bits();
    match first_open(ops.pool().arena(), r, bits) {
        Some(_) => false,
        None => true,
    }
}

fn append(kept: &mut Vec<(VarId, Ref)>, v: VarId, r: Ref) -> Result<(), AllocError>
    ensures { OnOk result (kept.new.items ≡ kept.old.items ++ (v, r) ∷ []) }
{
    kept.push((v, r))?;
    Ok(())
}
