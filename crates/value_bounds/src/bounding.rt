//! The bounds of a domain: those of its words, read as values.
ghost use Rattle.std.specs.Prelude.{◌≡◌, ◌<◌, Some, length, slice_get, IfOk};
ghost use Rattle.std.specs.List.Sorted.{IsStrictlyIncreasing};
ghost use Rattle.diagram_arena.specs.Arena.{table};
ghost use Rattle.scope_words.specs.Words.{bits_at};
ghost use Rattle.exact_steps.specs.Domains.{values_in, IsDomain};
ghost use Rattle.value_bounds.specs.Bounds.{AreBoundsOf};
ghost use Rattle.value_bounds.specs.Work.{AreBoundsOfWords, domain_words};

use crate::ends::ends;
use bit_layout::{Bit, Layout};
use diagram_arena::{Arena, Ref, zero_and_one};
use diagram_ops::Ops;
use diagram_view::{WordBounds, bounds};
use set_meaning::{Bounds, Kind, Problem, VarId};
use std::alloc::{AllocError, Global};

/// The bounds of the values of a variable's domain: of a Boolean or an integer the least and the greatest, `false` before `true`; of a set the
/// elements of every value, and those of some value (Hawkins, Lagoon and Stuckey, JAIR 2005). `layout` is the layout of `p`, and `domain` a
/// domain of `v`: the live diagram of some of its initial values, at least one. For each bit of the variable each node of the domain is looked
/// at once at most. No node is made. An `Err` is want of memory.
pub fn root_bounds(
    alloc: Global,
    ops: &Ops,
    layout: &Layout,
    p: &Problem,
    v: VarId,
    domain: Ref,
) -> Result<Bounds, AllocError>
    requires layout { layout.now.kinds ≡ p.now.kinds }
    requires known { v.0 < length p.now.kinds }
    requires domain { IsDomain layout.now (table ops.now.arena) v domain }
    ensures { IfOk result (AreBoundsOf (values_in layout.now (table ops.now.arena) v domain)) }
{
    // What holds of every layout.
    layout.obeys_order();
    let words = word_bounds(alloc, ops.pool().arena(), layout, v, domain)?;
    ends(alloc, layout, v, kind_of(p, v), &words)
}

fn kind_of(p: &Problem, v: VarId) -> &Kind
    requires { v.0 < length p.now.kinds }
    ensures { slice_get p.now.kinds v.0 ≡ Some result.now }
{
    &p.kinds.items()[v.0 as usize]
}

/// The bounds of the words of a domain, over the bits of its variable.
fn word_bounds(
    alloc: Global,
    arena: &Arena,
    layout: &Layout,
    v: VarId,
    domain: Ref,
) -> Result<WordBounds, AllocError>
    requires known { v.0 < length layout.now.kinds }
    requires domain { IsDomain layout.now (table arena.now) v domain }
    ensures { IfOk result (AreBoundsOfWords (domain_words layout.now (table arena.now) v domain)) }
{
    // What holds of every layout and diagram.
    layout.obeys_order();
    zero_and_one();
    arena.reaches_what_words_depend_on(domain);
    let found = bounds(alloc, arena, domain, bits_of(layout, v))?;
    match found {
        Some(words) => Ok(words),
        None => unreachable!(),
    }
}

/// The bits of one variable, as a list.
fn bits_of(layout: &Layout, v: VarId) -> &[Bit]
    requires { v.0 < length layout.now.kinds }
    ensures bits { result.now ≡ bits_at layout.now v }
    ensures ascending { IsStrictlyIncreasing result.now }
{
    layout.bits_of(v)
}
