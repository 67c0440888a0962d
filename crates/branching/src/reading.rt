//! The values of domains that have one value each.
ghost use Rattle.std.specs.Prelude.{◌≡◌, ◌<◌, true, IfOk, length};
ghost use Rattle.diagram_arena.specs.Arena.{table};
ghost use Rattle.diagram_view.specs.Words.{IsWord};
ghost use Rattle.set_meaning.specs.declared.problems.Problem.{Problem};
ghost use Rattle.set_meaning.specs.Kinds.{IsAssignment};
ghost use Rattle.exact_steps.specs.Domains.{AreDomains, IsDomain, family, values_in};
ghost use Rattle.branching.specs.Decisions.{HaveOneValueBelow, AreSingleValues};
ghost use Rattle.branching.specs.Work.{domain_words, HasOneValue};

use crate::deciding::{bits_of, domain_of, variable};
use bit_layout::Layout;
use diagram_arena::{Arena, Ref};
use diagram_ops::Ops;
use diagram_view::single;
use set_meaning::{Value, VarId};
use std::alloc::{AllocError, Global};

/// The values of domains of one value each, in file order. No node is made. An `Err` is want of memory.
pub fn single_values(
    alloc: Global,
    ops: &Ops,
    layout: &Layout,
    domains: &[Ref],
) -> Result<Vec<Value>, AllocError>
    requires domains { AreDomains layout.now (table ops.now.arena) domains.now }
    requires one { let f = family layout.now (table ops.now.arena) domains.now in
        HaveOneValueBelow (length layout.now.kinds) f }
    ensures assignment { IfOk result (λ values. IsAssignment layout.now.kinds values.items) }
    ensures single { let f = family layout.now (table ops.now.arena) domains.now in
        IfOk result (λ values. (p : Problem) → p.kinds ≡ layout.now.kinds → AreSingleValues p f values.items) }
{
    // What holds of every layout.
    layout.obeys_order();
    let mut values = Vec::new(alloc);
    for i in 0..domains.len() {
        let v = variable(layout, i);
        values.push(value_at(alloc, ops, layout, v, domain_of(domains, v))?)?;
    }
    Ok(values)
}

/// The value of a domain of one value.
fn value_at(
    alloc: Global,
    ops: &Ops,
    layout: &Layout,
    v: VarId,
    domain: Ref,
) -> Result<Value, AllocError>
    requires known { v.0 < length layout.now.kinds }
    requires domain { IsDomain layout.now (table ops.now.arena) v domain }
    requires one { HasOneValue (values_in layout.now (table ops.now.arena) v domain) }
    ensures { IfOk result (λ x. values_in layout.now (table ops.now.arena) v domain x ≡ true) }
{
    let word = only_word(alloc, ops.pool().arena(), layout, v, domain)?;
    value_of(alloc, ops, layout, v, domain, &word)
}

/// The value that has the word, one of the domain's.
fn value_of(
    alloc: Global,
    ops: &Ops,
    layout: &Layout,
    v: VarId,
    domain: Ref,
    word: &Vec<bool>,
) -> Result<Value, AllocError>
    requires known { v.0 < length layout.now.kinds }
    requires domain { IsDomain layout.now (table ops.now.arena) v domain }
    requires word { IsWord (domain_words layout.now (table ops.now.arena) v domain) word.now.items }
    ensures { IfOk result (λ x. values_in layout.now (table ops.now.arena) v domain x ≡ true) }
{
    // What holds of every layout.
    layout.obeys_order();
    let found = layout.value_of(alloc, v, word.as_slice())?;
    match found {
        Some(value) => Ok(value),
        None => unreachable!(),
    }
}

/// The word of a domain of one value.
fn only_word(
    alloc: Global,
    arena: &Arena,
    layout: &Layout,
    v: VarId,
    domain: Ref,
) -> Result<Vec<bool>, AllocError>
    requires known { v.0 < length layout.now.kinds }
    requires domain { IsDomain layout.now (table arena.now) v domain }
    requires one { HasOneValue (values_in layout.now (table arena.now) v domain) }
    ensures { IfOk result (λ word. IsWord (domain_words layout.now (table arena.now) v domain) word.items) }
{
    // What holds of every layout and diagram.
    layout.obeys_order();
    arena.reaches_what_words_depend_on(domain);
    let found = single(alloc, arena, domain, bits_of(layout, v))?;
    match found {
        Some(word) => Ok(word),
        None => unreachable!(),
    }
}
