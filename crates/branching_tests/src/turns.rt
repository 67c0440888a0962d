//! Decisions, one after another, until each domain has one value, and these values.
ghost use Rattle.std.specs.Prelude.{◌≡◌, ◌<◌, IfOk, IfNone, Some, length, slice_get, slice_set};
ghost use Rattle.diagram_arena.specs.Arena.{table};
ghost use Rattle.exact_steps.specs.Domains.{AreDomains, family};
ghost use Rattle.branching.specs.Decisions.{HaveOneValueBelow};

use crate::samples::{domains, kinds, problem};
use bit_layout::Layout;
use branching::{decision, single_values};
use diagram_arena::{Ref, Stop};
use diagram_ops::Ops;
use exact_steps::{domains_stay_as_tables_grow, narrowed_domains};
use set_meaning::{Bounds, Problem, Value, VarId};
use std::alloc::Global;
use std::test::Fail;
use value_bounds::root_bounds;

/// Takes the next decision: the variable, or None where each domain has one value.
fn next(ops: &mut Ops, layout: &Layout, domains: &mut Vec<Ref>) -> Result<Option<VarId>, Stop>
    requires { AreDomains layout.now (table ops.old.arena) domains.old.items }
    ensures domains { IfOk result (λ _. AreDomains layout.now (table ops.new.arena) domains.new.items) }
    ensures none { let f = family layout.now (table ops.new.arena) domains.new.items in
        IfOk result (λ found. IfNone found (HaveOneValueBelow (length layout.now.kinds) f)) }
{
    // What holds of domains in a table that grows.
    narrowed_domains();
    domains_stay_as_tables_grow();
    let found = decision(ops, layout, domains.as_slice(), 0)?;
    match found {
        None => Ok(None),
        Some(taken) => {
            put(domains, taken.0, taken.1);
            Ok(Some(taken.0))
        }
    }
}

/// Puts a new domain of the variable in place.
fn put(domains: &mut Vec<Ref>, v: VarId, r: Ref)
    requires { v.0 < length domains.old.items }
    ensures { domains.new.items ≡ slice_set domains.old.items v.0 r }
{
    domains[v.0 as usize] = r;
}

/// The domain of a variable.
fn domain_of(domains: &[Ref], v: VarId) -> Ref
    requires { v.0 < length domains.now }
    ensures { slice_get domains.now v.0 ≡ Some result }
{
    domains[v.0 as usize]
}

/// The variable of each decision with the bounds of its new domain, and the values at the end.
fn turns(alloc: Global) -> Result<String, Fail> {
    let p = problem(alloc, kinds(alloc)?);
    let layout = Layout::new(alloc, &p)?;
    let mut ops = Ops::new(alloc, 100, 1)?;
    let own = domains(alloc, &mut ops, &layout, p.kinds.items())?;
    turns_from(alloc, &mut ops, &layout, &p, own)
}

fn turns_from(
    alloc: Global,
    ops: &mut Ops,
    layout: &Layout,
    p: &Problem,
    own: Vec<Ref>,
) -> Result<String, Fail>
    requires layout { layout.now.kinds ≡ p.now.kinds }
    requires domains { AreDomains layout.now (table ops.old.arena) own.items }
{
    let mut own = own;
    let mut text = String::new(alloc);
    for _ in 0..9 {
        match next(ops, layout, &mut own)? {
            Some(v) => {
                let bounds = bounds_at(alloc, ops, layout, p, own.as_slice(), v)?;
                add(alloc, &mut text, v, bounds.as_str())?;
            }
            None => {
                let values = single_values(alloc, ops, layout, own.as_slice())?;
                add_values(alloc, &mut text, values.as_slice())?;
                return Ok(text);
            }
        }
    }
    Ok(text)
}

/// The bounds of a variable's domain.
fn bounds_at(
    alloc: Global,
    ops: &Ops,
    layout: &Layout,
    p: &Problem,
    domains: &[Ref],
    v: VarId,
) -> Result<String, Fail>
    requires layout { layout.now.kinds ≡ p.now.kinds }
    requires domains { AreDomains layout.now (table ops.now.arena) domains.now }
{
    if v.0 as usize >= domains.len() {
        return Ok(String::new(alloc));
    }
    let domain = domain_of(domains, v);
    let bounds = root_bounds(alloc, ops, layout, p, v, domain)?;
    match &bounds {
        Bounds::Bool(low, high) => Ok(format!(in alloc; "{low} {high}")?),
        Bounds::Int(low, high) => Ok(format!(in alloc; "{low} {high}")?),
        Bounds::Set(every, some) => {
            let every = listed(alloc, every.elements())?;
            let some = listed(alloc, some.elements())?;
            Ok(format!(in alloc; "{every} {some}")?)
        }
    }
}

fn listed(alloc: Global, elements: &[i64]) -> Result<String, Fail> {
    let mut text = String::new(alloc);
    text.push_str("{")?;
    for x in elements {
        let part = format!(in alloc; "{x},")?;
        text.push_str(part.as_str())?;
    }
    text.push_str("}")?;
    Ok(text)
}

fn add(alloc: Global, text: &mut String, v: VarId, bounds: &str) -> Result<(), Fail> {
    let number = v.0;
    let part = format!(in alloc; "{number}: {bounds}; ")?;
    text.push_str(part.as_str())?;
    Ok(())
}

fn add_values(alloc: Global, text: &mut String, values: &[Value]) -> Result<(), Fail> {
    for value in values {
        let part = text_of(alloc, value)?;
        text.push_str(part.as_str())?;
    }
    Ok(())
}

fn text_of(alloc: Global, value: &Value) -> Result<String, Fail> {
    match value {
        Value::Bool(b) => Ok(format!(in alloc; "{b} ")?),
        Value::Int(x) => Ok(format!(in alloc; "{x} ")?),
        Value::Set(set) => listed(alloc, set.elements()),
    }
}

#[test]
fn decisions_by_hand(rt: HostRuntime) -> Result<(), Fail> {
    let text = turns(rt.alloc())?;
    assert_eq!(rt;
        text.as_str(),
        "0: {1,} {1,2,3,}; 0: {1,2,} {1,2,3,}; 0: {1,2,3,} {1,2,3,}; 1: true true; 2: 5 9; 2: 9 9; {1,2,3,}true 9 {}",
    );
    Ok(())
}
