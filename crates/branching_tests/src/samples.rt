//! A set over 1 to 3, a Boolean, an integer with holes, and a set without elements to choose from, each with all its
//! initial values.
ghost use Rattle.std.specs.Prelude.{◌≡◌, ◌<◌, ◌++◌, ◌∷◌, [], IfOk, length};
ghost use Rattle.set_meaning.specs.declared.kinds.Kind.TheVariants as variants;
ghost use Rattle.set_meaning.specs.Sets.{ascending_set};
ghost use Rattle.bit_layout.specs.Limits.{AreWithinLimits};
ghost use Rattle.diagram_arena.specs.Arena.{table};
ghost use Rattle.node_reclaim.specs.Growth.{Stays};
ghost use Rattle.exact_steps.specs.Domains.{IsDomain, AreDomains};

use bit_layout::Layout;
use bit_machine::build;
use diagram_arena::{Ref, Stop};
use diagram_ops::Ops;
use listed::Listed;
use set_meaning::{Constraint, Goal, Kind, Problem, SetValue, Shown, Text, VarId};
use std::alloc::{AllocError, Global};
use table_machine::{TableMachine, values_fit_together};

fn ints(alloc: Global, numbers: &[i64]) -> Result<Kind, AllocError>
    ensures { IfOk result (λ kind. kind ≡ variants.Int (ascending_set numbers.now)) }
{
    Ok(Kind::Int(SetValue::from_list(alloc, numbers)?))
}

fn sets(alloc: Global, universe: &[i64]) -> Result<Kind, AllocError>
    ensures { IfOk result (λ kind. kind ≡ variants.Set (ascending_set universe.now)) }
{
    Ok(Kind::Set(SetValue::from_list(alloc, universe)?))
}

pub(crate) fn kinds(alloc: Global) -> Result<Vec<Kind>, AllocError>
    ensures { IfOk result (λ kinds. AreWithinLimits kinds.items) }
{
    let to_three = sets(alloc, [1, 2, 3].as_slice())?;
    let with_holes = ints(alloc, [9, -3, 5, 4].as_slice())?;
    let empty = sets(alloc, [].as_slice())?;
    let kinds = vec![in alloc; to_three, Kind::Bool, with_holes, empty]?;
    Ok(kinds)
}

pub(crate) fn problem(alloc: Global, kinds: Vec<Kind>) -> Problem
    ensures { result.kinds ≡ kinds.items }
{
    let names: Vec<Text> = Vec::new(alloc);
    let constraints: Vec<Constraint> = Vec::new(alloc);
    let shown: Vec<Shown> = Vec::new(alloc);
    Problem {
        kinds: Listed::of(kinds),
        names: Listed::of(names),
        constraints: Listed::of(constraints),
        goal: Goal::Satisfy,
        shown: Listed::of(shown),
    }
}

/// The domain of all initial values of the variable.
fn all_values(
    alloc: Global,
    ops: &mut Ops,
    layout: &Layout,
    kinds: &[Kind],
    v: VarId,
) -> Result<Ref, Stop>
    requires kinds { layout.now.kinds ≡ kinds.now }
    requires known { v.0 < length layout.now.kinds }
    ensures domain { IfOk result (IsDomain layout.now (table ops.new.arena) v) }
    ensures stays { Stays ops.old ops.new }
{
    // What holds of every layout and pool, and of values.
    layout.obeys_order();
    let _ = ops.pool();
    values_fit_together();
    let bits = layout.bits_of(v);
    if bits.len() > 2048 {
        return Err(Stop::Memory);
    }
    let machine = TableMachine::initial_values(alloc, layout, kinds, bits)?;
    build(alloc, ops, &machine, bits)
}

/// The domains of all initial values.
pub(crate) fn domains(
    alloc: Global,
    ops: &mut Ops,
    layout: &Layout,
    kinds: &[Kind],
) -> Result<Vec<Ref>, Stop>
    requires kinds { layout.now.kinds ≡ kinds.now }
    ensures { IfOk result (λ domains. AreDomains layout.now (table ops.new.arena) domains.items) }
{
    // There are few variables.
    layout.obeys_order();
    let mut domains = Vec::new(alloc);
    for i in 0..kinds.len() {
        let r = all_values(alloc, ops, layout, kinds, VarId(i as u32))?;
        push(&mut domains, r)?;
    }
    Ok(domains)
}

fn push(domains: &mut Vec<Ref>, r: Ref) -> Result<(), AllocError>
    ensures { IfOk result (λ _. domains.new.items ≡ domains.old.items ++ r ∷ []) }
{
    domains.push(r)?;
    Ok(())
}
