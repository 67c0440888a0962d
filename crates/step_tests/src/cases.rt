//! Problems in a short form, and their steps, for tests.
ghost use Rattle.std.specs.Prelude.{◌≡◌, ◌<◌, length, Contains, IfOk, OnOk};
ghost use Rattle.set_meaning.specs.declared.problems.VarId.{VarId as Variable};
ghost use Rattle.diagram_arena.specs.declared.nodes.Ref.{Ref as AnyRef};
ghost use Rattle.diagram_arena.specs.Arena.{table};
ghost use Rattle.node_reclaim.specs.Growth.{Stays};
ghost use Rattle.exact_steps.specs.Domains.{IsDomain, AreDomains};
ghost use Rattle.propagators.specs.Compiled.{IsCompiled};

use bit_layout::Layout;
use diagram_arena::{Ref, Stop};
use diagram_ops::Ops;
use exact_steps::{StepResult, domains_stay_as_tables_grow, narrowed_domains};
use listed::Listed;
use propagators::{Compiled, step};
use set_meaning::{
    Arg, ConId, Constraint, Goal, Kind, Problem, Relation, SetValue, Shown, Term, Value, VarId,
};
use std::alloc::{AllocError, Global};

/// A term in a table of cases; a set is that of no element, or of two, which may be one.
#[derive(Clone, Copy)]
pub(crate) enum Given {
    Variable(u32),
    Truth(bool),
    Number(i64),
    Nothing,
    Elements(i64, i64),
}

/// An argument in a table of cases: none, one term, or an array of none, of two or of three.
#[derive(Clone, Copy)]
pub(crate) enum Argument {
    Absent,
    One(Given),
    Empty,
    Two(Given, Given),
    Three(Given, Given, Given),
}

/// A constraint in a table of cases: a relation, its arguments, and the truth value that it names.
pub(crate) type Case = (Relation, [Argument; 3], Option<Given>);

pub(crate) fn ints(alloc: Global, numbers: &[i64]) -> Result<Kind, AllocError> {
    Ok(Kind::Int(SetValue::from_list(alloc, numbers)?))
}

pub(crate) fn sets(alloc: Global, universe: &[i64]) -> Result<Kind, AllocError> {
    Ok(Kind::Set(SetValue::from_list(alloc, universe)?))
}

fn set(alloc: Global, elements: &[i64]) -> Result<Term, AllocError> {
    Ok(Term::Const(Value::Set(SetValue::from_list(alloc, elements)?)))
}

fn term(alloc: Global, given: Given) -> Result<Term, AllocError> {
    match given {
        Given::Variable(v) => Ok(Term::Var(VarId(v))),
        Given::Truth(b) => Ok(Term::Const(Value::Bool(b))),
        Given::Number(x) => Ok(Term::Const(Value::Int(x))),
        Given::Nothing => set(alloc, &[]),
        Given::Elements(first, second) => set(alloc, &[first, second]),
    }
}

fn many(alloc: Global, terms: &[Given]) -> Result<Arg, AllocError> {
    let mut items = Vec::new(alloc);
    for given in terms {
        items.push(term(alloc, *given)?)?;
    }
    Ok(Arg::Many(Listed::of(items)))
}

fn arg(alloc: Global, argument: Argument) -> Result<Option<Arg>, AllocError> {
    match argument {
        Argument::Absent => Ok(None),
        Argument::One(given) => Ok(Some(Arg::One(term(alloc, given)?))),
        Argument::Empty => Ok(Some(many(alloc, &[])?)),
        Argument::Two(first, second) => Ok(Some(many(alloc, &[first, second])?)),
        Argument::Three(first, second, third) => Ok(Some(many(alloc, &[first, second, third])?)),
    }
}

fn truth(alloc: Global, given: Option<Given>) -> Result<Option<Term>, AllocError> {
    match given {
        Some(given) => Ok(Some(term(alloc, given)?)),
        None => Ok(None),
    }
}

fn constraint(alloc: Global, case: Case) -> Result<Constraint, AllocError> {
    let (relation, arguments, given) = case;
    let mut args = Vec::new(alloc);
    for argument in &arguments {
        if let Some(arg) = arg(alloc, *argument)? {
            args.push(arg)?;
        }
    }
    Ok(Constraint {
        relation,
        args: Listed::of(args),
        reif: truth(alloc, given)?,
    })
}

/// The problem of these kinds with the constraints of the cases.
pub(crate) fn problem(
    alloc: Global,
    kinds: Vec<Kind>,
    cases: &[Case],
) -> Result<Problem, AllocError> {
    let mut names = Vec::new(alloc);
    for _ in 0..kinds.len() {
        names.push(Listed::of(Vec::new(alloc)))?;
    }
    let mut constraints = Vec::new(alloc);
    for case in cases {
        constraints.push(constraint(alloc, *case)?)?;
    }
    let shown: Vec<Shown> = Vec::new(alloc);
    Ok(Problem {
        kinds: Listed::of(kinds),
        names: Listed::of(names),
        constraints: Listed::of(constraints),
        goal: Goal::Satisfy,
        shown: Listed::of(shown),
    })
}

/// Takes the step of a constraint: the domains are those after it. So many are new; None where no values satisfy the constraint, and the
/// domains are as before.
pub(crate) fn narrow(
    alloc: Global,
    ops: &mut Ops,
    layout: &Layout,
    p: &Problem,
    compiled: &Compiled,
    c: ConId,
    domains: &mut Vec<Ref>,
) -> Result<Option<usize>, Stop>
    requires compiled { IsCompiled layout.now p.now (table ops.old.arena) compiled.now }
    requires number { c.0 < length p.now.constraints }
    requires domains { AreDomains layout.now (table ops.old.arena) domains.old.items }
    ensures stays { Stays ops.old ops.new }
    ensures domains { OnOk result (AreDomains layout.now (table ops.new.arena) domains.new.items) }
{
    domains_stay_as_tables_grow();
    match step(alloc, ops, layout, compiled, c, domains.as_slice())? {
        StepResult::Same => Ok(Some(0)),
        StepResult::Narrowed(kept) => {
            put_all(ops, layout, domains, kept.as_slice());
            Ok(Some(kept.len()))
        }
        StepResult::Empty => Ok(None),
    }
}

/// Puts each new domain at its variable's place.
fn put_all(ops: &Ops, layout: &Layout, domains: &mut Vec<Ref>, kept: &[(VarId, Ref)])
    requires kept { (v : Variable) (r : AnyRef) → Contains {X = Variable × AnyRef} kept.now (v, r) → IsDomain layout.now (table ops.now.arena) v r }
    requires domains { AreDomains layout.now (table ops.now.arena) domains.old.items }
    ensures { AreDomains layout.now (table ops.now.arena) domains.new.items }
{
    for (v, r) in kept {
        put(ops, layout, domains, *v, *r);
    }
}

fn put(ops: &Ops, layout: &Layout, domains: &mut Vec<Ref>, v: VarId, r: Ref)
    requires domain { IsDomain layout.now (table ops.now.arena) v r }
    requires domains { AreDomains layout.now (table ops.now.arena) domains.old.items }
    ensures { AreDomains layout.now (table ops.now.arena) domains.new.items }
{
    // What holds of every layout and pool.
    layout.obeys_order();
    let _ = ops.pool();
    narrowed_domains();
    if (v.0 as usize) < domains.len() {
        domains[v.0 as usize] = r;
    }
}
