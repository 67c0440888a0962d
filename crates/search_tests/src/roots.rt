//! Root families of small problems. Bounds and numbers of nodes are worked out by hand, from the words of the values that are left.
ghost use Rattle.std.specs.Prelude.{◌≡◌, ◌<◌, ◌≤◌, false, IfOk};
ghost use Rattle.problem_limits.specs.Limits.{KeepsLimits};

use desk::{Desk, MemoryDesk};
use learn_search::{RootFound, Search, SearchEnd};
use listed::Listed;
use problem_limits::keeps_limits;
use refute_log::LogWriter;
use set_meaning::{
    Arg, Bounds, Constraint, Goal, Kind, Problem, Relation, SetValue, Shown, Term, Text, Value,
    VarId,
};
use std::alloc::{AllocError, Global};
use std::test::Fail;

/// An integer with these values.
pub(crate) fn ints(alloc: Global, numbers: &[i64]) -> Result<Kind, AllocError> {
    Ok(Kind::Int(SetValue::from_list(alloc, numbers)?))
}

/// A set over these elements.
pub(crate) fn sets(alloc: Global, universe: &[i64]) -> Result<Kind, AllocError> {
    Ok(Kind::Set(SetValue::from_list(alloc, universe)?))
}

/// So many variables of the kind.
fn times(alloc: Global, count: u32, numbers: &[i64]) -> Result<Vec<Kind>, AllocError> {
    let mut kinds = Vec::new(alloc);
    for _ in 0..count {
        kinds.push(ints(alloc, numbers)?)?;
    }
    Ok(kinds)
}

fn variable(number: u32) -> Arg {
    Arg::One(Term::Var(VarId(number)))
}

/// An array of integer constants.
fn numbers(alloc: Global, numbers: &[i64]) -> Result<Arg, AllocError> {
    let mut terms = Vec::new(alloc);
    for number in numbers {
        terms.push(Term::Const(Value::Int(*number)))?;
    }
    Ok(Arg::Many(Listed::of(terms)))
}

/// An array of variables.
fn variables(alloc: Global, numbers: &[u32]) -> Result<Arg, AllocError> {
    let mut terms = Vec::new(alloc);
    for number in numbers {
        terms.push(Term::Var(VarId(*number)))?;
    }
    Ok(Arg::Many(Listed::of(terms)))
}

/// An array of sets of one element each.
fn single_elements(alloc: Global, elements: &[i64]) -> Result<Arg, AllocError> {
    let mut terms = Vec::new(alloc);
    for element in elements {
        let set = SetValue::from_list(alloc, [*element].as_slice())?;
        terms.push(Term::Const(Value::Set(set)))?;
    }
    Ok(Arg::Many(Listed::of(terms)))
}

fn constraint(relation: Relation, args: Vec<Arg>) -> Constraint {
    Constraint {
        relation,
        args: Listed::of(args),
        reif: None,
    }
}

/// The relation of the two variables of each pair, in this order.
pub(crate) fn of_pairs(
    alloc: Global,
    relation: Relation,
    pairs: &[(u32, u32)],
) -> Result<Vec<Constraint>, AllocError> {
    let mut constraints = Vec::new(alloc);
    for (a, b) in pairs {
        let args = vec![in alloc; variable(*a), variable(*b)]?;
        constraints.push(constraint(relation, args))?;
    }
    Ok(constraints)
}

fn unnamed(alloc: Global, count: usize) -> Result<Vec<Text>, AllocError> {
    let mut names = Vec::new(alloc);
    for _ in 0..count {
        names.push(Listed::of(Vec::new(alloc)))?;
    }
    Ok(names)
}

pub(crate) fn problem(
    alloc: Global,
    kinds: Vec<Kind>,
    constraints: Vec<Constraint>,
) -> Result<Problem, AllocError> {
    let names = unnamed(alloc, kinds.len())?;
    let shown: Vec<Shown> = Vec::new(alloc);
    Ok(Problem {
        kinds: Listed::of(kinds),
        names: Listed::of(names),
        constraints: Listed::of(constraints),
        goal: Goal::Satisfy,
        shown: Listed::of(shown),
    })
}

/// A search with this limit of nodes, for a problem that keeps the limits.
fn search_in(
    alloc: Global,
    kinds: Vec<Kind>,
    constraints: Vec<Constraint>,
    nodes: u32,
) -> Result<Search, AllocError>
    requires some { 0 < nodes }
    requires most { nodes ≤ 20000000 }
    ensures unsearched { IfOk result (λ search. search.searched ≡ false) }
{
    let p = problem(alloc, kinds, constraints)?;
    if !keeps_limits(alloc, &p)? {
        return Err(AllocError);
    }
    match Search::new(alloc, p, nodes, None, LogWriter::off()) {
        Ok(search) => Ok(search),
        Err(_) => Err(AllocError),
    }
}

pub(crate) fn set_text(alloc: Global, set: &SetValue) -> Result<String, AllocError> {
    let mut text = String::new(alloc);
    text.push_str("{")?;
    for element in set.elements() {
        let part = format!(in alloc; "{element},")?;
        text.push_str(part.as_str())?;
    }
    text.push_str("}")?;
    Ok(text)
}

fn bounds_text(alloc: Global, bounds: &Bounds) -> Result<String, AllocError> {
    match bounds {
        Bounds::Bool(low, high) => Ok(format!(in alloc; "{low}..{high}")?),
        Bounds::Int(low, high) => Ok(format!(in alloc; "{low}..{high}")?),
        Bounds::Set(every, some) => {
            let every = set_text(alloc, every)?;
            let some = set_text(alloc, some)?;
            Ok(format!(in alloc; "{every}..{some}")?)
        }
    }
}

/// The bounds and the size of each variable.
fn rows_text(alloc: Global, rows: &[(Bounds, u64)]) -> Result<String, AllocError> {
    let mut text = String::new(alloc);
    for (bounds, nodes) in rows {
        let bounds = bounds_text(alloc, bounds)?;
        let part = format!(in alloc; "{bounds} {nodes}; ")?;
        text.push_str(part.as_str())?;
    }
    Ok(text)
}

/// What the search answers, over any desk, so that no test's proof carries what one desk tells.
fn answer<D: Desk>(alloc: Global, search: &mut Search, desk: &mut D) -> Result<String, AllocError>
    requires unsearched { search.old.searched ≡ false }
    ensures unsearched { search.new.searched ≡ false }
{
    match search.root(desk) {
        Ok(RootFound::Family(rows)) => rows_text(alloc, rows.as_slice()),
        Ok(RootFound::Unsatisfiable) => "unsatisfiable".to_string(alloc),
        Err(SearchEnd::Conflicts) => "conflicts".to_string(alloc),
        Err(SearchEnd::Nodes) => "nodes".to_string(alloc),
        Err(SearchEnd::Memory) => "memory".to_string(alloc),
        Err(SearchEnd::Ended) => "ended".to_string(alloc),
    }
}

/// The nodes that a search had and how many of its refs are pinned, where it ran out of nodes.
fn last<D: Desk>(alloc: Global, search: Search, desk: &mut D) -> Result<String, AllocError> {
    match search.stop(desk) {
        Ok(Some(last)) => {
            let nodes = last.pool.arena().len();
            let named = last.named.len();
            Ok(format!(in alloc; "{nodes} nodes, {named} pins")?)
        }
        Ok(None) => "nothing".to_string(alloc),
        Err(_) => "fault".to_string(alloc),
    }
}

/// What a search with ample nodes answers, twice.
fn root_of(
    alloc: Global,
    kinds: Vec<Kind>,
    constraints: Vec<Constraint>,
) -> Result<String, AllocError> {
    let mut desk = MemoryDesk::new(alloc);
    let mut search = search_in(alloc, kinds, constraints, 10_000)?;
    let first = answer(alloc, &mut search, &mut desk)?;
    let second = answer(alloc, &mut search, &mut desk)?;
    search.release();
    if first.as_str() == second.as_str() {
        Ok(first)
    } else {
        Ok(format!(in alloc; "first {first} and then {second}")?)
    }
}

/// A set over 1 to 3 and its size, which is 0 or 3.
pub(crate) fn sizes(alloc: Global) -> Result<(Vec<Kind>, Vec<Constraint>), AllocError> {
    let set = sets(alloc, [1, 2, 3].as_slice())?;
    let size = ints(alloc, [0, 3].as_slice())?;
    let kinds = vec![in alloc; set, size]?;
    let constraints = of_pairs(alloc, Relation::SetCard, [(0, 1)].as_slice())?;
    Ok((kinds, constraints))
}

#[test]
fn empty_and_whole_set(rt: HostRuntime) -> Result<(), Fail> {
    let (kinds, constraints) = sizes(rt.alloc())?;
    let root = root_of(rt.alloc(), kinds, constraints)?;
    assert_eq!(rt; root.as_str(), "{}..{1,2,3,} 5; 0..3 3; ");
    Ok(())
}

/// The first or the second of two sets of one element.
fn elements(alloc: Global) -> Result<(Vec<Kind>, Vec<Constraint>), AllocError> {
    let place = ints(alloc, [0, 1, 2, 3].as_slice())?;
    let set = sets(alloc, [1, 2].as_slice())?;
    let kinds = vec![in alloc; place, set]?;
    let among = single_elements(alloc, [1, 2].as_slice())?;
    let args = vec![in alloc; variable(0), among, variable(1)]?;
    let constraints = vec![in alloc; constraint(Relation::ArraySetElement, args)]?;
    Ok((kinds, constraints))
}

#[test]
fn one_of_two_sets(rt: HostRuntime) -> Result<(), Fail> {
    let (kinds, constraints) = elements(rt.alloc())?;
    let root = root_of(rt.alloc(), kinds, constraints)?;
    assert_eq!(rt; root.as_str(), "1..2 3; {}..{1,2,} 3; ");
    Ok(())
}

/// 2 a - b = 1, where a is from -2 to 3 and b from 0 to 4.
fn sums(alloc: Global) -> Result<(Vec<Kind>, Vec<Constraint>), AllocError> {
    let a = ints(alloc, [-2, -1, 0, 1, 2, 3].as_slice())?;
    let b = ints(alloc, [0, 1, 2, 3, 4].as_slice())?;
    let kinds = vec![in alloc; a, b]?;
    let factors = numbers(alloc, [2, -1].as_slice())?;
    let terms = variables(alloc, [0, 1].as_slice())?;
    let sum = Arg::One(Term::Const(Value::Int(1)));
    let args = vec![in alloc; factors, terms, sum]?;
    let constraints = vec![in alloc; constraint(Relation::IntLinEq, args)]?;
    Ok((kinds, constraints))
}

#[test]
fn two_solutions_of_a_sum(rt: HostRuntime) -> Result<(), Fail> {
    let (kinds, constraints) = sums(rt.alloc())?;
    let root = root_of(rt.alloc(), kinds, constraints)?;
    assert_eq!(rt; root.as_str(), "1..2 5; 1..3 2; ");
    Ok(())
}

/// That true is false, beside a variable.
fn false_alone(alloc: Global) -> Result<(Vec<Kind>, Vec<Constraint>), AllocError> {
    let yes = Arg::One(Term::Const(Value::Bool(true)));
    let no = Arg::One(Term::Const(Value::Bool(false)));
    let args = vec![in alloc; yes, no]?;
    let constraints = vec![in alloc; constraint(Relation::BoolEq, args)]?;
    let kinds = vec![in alloc; Kind::Bool]?;
    Ok((kinds, constraints))
}

#[test]
fn a_false_constraint_without_variables(rt: HostRuntime) -> Result<(), Fail> {
    let (kinds, constraints) = false_alone(rt.alloc())?;
    let root = root_of(rt.alloc(), kinds, constraints)?;
    assert_eq!(rt; root.as_str(), "unsatisfiable");
    Ok(())
}

/// A truth value that is true.
fn true_alone(alloc: Global) -> Result<(Vec<Kind>, Vec<Constraint>), AllocError> {
    let yes = Arg::One(Term::Const(Value::Bool(true)));
    let args = vec![in alloc; variable(0), yes]?;
    let constraints = vec![in alloc; constraint(Relation::BoolEq, args)]?;
    let kinds = vec![in alloc; Kind::Bool]?;
    Ok((kinds, constraints))
}

#[test]
fn a_truth_value_that_is_forced(rt: HostRuntime) -> Result<(), Fail> {
    let (kinds, constraints) = true_alone(rt.alloc())?;
    let root = root_of(rt.alloc(), kinds, constraints)?;
    assert_eq!(rt; root.as_str(), "true..true 1; ");
    Ok(())
}

/// A Boolean, 4 to 7, 4 and 6, 5 alone, a set over 1 to 3 and one over nothing. Where each word is that of a value there is no
/// node.
fn of_each_kind(alloc: Global) -> Result<Vec<Kind>, AllocError> {
    let four = ints(alloc, [4, 5, 6, 7].as_slice())?;
    let even = ints(alloc, [4, 6].as_slice())?;
    let one = ints(alloc, [5].as_slice())?;
    let set = sets(alloc, [1, 2, 3].as_slice())?;
    let empty = sets(alloc, [].as_slice())?;
    let kinds = vec![in alloc; Kind::Bool, four, even, one, set, empty]?;
    Ok(kinds)
}

#[test]
fn variables_in_no_constraint(rt: HostRuntime) -> Result<(), Fail> {
    let kinds = of_each_kind(rt.alloc())?;
    let root = root_of(rt.alloc(), kinds, Vec::new(rt.alloc()))?;
    assert_eq!(rt;
        root.as_str(),
        "false..true 0; 4..7 0; 4..6 1; 5..5 0; {}..{1,2,3,} 0; {}..{} 0; "
    );
    Ok(())
}

/// Variables from 1 to 4, the relations of a chain in the order in which each but the last is taken too early.
fn ascending(alloc: Global, count: u32, pairs: &[(u32, u32)]) -> Result<String, AllocError> {
    let kinds = times(alloc, count, [1, 2, 3, 4].as_slice())?;
    let constraints = of_pairs(alloc, Relation::IntLt, pairs)?;
    root_of(alloc, kinds, constraints)
}

#[test]
fn a_chain_takes_rounds(rt: HostRuntime) -> Result<(), Fail> {
    let chain = ascending(rt.alloc(), 4, [(2, 3), (1, 2), (0, 1)].as_slice())?;
    assert_eq!(rt; chain.as_str(), "1..1 2; 2..2 2; 3..3 2; 4..4 2; ");
    let ring = ascending(rt.alloc(), 3, [(2, 0), (1, 2), (0, 1)].as_slice())?;
    assert_eq!(rt; ring.as_str(), "unsatisfiable");
    Ok(())
}

/// Three truth values of which no two are the same: there is no solution, but each constraint alone leaves both values everywhere.
#[test]
fn a_root_family_without_a_solution(rt: HostRuntime) -> Result<(), Fail> {
    let alloc = rt.alloc();
    let kinds = vec![in alloc; Kind::Bool, Kind::Bool, Kind::Bool]?;
    let constraints = of_pairs(
        alloc,
        Relation::BoolNot,
        [(0, 1), (1, 2), (0, 2)].as_slice(),
    )?;
    let root = root_of(alloc, kinds, constraints)?;
    assert_eq!(rt;
        root.as_str(),
        "false..true 0; false..true 0; false..true 0; "
    );
    Ok(())
}

/// What a search with these nodes answers, what it answers next, and what it leaves.
fn ends_with(alloc: Global, nodes: u32) -> Result<String, AllocError>
    requires some { 0 < nodes }
    requires most { nodes ≤ 20000000 }
{
    let mut desk = MemoryDesk::new(alloc);
    let (kinds, constraints) = sizes(alloc)?;
    let mut search = search_in(alloc, kinds, constraints, nodes)?;
    let first = answer(alloc, &mut search, &mut desk)?;
    let second = answer(alloc, &mut search, &mut desk)?;
    let last = last(alloc, search, &mut desk)?;
    Ok(format!(in alloc; "{first}, {second}, {last}")?)
}

/// The domain of 0 and 3 has the words 00 and 11, and so three nodes. The set's domain has none.
#[test]
fn nodes_run_out(rt: HostRuntime) -> Result<(), Fail> {
    let at_start = ends_with(rt.alloc(), 2)?;
    assert_eq!(rt; at_start.as_str(), "nodes, ended, 2 nodes, 0 pins");
    let after_start = ends_with(rt.alloc(), 3)?;
    assert_eq!(rt; after_start.as_str(), "nodes, ended, 3 nodes, 1 pins");
    let found = "{}..{1,2,3,} 5; 0..3 3; ";
    let ample = ends_with(rt.alloc(), 1_000)?;
    let expected = format!(in rt.alloc(); "{found}, {found}, nothing")?;
    assert_eq!(rt; ample.as_str(), expected.as_str());
    Ok(())
}

#[test]
fn a_search_keeps_its_problem(rt: HostRuntime) -> Result<(), Fail> {
    let (kinds, constraints) = sizes(rt.alloc())?;
    let search = search_in(rt.alloc(), kinds, constraints, 1)?;
    assert_eq!(rt; search.problem().kinds.items().len(), 2);
    search.release();
    Ok(())
}
