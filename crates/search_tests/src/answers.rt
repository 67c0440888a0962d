//! Answers of small problems, one after another. They are worked out by hand: the first variable with more than one
//! value is decided, with a true bit first. A Boolean is one bit, a set has one an element, and an integer those of its
//! distance from its least value.
ghost use Rattle.std.specs.Prelude.{◌≡◌, ◌↔◌, ◌<◌, ◌≤◌, IsTrue, IfSome};
ghost use Rattle.set_meaning.specs.declared.problems.Goal.TheVariants as goal;

use crate::roots::{ints, of_pairs, problem, set_text, sizes};
use desk::{Desk, MemoryDesk};
use learn_search::{Found, Search, SearchEnd};
use problem_limits::keeps_limits;
use refute_log::LogWriter;
use set_meaning::{Constraint, Goal, Kind, Problem, Relation, Value};
use std::alloc::{AllocError, Global};
use std::test::Fail;

fn value_text(alloc: Global, value: &Value) -> Result<String, AllocError> {
    match value {
        Value::Bool(truth) => Ok(format!(in alloc; "{truth}")?),
        Value::Int(number) => Ok(format!(in alloc; "{number}")?),
        Value::Set(set) => set_text(alloc, set),
    }
}

/// The values with a blank after each.
fn values_text(alloc: Global, values: &[Value]) -> Result<String, AllocError> {
    let mut text = String::new(alloc);
    for value in values {
        let part = value_text(alloc, value)?;
        text.push_str(part.as_str())?;
        text.push_str(" ")?;
    }
    Ok(text)
}

fn end_text(end: SearchEnd) -> &'static str {
    match end {
        SearchEnd::Conflicts => "conflicts",
        SearchEnd::Nodes => "nodes",
        SearchEnd::Memory => "memory",
        SearchEnd::Ended => "ended",
    }
}

fn asks_for_solutions(p: &Problem) -> bool
    ensures { IsTrue result ↔ (p.now.goal ≡ goal.Satisfy) }
{
    match p.goal {
        Goal::Satisfy => true,
        Goal::Minimize(_) => false,
        Goal::Maximize(_) => false,
    }
}

/// What the search answers to one call.
fn found<D: Desk>(alloc: Global, search: &mut Search, desk: &mut D) -> Result<String, AllocError> {
    if !asks_for_solutions(search.problem()) {
        return Err(AllocError);
    }
    match search.next(desk) {
        Ok(Found::Answer(values)) => values_text(alloc, values.as_slice()),
        Ok(Found::Complete) => "complete".to_string(alloc),
        Err(end) => end_text(end).to_string(alloc),
    }
}

/// What it answers to so many calls.
fn told<D: Desk>(
    alloc: Global,
    search: &mut Search,
    desk: &mut D,
    calls: u32,
) -> Result<String, AllocError> {
    let mut text = String::new(alloc);
    for _ in 0..calls {
        let part = found(alloc, search, desk)?;
        text.push_str(part.as_str())?;
        text.push_str("; ")?;
    }
    Ok(text)
}

/// What a search of these limits answers to so many calls, and the number of nodes that `stop` hands out.
fn answers_within(
    alloc: Global,
    kinds: Vec<Kind>,
    constraints: Vec<Constraint>,
    nodes: u32,
    conflicts: Option<u64>,
    calls: u32,
) -> Result<String, AllocError>
    requires some { 0 < nodes }
    requires most { nodes ≤ 20000000 }
    requires conflicts { IfSome conflicts (λ n. 0 < n) }
{
    let p = problem(alloc, kinds, constraints)?;
    if !keeps_limits(alloc, &p)? {
        return Err(AllocError);
    }
    let mut desk = MemoryDesk::new(alloc);
    match Search::new(alloc, p, nodes, conflicts, LogWriter::off()) {
        Ok(search) => {
            let mut search = search;
            let text = told(alloc, &mut search, &mut desk, calls)?;
            match search.stop(&mut desk) {
                Ok(Some(last)) => {
                    let nodes = last.pool.arena().len();
                    Ok(format!(in alloc; "{text}{nodes} nodes")?)
                }
                Ok(None) => Ok(text),
                Err(_) => "fault".to_string(alloc),
            }
        }
        Err(_) => Err(AllocError),
    }
}

fn answers(
    alloc: Global,
    kinds: Vec<Kind>,
    constraints: Vec<Constraint>,
    calls: u32,
) -> Result<String, AllocError> {
    answers_within(alloc, kinds, constraints, 10_000, None, calls)
}

/// Truth values of which no two of a pair are the same.
fn unlike(
    alloc: Global,
    count: u32,
    pairs: &[(u32, u32)],
) -> Result<(Vec<Kind>, Vec<Constraint>), AllocError> {
    let mut kinds = Vec::new(alloc);
    for _ in 0..count {
        kinds.push(Kind::Bool)?;
    }
    let constraints = of_pairs(alloc, Relation::BoolNot, pairs)?;
    Ok((kinds, constraints))
}

#[test]
fn two_unlike_truth_values(rt: HostRuntime) -> Result<(), Fail> {
    let (kinds, constraints) = unlike(rt.alloc(), 2, [(0, 1)].as_slice())?;
    let text = answers(rt.alloc(), kinds, constraints, 4)?;
    assert_eq!(rt;
        text.as_str(),
        "true false ; false true ; complete; complete; "
    );
    Ok(())
}

#[test]
fn both_sets_and_their_sizes(rt: HostRuntime) -> Result<(), Fail> {
    let (kinds, constraints) = sizes(rt.alloc())?;
    let text = answers(rt.alloc(), kinds, constraints, 3)?;
    assert_eq!(rt; text.as_str(), "{1,2,3,} 3 ; {} 0 ; complete; ");
    Ok(())
}

/// Two integers from 1 to 3, the first below the second.
#[test]
fn ascending_pairs(rt: HostRuntime) -> Result<(), Fail> {
    let alloc = rt.alloc();
    let low = ints(alloc, [1, 2, 3].as_slice())?;
    let high = ints(alloc, [1, 2, 3].as_slice())?;
    let kinds = vec![in alloc; low, high]?;
    let constraints = of_pairs(alloc, Relation::IntLt, [(0, 1)].as_slice())?;
    let text = answers(alloc, kinds, constraints, 4)?;
    assert_eq!(rt; text.as_str(), "2 3 ; 1 3 ; 1 2 ; complete; ");
    Ok(())
}

#[test]
fn every_truth_value(rt: HostRuntime) -> Result<(), Fail> {
    let kinds = vec![in rt.alloc(); Kind::Bool]?;
    let text = answers(rt.alloc(), kinds, Vec::new(rt.alloc()), 3)?;
    assert_eq!(rt; text.as_str(), "true ; false ; complete; ");
    let none = answers(rt.alloc(), Vec::new(rt.alloc()), Vec::new(rt.alloc()), 2)?;
    assert_eq!(rt; none.as_str(), "; complete; ");
    Ok(())
}

/// Three truth values of which no two are the same have no solution. The first decision leads to a conflict, from which
/// one box is learned, and what is left then leads to a conflict before any decision.
#[test]
fn one_conflict_before_the_end(rt: HostRuntime) -> Result<(), Fail> {
    let pairs = [(0, 1), (1, 2), (0, 2)];
    let (kinds, constraints) = unlike(rt.alloc(), 3, pairs.as_slice())?;
    let stopped = answers_within(rt.alloc(), kinds, constraints, 10_000, Some(1), 2)?;
    assert_eq!(rt; stopped.as_str(), "conflicts; ended; ");
    let (kinds, constraints) = unlike(rt.alloc(), 3, pairs.as_slice())?;
    let ended = answers_within(rt.alloc(), kinds, constraints, 10_000, Some(2), 2)?;
    assert_eq!(rt; ended.as_str(), "complete; complete; ");
    Ok(())
}

/// The domain of the sizes 0 and 3 takes three nodes.
#[test]
fn nodes_run_out_at_the_start(rt: HostRuntime) -> Result<(), Fail> {
    let (kinds, constraints) = sizes(rt.alloc())?;
    let text = answers_within(rt.alloc(), kinds, constraints, 2, None, 2)?;
    assert_eq!(rt; text.as_str(), "nodes; ended; 2 nodes");
    Ok(())
}
