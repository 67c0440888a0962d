//! Small problems by hand.

ghost use Rattle.std.specs.Prelude.{◌≡◌, ◌==◌, ◌||◌, not, nat_lt, cond, slice_index};

use super::*;
use listed::Listed;
use plain_steps::{Set, Task, copied};
use std::alloc::{AllocError, Global};
use std::test::Fail;

/// Each constraint relates two variables: the first is less than the second, or they differ.
#[derive(Drop)]
struct Pairs {
    sets: Vec<Set>,
    firsts: Vec<usize>,
    seconds: Vec<usize>,
    less: bool,
}

impl Task for Pairs {
    ghost plain = { λ t. record {
      sets = t.sets.items;
      count = t.firsts.len;
      scope = λ c v. (v == slice_index t.firsts.items c) || (v == slice_index t.seconds.items c);
      holds = λ c a. cond t.less
          (nat_lt (a (slice_index t.firsts.items c)) (a (slice_index t.seconds.items c)))
          (not (a (slice_index t.firsts.items c) == a (slice_index t.seconds.items c)));
    } };

    fn sets(&self) -> &[Set] {
        &self.sets
    }

    fn count(&self) -> usize {
        self.firsts.len()
    }

    fn speaks_of(&self, constraint: usize, variable: usize) -> bool {
        variable == at(&self.firsts, constraint) || variable == at(&self.seconds, constraint)
    }

    fn holds(&self, constraint: usize, values: &[u32]) -> bool {
        let first = value_of(values, at(&self.firsts, constraint));
        let second = value_of(values, at(&self.seconds, constraint));
        if self.less {
            first < second
        } else {
            first != second
        }
    }
}

fn at(variables: &[usize], constraint: usize) -> usize
    ensures { result ≡ slice_index variables.now constraint }
{
    match variables.get(constraint) {
        Some(variable) => *variable,
        None => 0,
    }
}

fn value_of(values: &[u32], variable: usize) -> u32
    ensures { result ≡ slice_index values.now variable }
{
    match values.get(variable) {
        Some(value) => *value,
        None => 0,
    }
}

// Variables over 1 and 2, related in these pairs.
fn related(
    alloc: Global,
    variables: usize,
    firsts: &[usize],
    seconds: &[usize],
    less: bool,
) -> Result<Pairs, AllocError> {
    let mut sets = Vec::new(alloc);
    for _ in 0..variables {
        sets.push(copied(alloc, &[1, 2])?)?;
    }
    Ok(Pairs {
        sets,
        firsts: Vec::from_slice(alloc, firsts)?,
        seconds: Vec::from_slice(alloc, seconds)?,
        less,
    })
}

fn no_solution(outcome: &Outcome) -> bool {
    match &outcome.answer {
        Answer::NoSolution => true,
        Answer::Solution(_) => false,
    }
}

// x ≠ y. The first decision keeps 1 of x, and the step leaves 2 of y.
#[test]
fn two_that_differ_have_a_solution(rt: HostRuntime) -> Result<(), Fail> {
    let task = related(rt.alloc(), 2, &[0], &[1], false)?;
    let outcome = solve(rt.alloc(), &task)?;
    match &outcome.answer {
        Answer::Solution(values) => assert_eq!(rt; values.as_slice(), [1u32, 2].as_slice()),
        Answer::NoSolution => return Err(Fail::from("no solution")),
    }
    assert_eq!(rt; outcome.learned.len(), 0);
    Ok(())
}

// x < y and y < x. The first step leaves 1 of x and then 2 of y, which the second constraint does not allow. No decision
// was made, so nothing is learned.
#[test]
fn two_each_less_than_the_other_are_refuted_at_the_root(rt: HostRuntime) -> Result<(), Fail> {
    let task = related(rt.alloc(), 2, &[0, 1], &[1, 0], true)?;
    let outcome = solve(rt.alloc(), &task)?;
    assert!(rt; no_solution(&outcome));
    assert_eq!(rt; outcome.learned.len(), 0);
    Ok(())
}

// x ≠ y, x ≠ z and y ≠ z with two values. The first decision keeps 1 of x; the steps leave 2 of y and 2 of z, a conflict of
// the third constraint with the box y in {2}, z in {2}. Resolved with x in {1}, z in {1} on z: x in {1}, y in {2}; and with
// x in {1}, y in {1} on y: x in {1}. This stops at the decision and is learned. Back at level 0 it leaves 2 of x, and the
// steps leave 1 of y and 1 of z, a conflict without a decision.
#[test]
fn three_that_differ_are_refuted_after_learning(rt: HostRuntime) -> Result<(), Fail> {
    let task = related(rt.alloc(), 3, &[0, 0, 1], &[1, 2, 2], false)?;
    let outcome = solve(rt.alloc(), &task)?;
    assert!(rt; no_solution(&outcome));
    assert_eq!(rt; outcome.learned.len(), 1);
    assert_eq!(rt; outcome.learned[0].items().len(), 3);
    assert_eq!(rt; outcome.learned[0].items()[0].items(), [1u32].as_slice());
    assert_eq!(rt; outcome.learned[0].items()[1].items(), [2u32, 1].as_slice());
    assert_eq!(rt; outcome.learned[0].items()[2].items(), [2u32, 1].as_slice());
    Ok(())
}
