//! Two variables over 1 and 2, the first less than the second.

ghost use Rattle.std.specs.Prelude.{◌≡◌, nat_lt, length, slice_index, IfOk};

use super::*;
use listed::Listed;
use std::alloc::{AllocError, Global};
use std::test::Fail;

#[derive(Drop)]
struct Less {
    sets: Vec<Set>,
}

impl Task for Less {
    ghost plain = { λ t. record { sets = t.sets.items; count = 1; scope = λ c v. nat_lt v 2; holds = λ c a. nat_lt (a 0) (a 1) } };

    fn sets(&self) -> &[Set] {
        &self.sets
    }

    fn count(&self) -> usize {
        1
    }

    fn speaks_of(&self, _constraint: usize, variable: usize) -> bool {
        variable < 2
    }

    fn holds(&self, _constraint: usize, values: &[u32]) -> bool {
        value_of(values, 0) < value_of(values, 1)
    }
}

fn value_of(values: &[u32], variable: usize) -> u32
    ensures { result ≡ slice_index values.now variable }
{
    match values.get(variable) {
        Some(value) => *value,
        None => 0,
    }
}

fn sets_of(alloc: Global, first: &[u32], second: &[u32]) -> Result<Vec<Set>, AllocError>
    ensures { IfOk result (λ v. length v.items ≡ 2) }
{
    let mut sets = Vec::new(alloc);
    sets.push(copied(alloc, first)?)?;
    sets.push(copied(alloc, second)?)?;
    Ok(sets)
}

// Less than 2 there is only 1, so the step of `first < second` keeps 1 of the first variable.
#[test]
fn step_keeps_what_extends(rt: HostRuntime) -> Result<(), Fail> {
    let task = Less {
        sets: sets_of(rt.alloc(), &[1, 2], &[1, 2])?,
    };
    assert!(rt; satisfiable(rt.alloc(), &task, 0, task.sets())?);
    match step_of(rt.alloc(), &task, 0, task.sets())? {
        Step::Narrowed(variable, kept) => {
            assert_eq!(rt; variable, 0);
            assert_eq!(rt; kept.items(), [1u32].as_slice());
        }
        _ => return Err(Fail::from("not narrowed")),
    }
    Ok(())
}

// Only the first set leaves the box with the sides {1} and {1,2}: what is outside its side stays.
#[test]
fn box_step_keeps_what_is_outside(rt: HostRuntime) -> Result<(), Fail> {
    let family = sets_of(rt.alloc(), &[1, 2], &[1, 2])?;
    let sides = sets_of(rt.alloc(), &[1], &[1, 2])?;
    match box_step(rt.alloc(), &sides, &family)? {
        Step::Narrowed(variable, kept) => {
            assert_eq!(rt; variable, 0);
            assert_eq!(rt; kept.items(), [2u32].as_slice());
        }
        _ => return Err(Fail::from("not narrowed")),
    }
    Ok(())
}
