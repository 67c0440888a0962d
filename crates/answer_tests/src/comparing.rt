//! Each model's answers against its solutions.
use crate::models::model;
use crate::searching::{Answers, first_answers, printed};
use crate::trying::{choices, number_of, solutions};
use fzn_model::read_problem;
use fzn_printer::{UNSATISFIABLE, block};
use set_meaning::{Problem, Value};
use std::alloc::{AllocError, Global};
use std::test::Fail;

/// How many answers are asked for.
const MOST: usize = 30;

/// Strikes the answer from the solutions that are left; false where it is not among them.
fn strike(left: &mut Vec<bool>, choices: &[Vec<Value>], values: &[Value]) -> bool {
    match number_of(choices, values) {
        Some(number) => match left.get_mut(number) {
            Some(is_left) => {
                let was = *is_left;
                *is_left = false;
                was
            }
            None => false,
        },
        None => false,
    }
}

/// What is wrong of the answers: each is to be a solution, no two are to be the same, and where they are all, no
/// solution is to be left.
fn fault_of_answers(
    alloc: Global,
    p: &Problem,
    answers: &Answers,
) -> Result<&'static str, AllocError> {
    let choices = choices(alloc, p)?;
    let mut left = solutions(alloc, p, choices.as_slice())?;
    for values in &answers.given {
        if !strike(&mut left, choices.as_slice(), values.as_slice()) {
            return Ok("an answer is no solution, or was given before");
        }
    }
    let some = left.iter().any(|is_left| *is_left);
    if answers.complete && some {
        return Ok("a solution is missing");
    }
    Ok("")
}

/// What a run is to print: its first answer, or that there is none.
fn expected(alloc: Global, p: &Problem, answers: &Answers) -> Result<Vec<u8>, AllocError> {
    match answers.given.first() {
        Some(values) => block(alloc, p, values.as_slice()),
        None => Vec::from_slice(alloc, UNSATISFIABLE),
    }
}

/// What is wrong of the search and of the run of the model; nothing, for the most part.
fn fault_of(alloc: Global, text: &[u8]) -> Result<&'static str, AllocError> {
    let Ok(p) = read_problem(alloc, text) else {
        return Ok("no problem");
    };
    let Ok(again) = read_problem(alloc, text) else {
        return Ok("no problem");
    };
    let answers = first_answers(alloc, again, MOST)?;
    let fault = fault_of_answers(alloc, &p, &answers)?;
    if !fault.is_empty() {
        return Ok(fault);
    }
    let wanted = expected(alloc, &p, &answers)?;
    let printed = printed(alloc, text)?;
    if printed.as_slice() == wanted.as_slice() {
        Ok("")
    } else {
        Ok("something else is printed")
    }
}

/// The first model from this seed on of which something is wrong, and what that is; an empty text where all is right.
fn first_fault(alloc: Global, from: u64, count: u64) -> Result<String, AllocError> {
    for more in 0..count {
        let seed = from.saturating_add(more);
        let text = model(alloc, seed)?;
        let fault = fault_of(alloc, text.as_bytes())?;
        if !fault.is_empty() {
            return Ok(format!(in alloc; "seed {seed}: {fault}\n{text}")?);
        }
    }
    Ok(String::new(alloc))
}

#[test]
fn models_1_to_1000(rt: HostRuntime) -> Result<(), Fail> {
    let fault = first_fault(rt.alloc(), 1, 1_000)?;
    assert_eq!(rt; fault.as_str(), "");
    Ok(())
}

#[test]
fn models_1001_to_2000(rt: HostRuntime) -> Result<(), Fail> {
    let fault = first_fault(rt.alloc(), 1_001, 1_000)?;
    assert_eq!(rt; fault.as_str(), "");
    Ok(())
}

#[test]
fn models_2001_to_3000(rt: HostRuntime) -> Result<(), Fail> {
    let fault = first_fault(rt.alloc(), 2_001, 1_000)?;
    assert_eq!(rt; fault.as_str(), "");
    Ok(())
}

#[test]
fn models_3001_to_4000(rt: HostRuntime) -> Result<(), Fail> {
    let fault = first_fault(rt.alloc(), 3_001, 1_000)?;
    assert_eq!(rt; fault.as_str(), "");
    Ok(())
}

#[test]
fn models_4001_to_5000(rt: HostRuntime) -> Result<(), Fail> {
    let fault = first_fault(rt.alloc(), 4_001, 1_000)?;
    assert_eq!(rt; fault.as_str(), "");
    Ok(())
}
