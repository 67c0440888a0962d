//! All assignments of a problem, one after another.
use set_meaning::{Problem, Value, initial_values, is_solution};
use std::alloc::{AllocError, Global};

/// The initial values of each variable.
pub(crate) fn choices(alloc: Global, p: &Problem) -> Result<Vec<Vec<Value>>, AllocError> {
    let mut choices = Vec::new(alloc);
    for kind in p.kinds.items() {
        choices.push(initial_values(alloc, kind)?)?;
    }
    Ok(choices)
}

/// How many assignments there are; 0 stands for very many.
pub(crate) fn count_of(choices: &[Vec<Value>]) -> usize {
    let mut count: usize = 1;
    for values in choices {
        match count.checked_mul(values.len()) {
            Some(more) => count = more,
            None => return 0,
        }
    }
    count
}

/// The assignment of this number, with the first variable slowest.
fn assignment(
    alloc: Global,
    choices: &[Vec<Value>],
    number: usize,
) -> Result<Vec<Value>, AllocError> {
    let mut left = number;
    let mut values = Vec::new(alloc);
    for offered in choices.iter().rev() {
        let count = offered.len();
        if count > 0 {
            values.push(offered[left % count].copy(alloc)?)?;
            left /= count;
        }
    }
    values.reverse();
    Ok(values)
}

/// For each assignment by its number whether it is a solution.
pub(crate) fn solutions(
    alloc: Global,
    p: &Problem,
    choices: &[Vec<Value>],
) -> Result<Vec<bool>, AllocError> {
    let mut solutions = Vec::new(alloc);
    for number in 0..count_of(choices) {
        let values = assignment(alloc, choices, number)?;
        solutions.push(is_solution(alloc, p, values.as_slice())?)?;
    }
    Ok(solutions)
}

fn is_same(a: &Value, b: &Value) -> bool {
    match (a, b) {
        (Value::Bool(a), Value::Bool(b)) => a == b,
        (Value::Int(a), Value::Int(b)) => a == b,
        (Value::Set(a), Value::Set(b)) => a.elements() == b.elements(),
        _ => false,
    }
}

/// The number of the assignment, if these are initial values.
pub(crate) fn number_of(choices: &[Vec<Value>], values: &[Value]) -> Option<usize> {
    if values.len() != choices.len() {
        return None;
    }
    let mut number: usize = 0;
    for (offered, value) in choices.iter().zip(values) {
        match offered.iter().position(|v| is_same(v, value)) {
            Some(place) => {
                number = number.saturating_mul(offered.len()).saturating_add(place);
            }
            None => return None,
        }
    }
    Some(number)
}
