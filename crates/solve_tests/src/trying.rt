// Models made by chance, solved by trying every assignment.
use crate::chance::{Chance, model};
use crate::running::status_of;
use desk::MemoryDesk;
use fzn_model::read_problem;
use fzn_printer::{UNSATISFIABLE, block};
use set_meaning::{Kind, Value, initial_values, is_solution};
use std::alloc::{AllocError, Global};
use std::test::Fail;

/// The values of the kind, those first that a search tries last.
fn choices_of(alloc: Global, kind: &Kind) -> Result<Vec<Value>, AllocError> {
    let mut values = initial_values(alloc, kind)?;
    if let Kind::Set(_) = kind {
        values.reverse();
    }
    Ok(values)
}

/// How many assignments there are; 0 stands for very many.
fn count_of(choices: &[Vec<Value>]) -> usize {
    let mut count: usize = 1;
    for values in choices {
        match count.checked_mul(values.len()) {
            Some(more) => count = more,
            None => return 0,
        }
    }
    count
}

/// The assignment of this number, with the first variable slowest.
fn assignment_of(
    alloc: Global,
    choices: &[Vec<Value>],
    number: usize,
) -> Result<Vec<Value>, AllocError> {
    let mut left = number;
    let mut values = Vec::new(alloc);
    for offered in choices.iter().rev() {
        let count = offered.len();
        if count > 0 {
            values.push(offered[left % count].copy(alloc)?)?;
            left /= count;
        }
    }
    values.reverse();
    Ok(values)
}

/// What is to be printed for the model.
fn expected(alloc: Global, text: &[u8]) -> Result<Vec<u8>, AllocError> {
    let Ok(p) = read_problem(alloc, text) else {
        return Vec::from_slice(alloc, b"no problem");
    };
    let mut choices = Vec::new(alloc);
    for kind in p.kinds.items() {
        choices.push(choices_of(alloc, kind)?)?;
    }
    let count = count_of(choices.as_slice());
    for tried in 0..count {
        let values = assignment_of(alloc, choices.as_slice(), count - 1 - tried)?;
        if is_solution(alloc, &p, values.as_slice())? {
            return block(alloc, &p, values.as_slice());
        }
    }
    Vec::from_slice(alloc, UNSATISFIABLE)
}

#[test]
fn models_by_chance_are_answered_as_by_trying(rt: HostRuntime) -> Result<(), Fail> {
    let alloc = rt.alloc();
    let mut chance = Chance::new(19);
    for _ in 0..1_000 {
        let text = model(alloc, &mut chance)?;
        let wanted = expected(alloc, text.as_slice())?;
        let mut desk = MemoryDesk::new(alloc);
        desk.put_file("m", text.as_slice())?;
        assert_eq!(rt; status_of(alloc, &["m"], &mut desk)?, 0);
        assert_eq!(rt; desk.out(), wanted.as_slice());
    }
    Ok(())
}
