//! The answers of a search, one after another, and what a run prints.
ghost use Rattle.std.specs.Prelude.{◌≡◌, ◌↔◌, IsTrue};
ghost use Rattle.set_meaning.specs.declared.problems.Goal.TheVariants as goal;

use desk::{Desk, MemoryDesk};
use learn_search::{Found, Search};
use problem_limits::keeps_limits;
use refute_log::LogWriter;
use set_meaning::{Goal, Problem, Value};
use solve_top::run;
use std::alloc::{AllocError, Global};

/// The first answers of a search, and whether it said that they are all.
#[derive(Drop)]
pub(crate) struct Answers {
    pub(crate) given: Vec<Vec<Value>>,
    pub(crate) complete: bool,
}

fn asks_for_solutions(p: &Problem) -> bool
    ensures { IsTrue result ↔ (p.now.goal ≡ goal.Satisfy) }
{
    match p.goal {
        Goal::Satisfy => true,
        Goal::Minimize(_) => false,
        Goal::Maximize(_) => false,
    }
}

/// What a call of `next` found; an `Err` also where it was refused.
fn found<D: Desk>(search: &mut Search, desk: &mut D) -> Result<Found, AllocError> {
    if !asks_for_solutions(search.problem()) {
        return Err(AllocError);
    }
    match search.next(desk) {
        Ok(found) => Ok(found),
        Err(_) => Err(AllocError),
    }
}

/// Up to so many answers.
fn collected<D: Desk>(
    alloc: Global,
    search: &mut Search,
    desk: &mut D,
    most: usize,
) -> Result<Answers, AllocError> {
    let mut given = Vec::new(alloc);
    for _ in 0..most {
        match found(search, desk)? {
            Found::Answer(values) => given.push(values)?,
            Found::Complete => {
                return Ok(Answers {
                    given,
                    complete: true,
                });
            }
        }
    }
    Ok(Answers {
        given,
        complete: false,
    })
}

/// Up to so many answers of a search for the problem.
pub(crate) fn first_answers(alloc: Global, p: Problem, most: usize) -> Result<Answers, AllocError> {
    if !keeps_limits(alloc, &p)? {
        return Err(AllocError);
    }
    let mut desk = MemoryDesk::new(alloc);
    match Search::new(alloc, p, 100_000, None, LogWriter::off()) {
        Ok(search) => {
            let mut search = search;
            let answers = collected(alloc, &mut search, &mut desk, most);
            search.release();
            answers
        }
        Err(_) => Err(AllocError),
    }
}

/// The number of the status of a run with these words, over any desk, so that no test's proof carries what one desk
/// tells.
fn status_of<D: Desk>(alloc: Global, words: &[&str], desk: &mut D) -> Result<u8, AllocError> {
    let mut owned = Vec::new(alloc);
    for word in words {
        owned.push(word.to_string(alloc)?)?;
    }
    Ok(run(alloc, owned.as_slice(), desk).status.number())
}

/// What a run prints for the model, whose status must be 0.
pub(crate) fn printed(alloc: Global, text: &[u8]) -> Result<Vec<u8>, AllocError> {
    let mut desk = MemoryDesk::new(alloc);
    desk.put_file("m", text)?;
    if status_of(alloc, &["m"], &mut desk)? == 0 {
        Vec::from_slice(alloc, desk.out())
    } else {
        Vec::from_slice(alloc, b"another status")
    }
}
