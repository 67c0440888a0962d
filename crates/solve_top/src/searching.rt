//! A search of a problem: how it is begun and given up, and its first answer.

ghost use Rattle.std.specs.Prelude.{◌≡◌, false, [], Some, None, IfSome, IfOk};
ghost use Rattle.set_meaning.specs.declared.problems.Goal.TheVariants as goals;
ghost use Rattle.set_meaning.specs.Solutions.{IsAnswer, CoverAll};
ghost use Rattle.problem_limits.specs.Limits.{KeepsLimits};
ghost use Rattle.learn_search.specs.Founds.{IsFoundOf};
ghost use Rattle.solve_top.specs.Answers.{IsOutText};
ghost use Rattle.solve_top.specs.Statuses.{StopsWith};
ghost use Rattle.solve_top.specs.declared.status.Status.TheVariants as status;
ghost use Rattle.solve_top.specs.Endings.{ending_status, ending_text, ending_stop, EndsSearch, IsGivenUp};

use crate::ending::Ending;
use desk::Desk;
use fzn_printer::{UNSATISFIABLE, block};
use learn_search::{Found, LastState, Search, SearchEnd, StopFault};
use refute_log::LogWriter;
use set_meaning::{Problem, Value};
use std::alloc::{AllocError, Global};

/// The most nodes that a search makes.
const NODE_LIMIT: u32 = 4_000_000;

/// Searches a solution of the problem, and answers how the run is to end. The desk is not called.
pub(crate) fn solve<D: Desk>(alloc: Global, p: Problem, desk: &mut D) -> Ending
    requires limits { KeepsLimits p }
    requires satisfy { p.goal ≡ goals.Satisfy }
    ensures ends { EndsSearch p (ending_status result) (ending_text result) }
    ensures stop { StopsWith (ending_status result) (ending_stop result) }
    ensures told { D.state desk.new ≡ D.state desk.old }
    ensures faults { D.faults desk.new ≡ D.faults desk.old }
{
    match begin_search(alloc, p) {
        Some(search) => search_answer(alloc, search, desk),
        None => Ending::Memory,
    }
}

/// A search of the problem that was just begun. None is want of memory.
pub(crate) fn begin_search(alloc: Global, p: Problem) -> Option<Search>
    requires limits { KeepsLimits p }
    ensures problem { IfSome result (λ s. s.problem ≡ p) }
    ensures limit { IfSome result (λ s. s.pool.arena.limit ≡ 4000000) }
    ensures begun { IfSome result (λ s. s.ended ≡ None) }
    ensures unsearched { IfSome result (λ s. s.searched ≡ false) }
    ensures answers { IfSome result (λ s. s.answers ≡ []) }
    ensures uncapped { IfSome result (λ s. s.conflicts ≡ None) }
{
    match Search::new(alloc, p, NODE_LIMIT, None, LogWriter::off()) {
        Ok(search) => Some(search),
        Err(_) => None,
    }
}

/// Asks a search that was just begun for its first answer.
fn search_answer<D: Desk>(alloc: Global, mut search: Search, desk: &mut D) -> Ending
    requires satisfy { search.problem.goal ≡ goals.Satisfy }
    requires limit { search.pool.arena.limit ≡ 4000000 }
    requires begun { search.ended ≡ None }
    requires answers { search.answers ≡ [] }
    requires uncapped { search.conflicts ≡ None }
    ensures ends { EndsSearch search.problem (ending_status result) (ending_text result) }
    ensures stop { StopsWith (ending_status result) (ending_stop result) }
    ensures told { D.state desk.new ≡ D.state desk.old }
    ensures faults { D.faults desk.new ≡ D.faults desk.old }
{
    match search.next(desk) {
        Ok(found) => {
            let ending = ending_of_found(alloc, search.problem(), &found);
            search.release();
            ending
        }
        Err(SearchEnd::Nodes) => stop_search(search, desk),
        Err(SearchEnd::Memory) => give_up(search),
        Err(SearchEnd::Conflicts) => unreachable!(),
        Err(SearchEnd::Ended) => unreachable!(),
    }
}

/// Tells the first thing that was found.
fn ending_of_found(alloc: Global, p: &Problem, found: &Found) -> Ending
    requires { IsFoundOf p.now [] found.now }
    ensures ends { EndsSearch p.now (ending_status result) (ending_text result) }
    ensures stop { StopsWith (ending_status result) (ending_stop result) }
{
    match answer_text(alloc, p, found) {
        Ok(bytes) => Ending::Answered(bytes),
        Err(AllocError) => Ending::Memory,
    }
}

/// The block of the answer, or the line that says that there is none.
fn answer_text(alloc: Global, p: &Problem, found: &Found) -> Result<Vec<u8>, AllocError>
    requires { IsFoundOf p.now [] found.now }
    ensures { IfOk result (λ out. IsOutText p.now out.items) }
{
    match found {
        Found::Answer(values) => block_of(alloc, p, values.as_slice()),
        Found::Complete => no_solution(alloc, p),
    }
}

fn block_of(alloc: Global, p: &Problem, values: &[Value]) -> Result<Vec<u8>, AllocError>
    requires { IsAnswer p.now [] values.now }
    ensures { IfOk result (λ out. IsOutText p.now out.items) }
{
    block(alloc, p, values)
}

fn no_solution(alloc: Global, p: &Problem) -> Result<Vec<u8>, AllocError>
    requires { CoverAll p.now [] }
    ensures { IfOk result (λ out. IsOutText p.now out.items) }
{
    let _ = p;
    Vec::from_slice(alloc, UNSATISFIABLE)
}

/// Gives up a search for want of memory.
pub(crate) fn give_up(search: Search) -> Ending
    ensures given_up { IsGivenUp (ending_status result) (ending_text result) (ending_stop result) }
{
    search.release();
    Ending::Memory
}

/// Gives up a search whose nodes ran out. The desk is not called.
pub(crate) fn stop_search<D: Desk>(search: Search, desk: &mut D) -> Ending
    requires limit { search.pool.arena.limit ≡ 4000000 }
    requires ended { search.ended ≡ Some SearchEnd.Nodes }
    ensures given_up { IsGivenUp (ending_status result) (ending_text result) (ending_stop result) }
    ensures told { D.state desk.new ≡ D.state desk.old }
    ensures faults { D.faults desk.new ≡ D.faults desk.old }
{
    match search.stop(desk) {
        Ok(last) => out_of_nodes(last),
        Err(StopFault::Memory) => Ending::Memory,
        Err(StopFault::Failed) => unreachable!(),
    }
}

/// The ending of a search with this last state.
fn out_of_nodes(last: Option<LastState>) -> Ending
    requires { StopsWith status.Nodes last }
    ensures { IsGivenUp (ending_status result) (ending_text result) (ending_stop result) }
{
    match last {
        Some(last) => Ending::Nodes(last),
        None => unreachable!(),
    }
}
