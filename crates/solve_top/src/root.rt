//! The root family of a problem, and the lines that tell it.

ghost use Rattle.std.specs.Prelude.{◌≡◌, ◌++◌, false, None, OnOk, IfOk};
ghost use Rattle.problem_limits.specs.Limits.{KeepsLimits};
ghost use Rattle.learn_search.specs.Roots.{IsRootOf};
ghost use Rattle.solve_top.specs.Roots.{IsRootText, named_line, root_lines};
ghost use Rattle.solve_top.specs.Statuses.{StopsWith};
ghost use Rattle.solve_top.specs.Endings.{ending_status, ending_text, ending_stop, EndsRoot};

use crate::ending::Ending;
use crate::searching::{begin_search, give_up, stop_search};
use desk::Desk;
use fzn_printer::{UNSATISFIABLE, root_line};
use learn_search::{RootFound, Search, SearchEnd};
use set_meaning::{Bounds, Problem, Text};
use std::alloc::{AllocError, Global};

/// Finds the root family of the problem, and answers how the run is to end. The desk is not called.
pub(crate) fn tell_root<D: Desk>(alloc: Global, p: Problem, desk: &mut D) -> Ending
    requires limits { KeepsLimits p }
    ensures ends { EndsRoot p (ending_status result) (ending_text result) }
    ensures stop { StopsWith (ending_status result) (ending_stop result) }
    ensures told { D.state desk.new ≡ D.state desk.old }
    ensures faults { D.faults desk.new ≡ D.faults desk.old }
{
    match begin_search(alloc, p) {
        Some(search) => search_root(alloc, search, desk),
        None => Ending::Memory,
    }
}

/// Asks a search that was just begun for the root family.
fn search_root<D: Desk>(alloc: Global, mut search: Search, desk: &mut D) -> Ending
    requires limit { search.pool.arena.limit ≡ 4000000 }
    requires begun { search.ended ≡ None }
    requires unsearched { search.searched ≡ false }
    ensures ends { EndsRoot search.problem (ending_status result) (ending_text result) }
    ensures stop { StopsWith (ending_status result) (ending_stop result) }
    ensures told { D.state desk.new ≡ D.state desk.old }
    ensures faults { D.faults desk.new ≡ D.faults desk.old }
{
    match search.root(desk) {
        Ok(found) => {
            let ending = ending_of_found(alloc, search.problem(), &found);
            search.release();
            ending
        }
        Err(SearchEnd::Nodes) => stop_search(search, desk),
        Err(SearchEnd::Memory) => give_up(search),
        Err(SearchEnd::Conflicts) => unreachable!(),
        Err(SearchEnd::Ended) => unreachable!(),
    }
}

/// Tells what was found at the root.
fn ending_of_found(alloc: Global, p: &Problem, found: &RootFound) -> Ending
    requires { IsRootOf p.now found.now }
    ensures ends { EndsRoot p.now (ending_status result) (ending_text result) }
    ensures stop { StopsWith (ending_status result) (ending_stop result) }
{
    match root_text(alloc, p, found) {
        Ok(bytes) => Ending::Answered(bytes),
        Err(AllocError) => Ending::Memory,
    }
}

/// The bytes that tell what was found at the root: all of them are made before the first is printed.
fn root_text(alloc: Global, p: &Problem, found: &RootFound) -> Result<Vec<u8>, AllocError>
    requires { IsRootOf p.now found.now }
    ensures { IfOk result (λ out. IsRootText p.now out.items) }
{
    match found {
        RootFound::Family(rows) => family_text(alloc, p.names.items(), rows.as_slice()),
        RootFound::Unsatisfiable => Vec::from_slice(alloc, UNSATISFIABLE),
    }
}

/// The lines of variables with these names and rows.
fn family_text(alloc: Global, names: &[Text], rows: &[(Bounds, u64)]) -> Result<Vec<u8>, AllocError>
    ensures { IfOk result (λ out. out.items ≡ root_lines names.now rows.now) }
{
    let mut out = Vec::new(alloc);
    for (name, row) in names.iter().zip(rows) {
        push_line(alloc, &mut out, name, row)?;
    }
    Ok(out)
}

/// Appends the line of a variable, if it has a name.
fn push_line(
    alloc: Global,
    out: &mut Vec<u8>,
    name: &Text,
    row: &(Bounds, u64),
) -> Result<(), AllocError>
    ensures { OnOk result (out.new.items ≡ out.old.items ++ named_line name.now row.now) }
{
    if name.items().is_empty() {
        return Ok(());
    }
    let line = root_line(alloc, name, &row.0, row.1)?;
    out.extend_from_slice(line.as_slice())?;
    Ok(())
}
