//! `setsolve [--root] MODEL`: reads a FlatZinc model over sets, and prints a solution of it or that it has none, or,
//! with `--root`, the bounds of each variable in the root family.
#![tactic(auto)]

use desk::RealDesk;
use solve_top::{Status, run};
use std::env::{self, Env};
use std::io;
use std::process::ExitCode;

fn main(rt: HostRuntime) -> ExitCode {
    let alloc = rt.alloc();
    let words = words_of(&rt);
    let mut desk = RealDesk::new(rt);
    let status = match words {
        Ok(words) => run(alloc, words.as_slice(), &mut desk).status,
        Err(error) if error.kind() == io::ErrorKind::OutOfMemory => Status::Memory,
        // words that are no text are wrong words
        Err(_) => run(alloc, &[], &mut desk).status,
    };
    ExitCode::from(status.number())
}

/// The words after the program's name.
fn words_of<R: Env + AllocGlobal>(rt: &R) -> io::Result<Vec<String>> {
    let mut words = env::args(rt)?;
    let _name = words.next();
    Ok(words.collect(rt.alloc())?)
}
