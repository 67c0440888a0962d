//! `setcheck MODEL LOG`: reads a FlatZinc model over sets and the log of a solver's run on it, and prints whether the
//! log is accepted, or which line of it is refused first and for which reason.
#![tactic(auto)]

use check_top::{CheckStatus, check_run};
use desk::RealDesk;
use std::env::{self, Env};
use std::io;
use std::process::ExitCode;

fn main(rt: HostRuntime) -> ExitCode {
    let alloc = rt.alloc();
    let words = words_of(&rt);
    let mut desk = RealDesk::new(rt);
    let status = match words {
        Ok(words) => check_run(alloc, words.as_slice(), &mut desk),
        Err(error) if error.kind() == io::ErrorKind::OutOfMemory => CheckStatus::Memory,
        // words that are no text are wrong words
        Err(_) => check_run(alloc, &[], &mut desk),
    };
    ExitCode::from(status.number())
}

/// The words after the program's name.
fn words_of<R: Env + AllocGlobal>(rt: &R) -> io::Result<Vec<String>> {
    let mut words = env::args(rt)?;
    let _name = words.next();
    Ok(words.collect(rt.alloc())?)
}
