//! The words of the command line.

ghost use Rattle.std.specs.Prelude.{◌≡◌, None, IfOk, IsErr, map, string_bytes, if◌then◌else◌};
ghost use Rattle.std.specs.Option.{option_map};
ghost use Rattle.clap.specs.Words.{app_of, rows_of, found_of, kind_of};
ghost use Rattle.solve_top.specs.Words.{setsolve, command_of, command_in, has_root};

use clap::error::ErrorKind;
use clap::{Arg, ArgAction, ArgMatches, Command, Error};
use std::alloc::{AllocError, Global};

/// What is asked of a model.
#[derive(Clone, Copy, Debug, PartialEq, Eq)]
pub enum Task {
    /// A solution of it.
    Solve,
    /// Its root family.
    Root,
}

/// What the words ask for, and the name of the model's file. None says that they cannot be read, that they request
/// help, or that they name no model.
pub(crate) fn read_words(
    alloc: Global,
    words: &[String],
) -> Result<Option<(Task, &str)>, AllocError>
    ensures { IfOk result (λ c. option_map (λ c. (c.0, c.1.now)) c ≡ command_of (map string_bytes words.now)) }
{
    let command = command(alloc)?;
    match command.try_get_matches_from(words) {
        Ok(matches) => Ok(asked(&matches)),
        Err(error) => refused(&error),
    }
}

/// The words that may be given: `--root`, and the name of one model.
fn command<'a>(alloc: Global) -> Result<Command<'a>, AllocError>
    ensures { IfOk result (λ c. app_of c ≡ setsolve) }
{
    let root = Arg::new(alloc, "root")
        .long("root")
        .action(ArgAction::SetTrue);
    let model = Arg::new(alloc, "model");
    Command::new(alloc, "setsolve")
        .no_binary_name(true)
        .arg(root)?
        .arg(model)
}

/// What words that were read ask for.
fn asked<'a>(matches: &ArgMatches<'a>) -> Option<(Task, &'a str)>
    ensures { option_map (λ c. (c.0, c.1.now)) result ≡ command_in (rows_of (found_of matches.now)) }
{
    match matches.get_str("model") {
        Some(name) => Some((task_of(matches), name)),
        None => None,
    }
}

fn task_of(matches: &ArgMatches) -> Task
    ensures { result ≡ (if has_root (rows_of (found_of matches.now)) then Task.Root else Task.Solve) }
{
    if has_root(matches) {
        return Task::Root;
    }
    Task::Solve
}

/// Whether `--root` was given: then the flag's value is `true`.
fn has_root(matches: &ArgMatches) -> bool
    ensures { result ≡ has_root (rows_of (found_of matches.now)) }
{
    match matches.get_str("root") {
        Some(text) => text == "true",
        None => false,
    }
}

/// What words that were not read ask for.
fn refused<'a>(error: &Error) -> Result<Option<(Task, &'a str)>, AllocError>
    ensures none { IfOk result (λ c. c ≡ None) }
    ensures memory { kind_of error.now ≡ ErrorKind.OutOfMemory → IsErr result }
{
    if error.kind() == ErrorKind::OutOfMemory {
        return Err(AllocError);
    }
    Ok(None)
}
