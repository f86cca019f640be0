//! A program over the words of its process.
ghost use Rattle.std.specs.Prelude.{◌≤◌, ◌≡◌};

use crate::command::{ProgramHelp, parse_arguments};
use crate::running::refused_status;
use clap::{ArgMatches, Error};
use pliron_driver::without_blanks;
use std::env;
use std::io::{self, ErrorKind};
use std::process::ExitCode;

/// A program that runs passes on modules of a notation.
pub trait ModuleProgram {
    /// What the program says of itself and its words. Cost: constant.
    fn help() -> ProgramHelp<'static>;

    /// Runs the passes of the word as the words ask for it, and answers the status. The word has no blanks beside commas,
    /// brackets and colons.
    fn run(rt: &HostRuntime, matches: &ArgMatches<'_>, word: &str) -> u8;
}

// Runs the program on what the words ask for; blanks beside commas, brackets and colons say nothing.
fn act<P: ModuleProgram>(rt: &HostRuntime, matches: &ArgMatches<'_>) -> u8 {
    match without_blanks(rt.alloc(), matches.get_str("pipeline").unwrap_or("")) {
        Ok(word) => P::run(rt, matches, word.as_str()),
        Err(_) => refused_status(rt),
    }
}

// Writes why there are no words, and answers the status: 1 on allocation failure.
fn failure_status(rt: &HostRuntime, error: &io::Error) -> u8
    ensures { 1 ≤ result }
{
    if error.kind() == ErrorKind::OutOfMemory {
        return refused_status(rt);
    }
    let _ = eprintln!(rt; "error: {error}");
    2
}

// Writes what is wrong with the words, or the help that they ask for, and answers the status.
fn write_usage(rt: &HostRuntime, error: &Error) -> u8 {
    if error.kind() == clap::error::ErrorKind::OutOfMemory {
        return refused_status(rt);
    }
    let _ = error.print(rt);
    if error.exit_code() == 0 { 0 } else { 2 }
}

// The words of the program, of which the first is its name.
fn program_words(rt: &HostRuntime) -> io::Result<Vec<String>> {
    let mut words = Vec::new(rt.alloc());
    for word in env::args(rt)? {
        words.push(word)?;
    }
    Ok(words)
}

/// Runs the program on the words of its process, and answers the exit status: that of `ModuleProgram::run`; 0 where the words ask
/// for help, 1 where memory was refused, 2 for words that the program doesn't have.
///
/// No clause speaks of a process's words: this is read. Cost: that of `ModuleProgram::run`.
pub fn run_module_program<P: ModuleProgram>(rt: &HostRuntime) -> ExitCode {
    let words = match program_words(rt) {
        Ok(words) => words,
        Err(error) => return ExitCode::from(failure_status(rt, &error)),
    };
    match parse_arguments(rt.alloc(), &P::help(), words.as_slice()) {
        Ok(matches) => ExitCode::from(act::<P>(rt, &matches)),
        Err(error) => ExitCode::from(write_usage(rt, &error)),
    }
}
