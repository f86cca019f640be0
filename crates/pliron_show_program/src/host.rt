//! Words, streams and files of the process.
use crate::command::parse_arguments;
use crate::commands::{outcome, output_file};
use crate::help::{lay_out, width_of};
use crate::output::{write_answer, write_file, write_report};
use crate::program::Program;
use clap::{ArgMatches, Error};
use pliron_show_commands::{MessageForm, Outcome, in_form};
use std::env;
use std::io::{self, ErrorKind};
use std::process::ExitCode;

/// The passes that `opt` has, each with what it does.
static PASS_LIST: &str = "\
sccp          sparse conditional constant propagation
dce           dead code elimination
simplify-cfg  simplification of control flow
cse           common subexpression elimination
canonicalize  folding to operands, constants and what arguments are
combine       rewrite rules of the dialect
thread-edges  edges past blocks that only jump
";

// Writes the answer of the command, and answers the status: to the file that is named, or to standard output. A file
// that is named is left as it is where there is no answer.
fn write_outcome(rt: &HostRuntime, outcome: &Outcome, file: Option<&str>) -> io::Result<u8> {
    let Some(file) = file else {
        write_answer(rt, &outcome.output)?;
        return Ok(outcome.status);
    };
    if outcome.status != 0 && outcome.output.is_empty() {
        return Ok(outcome.status);
    }
    match write_file(rt, file, &outcome.output) {
        Ok(()) => Ok(outcome.status),
        Err(error) => {
            let report = format!(in rt.alloc(); "error: cannot write {file}: {error}\n")?;
            write_report(rt, report.as_str());
            Ok(2)
        }
    }
}

// The form of reports that the words ask for.
fn form_of(matches: &ArgMatches) -> MessageForm {
    if matches.get_flag("json") {
        return MessageForm::Json;
    }
    match matches.get_str("format") {
        Some("short") => MessageForm::Short,
        Some("json") => MessageForm::Json,
        _ => MessageForm::Full,
    }
}

// Does what the command asks for, and answers its status.
fn act<P: Program>(rt: &HostRuntime, command: &str, matches: &ArgMatches) -> io::Result<u8> {
    if command == "opt" && matches.get_flag("list-passes") {
        write_answer(rt, PASS_LIST.as_bytes())?;
        return Ok(0);
    }
    let outcome = outcome::<P>(rt, command, matches)?;
    let report = in_form(rt.alloc(), outcome.report.as_str(), form_of(matches))?;
    write_report(rt, report.as_str());
    write_outcome(rt, &outcome, output_file(matches))
}

// The status of what was done. Where it failed, a line says why, unless it is that nobody reads the answer any more.
fn status_of(rt: &HostRuntime, done: io::Result<u8>) -> u8 {
    match done {
        Ok(status) => status,
        Err(error) => {
            if error.kind() != ErrorKind::BrokenPipe {
                let _ = eprintln!(rt; "error: {error}");
            }
            if error.kind() == ErrorKind::OutOfMemory {
                1
            } else {
                2
            }
        }
    }
}

// Does what the words ask for, and answers its status.
fn act_on<P: Program>(rt: &HostRuntime, matches: &ArgMatches) -> u8 {
    match matches.subcommand() {
        Some((command, inner)) => status_of(rt, act::<P>(rt, command, inner)),
        None => 2,
    }
}

// Writes what is wrong with the words, or the help that they ask for, in the width of the terminal, and answers the
// status.
fn write_usage(rt: &HostRuntime, error: &Error) -> io::Result<u8> {
    let columns = env::var(rt, "COLUMNS").ok();
    let width = width_of(columns.as_deref());
    let text = format!(in rt.alloc(); "{error}")?;
    let text = lay_out(rt.alloc(), text.as_str(), width)?;
    if error.use_stderr() {
        write_report(rt, text.as_str());
        return Ok(2);
    }
    write_answer(rt, text.as_bytes())?;
    Ok(0)
}

// The words of the program, of which the first is its name. Errors: a word that isn't UTF-8; allocation failure.
fn program_words<P: Program>(rt: &HostRuntime) -> io::Result<Vec<String>> {
    let alloc = rt.alloc();
    let mut words = Vec::new(alloc);
    words.push(String::from_str(alloc, P::name())?)?;
    let mut given = env::args(rt)?;
    let _ = given.next();
    for word in given {
        words.push(word)?;
    }
    Ok(words)
}

/// Does what the words of the process ask of the program, and answers the exit status: 0 where the answer is written; 1
/// where memory or passes were refused; 2 for words, files and texts that can't be used; 3 as each command says.
///
/// Errors: allocation failure for the words. Cost: that of the command.
pub fn run_program<P: Program>(rt: &HostRuntime) -> io::Result<ExitCode> {
    let words = match program_words::<P>(rt) {
        Ok(words) => words,
        Err(error) if error.kind() == ErrorKind::InvalidData => {
            write_report(
                rt,
                "error: a word isn't UTF-8\nhelp: give the text on standard input, or the file another name\n",
            );
            return Ok(ExitCode::from(2));
        }
        Err(error) => return Err(error),
    };
    match parse_arguments::<P>(rt.alloc(), words.as_slice()) {
        Ok(matches) => Ok(ExitCode::from(act_on::<P>(rt, &matches))),
        Err(error) => Ok(ExitCode::from(status_of(rt, write_usage(rt, &error)))),
    }
}
