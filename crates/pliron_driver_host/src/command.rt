//! The words of the program.
use clap::{Arg, ArgAction, ArgMatches, Command, Error};
use std::alloc::{AllocError, Global};

fn flag<'a>(alloc: Global, name: &'a str, help: &'a str) -> Arg<'a> {
    Arg::new(alloc, name)
        .long(name)
        .action(ArgAction::SetTrue)
        .help(help)
}

/// What a program says of itself and its words.
#[derive(Clone, Copy)]
pub struct ProgramHelp<'h> {
    pub name: &'h str,
    pub about: &'h str,
    /// What it reads, and what it ends with.
    pub after: &'h str,
    /// What `PIPELINE` may be.
    pub pipeline: &'h str,
}

/// What `--stats` does.
static STATS: &str = "\
Tell, on standard error, how many operations,
blocks, arguments and edges stand before and after
each pass, and what it rewrote";

fn with_flags<'a>(command: Command<'a>, alloc: Global) -> Result<Command<'a>, AllocError> {
    command
        .arg(flag(alloc, "stats", STATS))?
        .arg(flag(
            alloc,
            "check",
            "Read what is printed again, and tell whether it\nsays the same tree; nothing is written where not",
        ))?
        .arg(flag(
            alloc,
            "verify-each",
            "Verify the operation after each run of a pass; a\nfault is told, and nothing written",
        ))?
        .arg(flag(
            alloc,
            "time",
            "Tell how often each pass ran and its time, on\nstandard error",
        ))?
        .arg(flag(
            alloc,
            "print-after-all",
            "Print the module after each pass, on standard\nerror: for that they run once more, one by one",
        ))
}

fn command<'a>(alloc: Global, help: &ProgramHelp<'a>) -> Result<Command<'a>, AllocError> {
    let command = Command::new(alloc, help.name)
        .version("0.1.0")
        .about(help.about)
        .after_help(help.after)
        .arg(
            Arg::new(alloc, "pipeline")
                .value_name("PIPELINE")
                .required(true)
                .help(help.pipeline),
        )?
        .arg(
            Arg::new(alloc, "file")
                .value_name("FILE")
                .help("The text; standard input, if it is `-` or left out"),
        )?
        .arg(
            Arg::new(alloc, "output")
                .short('o')
                .long("output")
                .value_name("FILE")
                .help("Where to write; standard output, if left out"),
        )?;
    with_flags(command, alloc)
}

/// What the words ask for. Errors: words that the program doesn't have, or asking for help; allocation failure. Cost:
/// linear in the words.
pub fn parse_arguments<'a>(
    alloc: Global,
    help: &ProgramHelp<'a>,
    words: &'a [String],
) -> Result<ArgMatches<'a>, Error> {
    command(alloc, help)?.try_get_matches_from(words)
}
