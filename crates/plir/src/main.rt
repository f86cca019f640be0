//! `plir`: texts of operations and modules of MLIR: runs, passes, marks under what is wrong, pictures, and why passes
//! changed what.
//!
//! It says which texts it takes. What each command does is in `pliron_show_commands`; words, files and streams are in
//! `pliron_show_program`.
#![tactic(auto)]

mod module;

use clap::ArgMatches;
use module::{is_module_named, module_outcome};
use pliron_show_commands::{BenchNotation, Outcome};
use pliron_show_program::{Program, run_program};
use std::io;
use std::process::ExitCode;

/// The commands on texts of the bench notation, and on modules.
struct Plir;

impl Program for Plir {
    type Text = BenchNotation;

    fn name() -> &'static str {
        "plir"
    }

    fn about() -> &'static str {
        "Texts of operations: runs, passes, what is wrong and where, pictures, reasons"
    }

    fn beside() -> &'static str {
        "The script ./plir has more commands, each with --help: reduce (a failing text made small), bisect (the \
         first run of a pass that does it), test (RUN and CHECK lines) and report (a page)."
    }

    fn roots() -> &'static [&'static str] {
        &["func", "mod"]
    }

    fn roots_label() -> &'static str {
        "only a `func` or a `mod` is taken alone"
    }

    fn at_help() -> &'static str {
        "Take this `func` or `mod` of the text alone (`dot` and `explain`: any operation): numbers with dots \
         between them, as `0.1` for operation 1 of region 0, counted from 0; `0.1.0`, its region, says the same"
    }

    fn dialects() -> &'static [&'static str] {
        &["bench", "mlir"]
    }

    fn dialect_help() -> &'static str {
        "What the text is written in: `bench`, or `mlir`, the generic form of MLIR, as it is for a FILE that ends \
         with `.mlir`"
    }

    fn input_help() -> &'static str {
        "A value for the text's operation; once for each, in order. For a function of MLIR with its type, as \
         `-1:i8`, `7:index` or `true`; 64 bits without one"
    }

    fn world_help() -> &'static str {
        "What the world answers to an effect; once for each, in order. For MLIR as for `--input`, with commas \
         between several"
    }

    fn takes_other_data(run: &ArgMatches) -> bool {
        is_module_named(run, run.get_str("file").unwrap_or("-"))
    }

    fn other_outcome(
        rt: &HostRuntime,
        command: &str,
        matches: &ArgMatches,
    ) -> io::Result<Option<Outcome>> {
        module_outcome(rt, command, matches)
    }
}

fn main(rt: HostRuntime) -> io::Result<ExitCode> {
    run_program::<Plir>(&rt)
}
