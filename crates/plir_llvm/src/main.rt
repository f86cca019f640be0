//! `plir_llvm`: optimises a module of LLVM's textual IR.
//!
//! It knows its notation and its help. Words, files and streams are in `pliron_driver_host`, and what it does with texts in
//! `pliron_driver_modules`.
#![tactic(auto)]

mod command;

use clap::ArgMatches;
use pliron_driver_host::{ModuleProgram, ProgramHelp, run_module_program, run_on_words};
use pliron_driver_llvm::ClosedText;
use std::process::ExitCode;

/// The program on modules of LLVM's textual IR.
struct LlvmProgram;

impl ModuleProgram for LlvmProgram {
    fn help() -> ProgramHelp<'static> {
        command::help()
    }

    fn run(rt: &HostRuntime, matches: &ArgMatches<'_>, word: &str) -> u8 {
        run_on_words::<ClosedText>(rt, matches, word)
    }
}

fn main(rt: HostRuntime) -> ExitCode {
    run_module_program::<LlvmProgram>(&rt)
}
