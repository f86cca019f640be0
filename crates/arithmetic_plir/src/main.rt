//! `arithmetic_plir`: the commands of `plir` on texts of the dialect `Arithmetic`.
#![tactic(auto)]

use pliron_dialect_arithmetic::ArithmeticKind;
use pliron_driver::KindNotation;
use pliron_show_program::{Program, run_program};
use std::io;
use std::process::ExitCode;

/// The commands on texts of the dialect.
struct ArithmeticPlir;

impl Program for ArithmeticPlir {
    type Text = KindNotation<ArithmeticKind>;

    fn name() -> &'static str {
        "arithmetic_plir"
    }

    fn about() -> &'static str {
        "Texts of the dialect `Arithmetic`: runs, passes, what is wrong and where, pictures, reasons"
    }

    fn roots() -> &'static [&'static str] {
        &["function"]
    }
}

fn main(rt: HostRuntime) -> io::Result<ExitCode> {
    run_program::<ArithmeticPlir>(&rt)
}
