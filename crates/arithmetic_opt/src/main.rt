//! `arithmetic_opt`: optimises a text of the dialect `Arithmetic` on standard input.
#![tactic(auto)]

use pliron_dialect_arithmetic::ArithmeticKind;
use pliron_driver::{KindNotation, optimise_host};
use std::process::ExitCode;

fn main(rt: HostRuntime) -> ExitCode {
    optimise_host::<KindNotation<ArithmeticKind>>(&rt, "arithmetic_opt")
}
