//! `plir_opt`: optimises a text on standard input.
//!
//! It knows arguments, streams and an exit status. What the program does stands in `pliron_driver`.
#![tactic(auto)]

use pliron_driver::{host_words, plir_run};
use std::process::ExitCode;

fn main(rt: HostRuntime) -> ExitCode {
    let args = match host_words(&rt) {
        Ok(args) => args,
        Err(status) => return status,
    };
    let status = plir_run(
        rt.alloc(),
        &args,
        &mut rt.stdin(),
        &mut rt.stdout(),
        &mut rt.stderr(),
    );
    ExitCode::from(status)
}
