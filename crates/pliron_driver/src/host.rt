//! A program over the arguments and streams of its process.
//!
//! These two calls have no clause: none can say what words a process is given, nor what its streams give or take. They
//! are read. What is done with the words and the streams is said by `run_optimiser`, to which both are passed as they
//! are.
use crate::driver::Notation;
use crate::run_optimiser;
use pliron_laws::OptError;
use std::env;
use std::io::{self, ErrorKind};
use std::process::ExitCode;

// The words after the program's name, made by pushes, so that a refused request is always allocation failure.
fn words(rt: &HostRuntime) -> io::Result<Vec<String>> {
    let mut args = env::args(rt)?;
    let _ = args.next();
    let mut words = Vec::new(rt.alloc());
    for word in args {
        words.push(word)?;
    }
    Ok(words)
}

/// The words after the program's name. A word that is no text is none that a program knows: there are no
/// words then, which asks for nothing.
///
/// No clause speaks of a process's words: this is read. Errors: for allocation failure the status for
/// allocation failure, once standard error says so. Cost: linear in the words.
pub fn host_words(rt: &HostRuntime) -> Result<Vec<String>, ExitCode> {
    match words(rt) {
        Ok(words) => Ok(words),
        Err(error) if error.kind() == ErrorKind::OutOfMemory => {
            let _ = eprintln!(rt; "refused: {}", OptError::Memory);
            Err(ExitCode::from(1))
        }
        Err(_) => Ok(Vec::new(rt.alloc())),
    }
}

/// Runs `run_optimiser` over the texts of a notation on the words after the program's name and the standard
/// streams, and answers its status. `program` is the name in the line on how it is used.
///
/// No clause speaks of a process's words and streams: this is read, and `run_optimiser` has the clause. Cost: that of
/// `run_optimiser`.
pub fn optimise_host<N: Notation>(rt: &HostRuntime, program: &str) -> ExitCode {
    let args = match host_words(rt) {
        Ok(args) => args,
        Err(status) => return status,
    };
    let status = run_optimiser::<N, _, _, _>(
        rt.alloc(),
        program,
        &args,
        &mut rt.stdin(),
        &mut rt.stdout(),
        &mut rt.stderr(),
    );
    ExitCode::from(status)
}
