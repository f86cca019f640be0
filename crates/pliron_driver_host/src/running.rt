//! Passes on the module that words name.
ghost use Rattle.std.specs.Prelude.{None, ◌≤◌, ◌⊎◌, ◌≡◌};
ghost use Rattle.pliron_driver.specs.Ran.{RunsAlone};
ghost use Rattle.pliron_driver_modules.specs.Outcomes.{EndsWithModule, EndsByWord};
ghost use Rattle.pliron_driver_modules.specs.Streams.{EndsOnStreams};

use crate::clock::ProcessClock;
use crate::target::Target;
use clap::ArgMatches;
use pliron_driver_instrument::{InstrumentedPipeline, InstrumentedStep};
use pliron_driver_modules::{MAX_TEXT, ModuleNotation, ModuleOptions, Request, run_on};
use pliron_pass::{BenchFactKind, Pass};
use std::fs::File;
use std::io::{self, ErrorKind, Read};

// What the words ask for.
//
// No clause speaks of what words were parsed to: this is read.
fn request_of<'p, 'w: 'p>(matches: &ArgMatches<'w>, pipeline: &'p str) -> Request<'p> {
    let name = matches.get_str("file").unwrap_or("-");
    Request {
        pipeline,
        name: if name == "-" { "standard input" } else { name },
        options: ModuleOptions {
            counts: matches.get_flag("stats"),
            verifies: matches.get_flag("verify-each"),
            times: matches.get_flag("time"),
            checks: matches.get_flag("check"),
        },
        prints_all: matches.get_flag("print-after-all"),
    }
}

/// Runs `run_on` on what is asked for, a reader and the file that is named, or standard output, and answers its status.
/// Cost: that of `run_on`.
pub fn run_to<'r, N: ModuleNotation, R: Read>(
    rt: &'r HostRuntime,
    request: &Request,
    input: &mut R,
    file: Option<&str>,
) -> u8
    ensures { EndsOnStreams (λ text. EndsByWord ⟦<InstrumentedStep<N, ProcessClock<'r>> as Pass>⟧.name
        (λ pipeline. EndsWithModule N.reads N.prints N.D.meaning (RunsAlone
        ⟦<BenchFactKind as PartialEq>⟧.eq ⟦<InstrumentedPipeline<N, ProcessClock<'r>> as Pass>⟧.outcome pipeline)
        text) request.now.pipeline.now) (R.remaining input.old) None None result }
{
    let mut target = Target::new(rt, file);
    let clock = ProcessClock { rt };
    run_on::<N, R, Target, _, ProcessClock>(
        rt.alloc(),
        request,
        input,
        &mut target,
        &mut rt.stderr(),
        clock,
    )
}

/// Opens the input, of which no more is read than a byte past the longest text, and runs these passes on it in this notation, as
/// the words ask for it. Answers the status: that of `run_on`, 1 where memory was refused, or 2 where the input can't be opened.
///
/// No clause speaks of what words and files of a process are: this is read, and `run_to` has the clause. Cost: that of `run_on`.
pub fn run_on_words<N: ModuleNotation>(
    rt: &HostRuntime,
    matches: &ArgMatches<'_>,
    pipeline: &str,
) -> u8 {
    let request = request_of(matches, pipeline);
    let most = MAX_TEXT as u64 + 1;
    let file = matches.get_str("output");
    match matches.get_str("file") {
        Some(name) if name != "-" => match File::open(rt, name) {
            Ok(opened) => run_to::<N, _>(rt, &request, &mut opened.take(most), file),
            Err(error) => unopened_status(rt, name, &error),
        },
        _ => run_to::<N, _>(rt, &request, &mut rt.stdin().take(most), file),
    }
}

// Writes that the input can't be read, and answers the status.
fn unopened_status(rt: &HostRuntime, name: &str, error: &io::Error) -> u8
    ensures { 1 ≤ result }
{
    if error.kind() == ErrorKind::OutOfMemory {
        return refused_status(rt);
    }
    let _ = eprintln!(rt; "error: cannot read {name}: {error}");
    2
}

/// Writes that memory was refused, and answers the status. Cost: constant.
pub fn refused_status(rt: &HostRuntime) -> u8
    ensures { result ≡ 1 }
{
    let _ = eprintln!(rt; "error: refused: want of memory");
    1
}
