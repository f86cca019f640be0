//! `plir_fuzz SEED COUNT`: so many texts made at random, of the seeds from this one on.
//!
//! It writes a line for each text of which the program's answer shows a fault, and at last one with the
//! counts. Status 1: a fault was found, or memory was refused; 2: the words aren't two numbers, or nothing can
//! be written.
#![tactic(auto)]

use pliron_fuzz::{FuzzSubject, Tally, Verdict, judge};
use pliron_laws::OptError;
use std::alloc::Global;
use std::env;
use std::process::ExitCode;

// The words after the program's name, as numbers, if there are two.
fn numbers(rt: &HostRuntime) -> Option<(u64, u64)> {
    let mut args = env::args(rt).ok()?;
    let _ = args.next();
    let seed = args.next()?.parse::<u64>().ok()?;
    let count = args.next()?.parse::<u64>().ok()?;
    if args.next().is_some() {
        return None;
    }
    Some((seed, count))
}

/// Why it ends early.
#[derive(Drop)]
enum FuzzFailure {
    Refused(OptError),
    Writing,
}

// Makes the text of this seed, judges it, and writes a line where the answer shows a fault.
fn try_seed(
    rt: &HostRuntime,
    alloc: Global,
    seed: u64,
    tally: &mut Tally,
) -> Result<(), FuzzFailure> {
    let subject = FuzzSubject::new(alloc, seed).map_err(|error| FuzzFailure::Refused(
        error.into(),
    ))?;
    let verdict = judge(alloc, &subject).map_err(FuzzFailure::Refused)?;
    tally.add(subject.kind, verdict);
    if let Verdict::Found(fault) = verdict {
        let FuzzSubject { list, text, .. } = &subject;
        println!(rt; "seed {seed}: {fault}: {list} :: {text}").map_err(|_| FuzzFailure::Writing)?;
    }
    Ok(())
}

// Tries the seeds, and writes the counts.
fn try_seeds(rt: &HostRuntime, alloc: Global, first: u64, count: u64) -> Result<bool, FuzzFailure> {
    let mut tally = Tally::new();
    for place in 0..count {
        try_seed(rt, alloc, first.wrapping_add(place), &mut tally)?;
    }
    println!(rt; "{count} texts: {tally}").map_err(|_| FuzzFailure::Writing)?;
    Ok(tally.found == 0)
}

fn main(rt: HostRuntime) -> ExitCode {
    let Some((seed, count)) = numbers(&rt) else {
        let _ = eprintln!(rt; "usage: plir_fuzz SEED COUNT");
        return ExitCode::from(2);
    };
    match try_seeds(&rt, rt.alloc(), seed, count) {
        Ok(true) => ExitCode::from(0),
        Ok(false) => ExitCode::from(1),
        Err(FuzzFailure::Refused(error)) => {
            let _ = eprintln!(rt; "refused: {error}");
            ExitCode::from(1)
        }
        Err(FuzzFailure::Writing) => ExitCode::from(2),
    }
}
