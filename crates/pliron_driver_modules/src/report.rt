//! What is reported about the runs of passes: what verifying found after each, counts, and times.
use crate::module_observer::ModuleOptions;
use pliron_driver::Notation;
use pliron_driver_instrument::{ContentsCount, InstrumentedStep, Progress, RoundRecord};
use std::alloc::{AllocError, Global};

// Writes what verifying found after the runs of a pass, and answers after how many it found nothing.
fn write_faults_of<N: Notation, C: Progress + Drop>(
    report: &mut String,
    pass: &InstrumentedStep<N, C>,
) -> Result<usize, AllocError> {
    let mut right: usize = 0;
    let name = pass.pass_name();
    for note in &pass.run_record().notes {
        match &note.fault {
            Some(fault) => {
                let run = note.number.saturating_add(1);
                write!(
                    report,
                    "error: a fault after {name}, in run {run}: {fault}\n"
                )?;
            }
            None => right = right.saturating_add(1),
        }
    }
    Ok(right)
}

// Writes what verifying found after each run, and after how many it found nothing.
fn write_faults<N: Notation, C: Progress + Drop>(
    report: &mut String,
    passes: &[InstrumentedStep<N, C>],
) -> Result<(), AllocError> {
    let mut right: usize = 0;
    let mut runs: usize = 0;
    for pass in passes {
        right = right.saturating_add(write_faults_of(report, pass)?);
        runs = runs.saturating_add(pass.run_record().notes.len());
    }
    write!(
        report,
        "verified after each of {runs} runs of passes: {right} without a fault\n"
    )
}

// Writes how much is live.
fn write_contents(report: &mut String, contents: &ContentsCount) -> Result<(), AllocError> {
    let (operations, blocks) = (contents.operations, contents.blocks);
    let (arguments, edges) = (contents.arguments, contents.edges);
    write!(
        report,
        " {operations:>10} {blocks:>8} {arguments:>9} {edges:>8}"
    )
}

// Writes what was live before and after a pass, and what it made and erased.
fn write_round(
    report: &mut String,
    name: &str,
    round: usize,
    row: &RoundRecord,
) -> Result<(), AllocError> {
    write!(report, "{round:>5} {name:<14} before")?;
    write_contents(report, &row.compared.before)?;
    write!(report, "\n      {name:<14} after ")?;
    write_contents(report, &row.compared.after)?;
    let rewrites = &row.compared.rewrites;
    let (made, erased) = (rewrites.made, rewrites.erased);
    let (blocks, arguments) = (rewrites.blocks, rewrites.arguments);
    write!(
        report,
        "\n      made {made} operations, erased {erased}, {blocks} blocks, {arguments} arguments\n"
    )
}

// Writes what was live before and after each pass, round by round, and what it made and erased.
fn write_counts<N: Notation, C: Progress + Drop>(
    report: &mut String,
    passes: &[InstrumentedStep<N, C>],
) -> Result<(), AllocError> {
    report.push_str("round pass                  operations   blocks arguments    edges\n")?;
    for pass in passes {
        for (i, row) in pass.run_record().rows.iter().enumerate() {
            write_round(report, pass.pass_name(), i.saturating_add(1), row)?;
        }
    }
    Ok(())
}

// How many runs a pass had, and how many nanoseconds these took.
fn runs_and_nanos(rows: &[RoundRecord]) -> (usize, u128) {
    let mut runs: usize = 0;
    let mut nanos: u128 = 0;
    for row in rows {
        runs = runs.saturating_add(row.runs);
        nanos = nanos.saturating_add(row.nanos);
    }
    (runs, nanos)
}

// Writes how often each pass ran, and its time in milliseconds.
fn write_times<N: Notation, C: Progress + Drop>(
    report: &mut String,
    passes: &[InstrumentedStep<N, C>],
) -> Result<(), AllocError> {
    report.push_str("pass             runs milliseconds\n")?;
    for pass in passes {
        let (runs, nanos) = runs_and_nanos(&pass.run_record().rows);
        let (millis, micros) = (nanos / 1_000_000, nanos / 1_000 % 1_000);
        let name = pass.pass_name();
        write!(report, "{name:<14} {runs:>6} {millis:>8}.{micros:03}\n")?;
    }
    Ok(())
}

/// What is reported about the runs of the passes: what verifying found, counts and times.
///
/// Errors: allocation failure. Cost: linear in the report.
pub fn report_of<N: Notation, C: Progress + Drop>(
    alloc: Global,
    passes: &[InstrumentedStep<N, C>],
    options: &ModuleOptions,
) -> Result<String, AllocError> {
    let mut report = String::new(alloc);
    if options.verifies {
        write_faults(&mut report, passes)?;
    }
    if options.counts {
        write_counts(&mut report, passes)?;
    }
    if options.times {
        write_times(&mut report, passes)?;
    }
    Ok(report)
}
