//! What is reported of the runs of passes: trees and what verifying finds after each, counts, and times.
use crate::statistics::{write_json_statistics, write_statistics};
use pliron_core::IRStatus;
use pliron_driver::Notation;
use pliron_driver_instrument::{InstrumentedStep, Progress, RoundRecord, RunNote};
use pliron_show_places::pretty;
use std::alloc::{AllocError, Global};

/// What is reported of the runs of passes.
#[derive(Clone, Copy)]
pub struct ReportOptions {
    /// Whether trees are printed over several lines.
    pub is_pretty: bool,
    /// Whether what verifying found is reported.
    pub faults: bool,
    /// Whether counts are reported, and whether times are.
    pub counts: bool,
    pub times: bool,
    /// Whether the counts are objects of JSON.
    pub is_json: bool,
}

/// A note, and the name of its pass.
#[derive(Clone, Copy)]
struct NamedNote<'n> {
    name: &'n str,
    note: &'n RunNote,
}

// The notes of all passes, in the order of the runs.
fn notes_in_order<'s, N: Notation, C: Progress + Drop>(
    alloc: Global,
    passes: &'s [InstrumentedStep<N, C>],
) -> Result<Vec<NamedNote<'s>>, AllocError> {
    let mut notes = Vec::new(alloc);
    for pass in passes {
        for note in &pass.run_record().notes {
            notes.push(NamedNote {
                name: pass.pass_name(),
                note,
            })?;
        }
    }
    notes.sort_unstable_by_key(|named| named.note.number);
    Ok(notes)
}

// Whether the tree changed, in a word.
fn status_word(status: IRStatus) -> &'static str {
    match status {
        IRStatus::Changed => "changed",
        IRStatus::Unchanged => "unchanged",
    }
}

// Writes the operation after a run, over several lines or on one.
fn write_printed(
    alloc: Global,
    report: &mut String,
    named: &NamedNote,
    printed: &str,
    is_pretty: bool,
) -> Result<(), AllocError> {
    let run = named.note.number.saturating_add(1);
    let status = status_word(named.note.status);
    write!(report, "--- run {run}, after {}: {status}\n", named.name)?;
    if is_pretty {
        let laid = pretty(alloc, printed.as_bytes())?;
        report.push_str(std::str::from_utf8(&laid).unwrap_or(printed))?;
    } else {
        report.push_str(printed)?;
    }
    report.push_str("\n")
}

// Writes the operations after the runs after which they were printed.
fn write_trees(
    alloc: Global,
    report: &mut String,
    notes: &[NamedNote],
    is_pretty: bool,
) -> Result<(), AllocError> {
    for named in notes {
        if let Some(printed) = &named.note.printed {
            write_printed(alloc, report, named, printed.as_str(), is_pretty)?;
        }
    }
    Ok(())
}

// Writes what verifying found after each run, and how often it found nothing.
fn write_faults(report: &mut String, notes: &[NamedNote]) -> Result<(), AllocError> {
    let mut right: usize = 0;
    for named in notes {
        match &named.note.fault {
            Some(fault) => {
                let run = named.note.number.saturating_add(1);
                let name = named.name;
                write!(
                    report,
                    "error: a fault after {name}, in run {run}: {fault}\n"
                )?;
            }
            None => right = right.saturating_add(1),
        }
    }
    let runs = notes.len();
    write!(
        report,
        "verified after each of {runs} runs of passes: {right} without a fault\n"
    )
}

// How many nanoseconds the runs of a pass took.
fn nanos_of(rows: &[RoundRecord]) -> u128 {
    let mut nanos: u128 = 0;
    for row in rows {
        nanos = nanos.saturating_add(row.nanos);
    }
    nanos
}

// Writes a time in milliseconds, and its share of the whole, in percent.
fn write_time(
    report: &mut String,
    name: &str,
    runs: usize,
    nanos: u128,
    whole: u128,
) -> Result<(), AllocError> {
    let (millis, micros) = (nanos / 1_000_000, nanos / 1_000 % 1_000);
    let share = nanos.saturating_mul(1_000).checked_div(whole).unwrap_or(0);
    let (percent, tenth) = (share / 10, share % 10);
    write!(
        report,
        "{name:<14} {runs:>6} {millis:>8}.{micros:03} {percent:>4}.{tenth}\n"
    )
}

// Writes the time of each pass, with its share of the time of all.
fn write_times<N: Notation, C: Progress + Drop>(
    report: &mut String,
    passes: &[InstrumentedStep<N, C>],
) -> Result<(), AllocError> {
    let mut whole: u128 = 0;
    let mut all: usize = 0;
    for pass in passes {
        whole = whole.saturating_add(nanos_of(&pass.run_record().rows));
    }
    report.push_str("pass             runs milliseconds  percent\n")?;
    for pass in passes {
        let rows = &pass.run_record().rows;
        let mut runs: usize = 0;
        for row in rows {
            runs = runs.saturating_add(row.runs);
        }
        all = all.saturating_add(runs);
        write_time(report, pass.pass_name(), runs, nanos_of(rows), whole)?;
    }
    write_time(report, "all", all, whole, whole)
}

/// Which pass was refused; empty, if none was. Errors: allocation failure. Cost: linear in the passes.
pub fn refused_note<N: Notation, C: Progress + Drop>(
    alloc: Global,
    passes: &[InstrumentedStep<N, C>],
) -> Result<String, AllocError> {
    let mut note = String::new(alloc);
    for pass in passes {
        if pass.run_record().refused.is_some() {
            write!(note, "note: it was the pass {}\n", pass.pass_name())?;
        }
    }
    Ok(note)
}

/// What is reported of the runs of the passes: trees as they were printed, what verifying found, counts and times.
///
/// Errors: allocation failure. Cost: n log n for n runs of which something is noted, and linear in what is reported.
pub fn report_of<N: Notation, C: Progress + Drop>(
    alloc: Global,
    passes: &[InstrumentedStep<N, C>],
    wanted: &ReportOptions,
) -> Result<String, AllocError> {
    let mut report = String::new(alloc);
    let notes = notes_in_order(alloc, passes)?;
    write_trees(alloc, &mut report, &notes, wanted.is_pretty)?;
    if wanted.faults {
        write_faults(&mut report, &notes)?;
    }
    if wanted.counts && wanted.is_json {
        write_json_statistics(alloc, &mut report, passes)?;
    } else if wanted.counts {
        write_statistics(alloc, &mut report, passes)?;
    }
    if wanted.times {
        write_times(&mut report, passes)?;
    }
    Ok(report)
}
