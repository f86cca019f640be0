//! What is reported of the work of passes: how much there was before and after each, and what each rewrote.
use crate::table::Table;
use pliron_driver::Notation;
use pliron_driver_instrument::{ContentsCount, InstrumentedStep, Progress, RoundRecord};
use pliron_show_places::JsonObject;
use std::alloc::{AllocError, Global};

/// What one pass did in one round.
#[derive(Clone, Copy)]
struct PassWork<'w> {
    round: usize,
    name: &'w str,
    row: &'w RoundRecord,
}

/// The column heads of the counts before and after.
static COUNTED: [&str; 8] = [
    "round",
    "pass        ",
    "runs",
    "changed",
    "operations",
    "blocks",
    "arguments",
    "edges",
];

/// What the column heads of the rewrites mean.
static KINDS: &str =
    "operations made, erased and moved; operands changed; blocks, arguments erased\n";

/// The column heads of the rewrites.
static REWRITTEN: [&str; 8] = [
    "round",
    "pass        ",
    "made",
    "erased",
    "moved",
    "operands",
    "blocks",
    "arguments",
];

// How many rounds the passes made over their operations.
fn rounds<N: Notation, C: Progress + Drop>(passes: &[InstrumentedStep<N, C>]) -> usize {
    match passes.first() {
        Some(pass) => pass.run_record().rows.len(),
        None => 0,
    }
}

// What each pass did, round by round.
fn work_in_order<'s, N: Notation, C: Progress + Drop>(
    alloc: Global,
    passes: &'s [InstrumentedStep<N, C>],
) -> Result<Vec<PassWork<'s>>, AllocError> {
    let mut works = Vec::new(alloc);
    for i in 0..rounds(passes) {
        for pass in passes {
            if let Some(row) = pass.run_record().rows.get(i) {
                works.push(PassWork {
                    round: i.saturating_add(1),
                    name: pass.pass_name(),
                    row,
                })?;
            }
        }
    }
    Ok(works)
}

// A row of column heads.
fn heads(alloc: Global, words: &[&str]) -> Result<Vec<String>, AllocError> {
    let mut row = Vec::new(alloc);
    for word in words {
        row.push(String::from_str(alloc, word)?)?;
    }
    Ok(row)
}

// A row that begins with the round and the pass.
fn start_row(alloc: Global, work: &PassWork) -> Result<Vec<String>, AllocError> {
    let mut row = Vec::new(alloc);
    row.push(format!(in alloc; "{}", work.round)?)?;
    row.push(format!(in alloc; "{:<12}", work.name)?)?;
    Ok(row)
}

// A row of the counts before and after.
fn count_row(alloc: Global, work: &PassWork) -> Result<Vec<String>, AllocError> {
    let mut row = start_row(alloc, work)?;
    row.push(format!(in alloc; "{}", work.row.runs)?)?;
    row.push(format!(in alloc; "{}", work.row.changed)?)?;
    let (before, after) = (&work.row.compared.before, &work.row.compared.after);
    for (was, is) in [
        (before.operations, after.operations),
        (before.blocks, after.blocks),
        (before.arguments, after.arguments),
        (before.edges, after.edges),
    ] {
        row.push(format!(in alloc; "{was} -> {is}")?)?;
    }
    Ok(row)
}

// A row of what was rewritten.
fn rewrite_row(alloc: Global, work: &PassWork) -> Result<Vec<String>, AllocError> {
    let mut row = start_row(alloc, work)?;
    let rewrites = &work.row.compared.rewrites;
    for count in [
        rewrites.made,
        rewrites.erased,
        rewrites.moved,
        rewrites.operands,
        rewrites.blocks,
        rewrites.arguments,
    ] {
        row.push(format!(in alloc; "{count}")?)?;
    }
    Ok(row)
}

// An object of JSON of how much there was. Errors: allocation failure.
fn counts_object(alloc: Global, counts: &ContentsCount) -> Result<String, AllocError> {
    let mut object = JsonObject::new(alloc);
    object.number("operations", counts.operations)?;
    object.number("blocks", counts.blocks)?;
    object.number("arguments", counts.arguments)?;
    object.number("edges", counts.edges)?;
    object.finish()
}

// Writes an object of JSON of what a pass did in a round.
fn write_object(alloc: Global, report: &mut String, work: &PassWork) -> Result<(), AllocError> {
    let compared = &work.row.compared;
    let mut object = JsonObject::new(alloc);
    object.number("round", work.round)?;
    object.words("pass", work.name)?;
    object.number("runs", work.row.runs)?;
    object.number("changed", work.row.changed)?;
    object.value("before", counts_object(alloc, &compared.before)?.as_str())?;
    object.value("after", counts_object(alloc, &compared.after)?.as_str())?;
    for (key, count) in [
        ("made", compared.rewrites.made),
        ("erased", compared.rewrites.erased),
        ("moved", compared.rewrites.moved),
        ("operandsChanged", compared.rewrites.operands),
        ("blocksErased", compared.rewrites.blocks),
        ("argumentsErased", compared.rewrites.arguments),
    ] {
        object.number(key, count)?;
    }
    object.write_line(report)
}

/// Writes the same as `write_statistics`, an object of JSON for each pass in each round.
///
/// Errors: allocation failure. Cost: linear in the rows.
pub fn write_json_statistics<N: Notation, C: Progress + Drop>(
    alloc: Global,
    report: &mut String,
    passes: &[InstrumentedStep<N, C>],
) -> Result<(), AllocError> {
    let works = work_in_order(alloc, passes)?;
    for work in &works {
        write_object(alloc, report, work)?;
    }
    Ok(())
}

/// Writes how much there was before and after each pass, and what each rewrote, round by round.
///
/// Errors: allocation failure. Cost: linear in the rows.
pub fn write_statistics<N: Notation, C: Progress + Drop>(
    alloc: Global,
    report: &mut String,
    passes: &[InstrumentedStep<N, C>],
) -> Result<(), AllocError> {
    let works = work_in_order(alloc, passes)?;
    let mut counts = Table::new(alloc);
    let mut rewrites = Table::new(alloc);
    counts.push(heads(alloc, &COUNTED)?)?;
    rewrites.push(heads(alloc, &REWRITTEN)?)?;
    for work in &works {
        counts.push(count_row(alloc, work)?)?;
        rewrites.push(rewrite_row(alloc, work)?)?;
    }
    counts.write(report)?;
    report.push_str(KINDS)?;
    rewrites.write(report)
}
