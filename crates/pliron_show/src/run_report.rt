//! Runs, as users see them.
ghost use Rattle.std.specs.Prelude.{◌≡◌, map, IfOk, string_bytes};
ghost use Rattle.pliron_core.specs.Writes.{no_tree};
ghost use Rattle.pliron_laws.specs.Machine.{run, sight_after as sight_seen};
ghost use Rattle.pliron_evaluator.specs.Evaluator.{datum_of_value, sight_of};
ghost use Rattle.pliron_show.specs.Ends.{SaysEnd, end_words};

use crate::json_run::{json_text, move_object, write_effect_objects};
use crate::lost_number::{ends_with_nothing, lost_number_text};
use crate::reading::read_shown;
use crate::shown::Runnable;
use crate::trap_reason::{TrapReason, reason_by_kind, reason_of};
use pliron_core::{Context, Operation, Ptr};
use pliron_driver::Document;
use pliron_evaluator::evaluator::{
    Datum, Evaluate, NotedMove, Notes, RunInputs, Sight, evaluate_noting,
};
use pliron_laws::OptError;
use pliron_role_runs::all_copies;
use pliron_show_places::{
    Source, SourceMark, TextPart, mark_source_as, operation_places, place_of, push_bytes,
};
use std::alloc::{AllocError, Global};

/// What a run is given.
#[derive(Clone, Copy)]
pub struct RunOptions<'w> {
    /// The values that the operation gets.
    pub inputs: &'w [Datum],
    /// What the world answers to its effects, in order.
    pub world: &'w [Datum],
    /// The most moves that it makes.
    pub steps: usize,
    /// Whether each move is reported.
    pub trace: bool,
    /// Whether what is seen, and each move, is an object of JSON on a line.
    pub json: bool,
}

// Writes the data of a list, each after a blank.
fn write_data<N: Runnable>(
    alloc: Global,
    text: &mut String,
    sheet: &N::Sheet,
    data: &[Datum],
) -> Result<(), AllocError> {
    for i in 0..data.len() {
        let is_listed = i > 0 && N::has_worded_data();
        text.push_str(if is_listed { ", " } else { " " })?;
        N::write_datum(alloc, text, sheet, &data[i])?;
    }
    Ok(())
}

// Writes the effects, of which the latest is first, each on a line.
fn write_effects<N: Runnable>(
    alloc: Global,
    text: &mut String,
    sheet: &N::Sheet,
    effects: &[Datum],
) -> Result<(), AllocError> {
    for effect in effects.iter().rev() {
        text.push_str("effect ")?;
        N::write_effect(alloc, text, sheet, effect)?;
        text.push_str("\n")?;
    }
    Ok(())
}

// The effects of a run, each on a line, as they came, as objects of JSON or in words. Errors: allocation failure. Cost:
// linear in them.
pub(crate) fn effects_text<N: Runnable>(
    alloc: Global,
    sheet: &N::Sheet,
    sight: &Sight,
    is_json: bool,
) -> Result<String, AllocError> {
    let mut text = String::new(alloc);
    match sight {
        Sight::Ended(_, effects) | Sight::Trapped(effects) | Sight::Reached(effects) => {
            if is_json {
                write_effect_objects::<N>(alloc, &mut text, sheet, effects)?;
            } else {
                write_effects::<N>(alloc, &mut text, sheet, effects)?;
            }
        }
    }
    Ok(text)
}

// How the line begins that says how a run ended.
fn end_of_sight(sight: &Sight) -> &'static str
    ensures { result.now ≡ end_words sight.now }
{
    match sight {
        Sight::Ended(_, _) => "ended with",
        Sight::Trapped(_) => "trapped",
        Sight::Reached(_) => "made no further move: steps or the world's answers were used up",
    }
}

// What comes behind that: the values that a run ended with, each after a blank.
fn rest_of_sight<N: Runnable>(
    alloc: Global,
    sheet: &N::Sheet,
    sight: &Sight,
) -> Result<String, AllocError> {
    let mut text = String::new(alloc);
    match sight {
        Sight::Ended(values, _) => {
            if values.is_empty() {
                text.push_str(" nothing")?;
            }
            write_data::<N>(alloc, &mut text, sheet, values)?;
        }
        Sight::Trapped(_) | Sight::Reached(_) => {}
    }
    text.push_str("\n")?;
    Ok(text)
}

/// What is seen of a run: a line for each effect, as they came, and one that says how it ended.
///
/// Errors: allocation failure. Cost: linear in what is seen.
#[tactic(auto, using(crate::proofs::EndLemmas::says_end))]
pub fn sight_text<N: Runnable>(
    alloc: Global,
    sheet: &N::Sheet,
    sight: &Sight,
) -> Result<String, AllocError>
    ensures { IfOk result (λ text. SaysEnd sight.now (string_bytes text)) }
{
    let mut text = effects_text::<N>(alloc, sheet, sight, false)?;
    let rest = rest_of_sight::<N>(alloc, sheet, sight)?;
    text.push_str(end_of_sight(sight))?;
    text.push_str(rest.as_str())?;
    Ok(text)
}

/// How a run came to its end.
#[derive(Clone, Copy, Debug, Drop, PartialEq, Eq)]
pub enum End {
    /// It ended with values.
    Ended,
    /// It trapped.
    Trapped,
    /// The steps or the world's answers were used up.
    Stopped,
}

/// What is reported of a run.
#[derive(Drop)]
pub struct RunReport {
    /// Its effects as they came, and how it ended.
    pub seen: String,
    /// Its moves, where the options ask for them, and a mark under the operation that made the last one where the run
    /// didn't end with values: why it trapped, or what cut it off.
    pub report: String,
    pub end: End,
}

/// How the run of which this is seen came to its end. Cost: constant.
pub fn end_of(sight: &Sight) -> End {
    match sight {
        Sight::Ended(_, _) => End::Ended,
        Sight::Trapped(_) => End::Trapped,
        Sight::Reached(_) => End::Stopped,
    }
}

/// What is seen of the run of the operation in this dialect, with notes of its moves. Errors: allocation failure. Cost:
/// that of `evaluate_noting`.
pub fn evaluated_sight<D: Evaluate>(
    alloc: Global,
    root: Ptr<Operation>,
    ctx: &Context,
    options: &RunOptions,
    notes: &mut Notes,
) -> Result<Sight, AllocError>
    ensures { IfOk result (λ sight. sight_of sight ≡ sight_seen
        (run D.meaning ctx.now.tree root (map datum_of_value options.now.inputs.now)
        (map datum_of_value options.now.world.now) options.now.steps)) }
{
    let inputs = all_copies(alloc, options.inputs)?;
    let world = all_copies(alloc, options.world)?;
    let given = RunInputs {
        inputs,
        world,
        fuel: options.steps,
    };
    evaluate_noting::<D>(alloc, ctx, root, given, notes)
}

// Writes a move: where its operation is, how it is written, and the data that it takes.
fn write_move<N: Runnable>(
    alloc: Global,
    report: &mut String,
    source: &Source,
    sheet: &N::Sheet,
    place: Option<TextPart>,
    noted: &NotedMove,
) -> Result<(), AllocError> {
    if let Some(place) = place {
        write!(report, "{}:{} ", place.line, place.column)?;
        push_bytes(report, source.text, place.start, place.len)?;
    }
    match &noted.input {
        Some(input) if !input.is_empty() => {
            report.push_str(" <-")?;
            write_data::<N>(alloc, report, sheet, input)?;
        }
        _ => {}
    }
    report.push_str("\n")
}

// Writes each move that is noted, where the options ask for it.
fn write_moves<N: Runnable>(
    alloc: Global,
    report: &mut String,
    run: &FinishedRun,
    sheet: &N::Sheet,
    places: &[TextPart],
) -> Result<(), AllocError> {
    if !run.options.trace {
        return Ok(());
    }
    for noted in &run.notes.moves {
        let place = place_of(places, run.root, noted.op);
        if run.options.json {
            let object = move_object::<N>(alloc, run.source, sheet, place, noted)?;
            object.write_line(report)?;
        } else {
            write_move::<N>(alloc, report, run.source, sheet, place, noted)?;
        }
    }
    Ok(())
}

/// The most moves that are noted to find why the last one trapped.
const MOST_NOTED: usize = 300_000;

/// A run: its operation, which was read from the source, and what was asked, noted and seen.
#[derive(Clone, Copy)]
pub(crate) struct FinishedRun<'r> {
    pub(crate) source: &'r Source<'r>,
    pub(crate) root: Ptr<Operation>,
    pub(crate) options: &'r RunOptions<'r>,
    pub(crate) notes: &'r Notes,
    pub(crate) sight: &'r Sight,
}

// What is seen of the run, in words or as objects of JSON. Errors: allocation failure. Cost: linear in what is seen.
pub(crate) fn seen_text<N: Runnable>(
    alloc: Global,
    run: &FinishedRun,
    sheet: &N::Sheet,
) -> Result<String, AllocError> {
    if run.options.json {
        json_text::<N>(alloc, sheet, run.sight, run.notes.moves.len())
    } else {
        sight_text::<N>(alloc, sheet, run.sight)
    }
}

/// What is reported of the last move of a run that didn't end with values.
#[derive(Drop)]
struct LastMove {
    severity: &'static str,
    message: &'static str,
    label: String,
    /// Whether what it branched on was no number.
    lacks_number: bool,
}

// The run again, up to so many moves, each of which is noted, and what is seen of it. Errors: allocation failure. Cost: that
// of the run.
pub(crate) fn run_noted<N: Runnable>(
    alloc: Global,
    ctx: &Context,
    run: &FinishedRun,
) -> Result<(Notes, Sight), AllocError> {
    let mut notes = Notes::of_all(alloc);
    let options = RunOptions {
        steps: run.options.steps.min(MOST_NOTED),
        ..*run.options
    };
    let sight = N::run_sight(alloc, run.root, ctx, &options, &mut notes)?;
    Ok((notes, sight))
}

// Why the run trapped: its moves are noted, or else it is run again to note them.
fn trap_reason<N: Runnable>(
    alloc: Global,
    ctx: &Context,
    run: &FinishedRun,
) -> Result<TrapReason, OptError> {
    if run.options.trace || run.options.json {
        return reason_of::<N>(alloc, ctx, &run.notes.moves);
    }
    let (notes, sight) = run_noted::<N>(alloc, ctx, run)?;
    match sight {
        Sight::Trapped(_) => reason_of::<N>(alloc, ctx, &notes.moves),
        _ => match run.notes.last {
            Some(op) => reason_by_kind::<N>(alloc, ctx, op),
            None => Ok(TrapReason::Unknown),
        },
    }
}

// What is reported of the run's last move, where the run didn't end with values.
fn last_move<N: Runnable>(
    alloc: Global,
    ctx: &Context,
    run: &FinishedRun,
) -> Result<Option<LastMove>, OptError> {
    Ok(match run.sight {
        Sight::Ended(_, _) => None,
        Sight::Trapped(_) => {
            let reason = trap_reason::<N>(alloc, ctx, run)?;
            Some(LastMove {
                severity: "error",
                message: "the run trapped",
                label: reason.label(alloc)?,
                lacks_number: reason == TrapReason::NoNumber,
            })
        }
        Sight::Reached(effects) => Some(LastMove {
            severity: "note",
            message: "the run was cut off",
            label: cut_label(alloc, run.options, effects)?,
            lacks_number: false,
        }),
    })
}

// What cut off the run with these effects.
fn cut_label(alloc: Global, options: &RunOptions, effects: &[Datum]) -> Result<String, AllocError> {
    if effects.len() > options.world.len() {
        return format!(in alloc; "the world has no answer to effect {}", effects.len());
    }
    format!(in alloc; "the {} moves that it may make were made", options.steps)
}

// What is reported beside what is seen: the moves that are noted, and a mark under the operation that made the last one
// where the run didn't end with values; and one under the operation that lost a number first, where the run ended with
// nothing for a value, or branched on that. Errors: allocation failure. Cost: linear in the text and the moves, and where
// the run trapped or lost a number that of running it again.
pub(crate) fn report_of<N: Runnable>(
    alloc: Global,
    ctx: &Context,
    run: &FinishedRun,
    sheet: &N::Sheet,
) -> Result<String, OptError> {
    let parts = N::parts(alloc, run.source.text)?;
    let places = operation_places(alloc, run.source.text, &parts)?;
    let mut report = String::new(alloc);
    write_moves::<N>(alloc, &mut report, run, sheet, &places)?;
    let place = match run.notes.last {
        Some(op) => place_of(&places, run.root, op),
        None => None,
    };
    let last = last_move::<N>(alloc, ctx, run)?;
    if let Some(last) = &last
        && let Some(place) = place
    {
        let mark = SourceMark {
            message: last.message,
            label: last.label.as_str(),
            name: run.source.name,
            start: place.start,
            len: place.len,
        };
        let marked = mark_source_as(alloc, last.severity, run.source.text, &mark)?;
        report.push_str(marked.as_str())?;
    }
    if ends_with_nothing(run.sight) || last.is_some_and(|last| last.lacks_number) {
        let lost = lost_number_text::<N>(alloc, ctx, run, &places)?;
        report.push_str(lost.as_str())?;
    }
    Ok(report)
}

/// What is reported of the run of a text's operation; `None` for an unreadable text.
///
/// Errors: allocation failure. Cost: reading, and that of `evaluate_noting`, twice where the run trapped.
pub fn run_text<N: Runnable>(
    alloc: Global,
    source: &Source,
    options: &RunOptions,
) -> Result<Option<RunReport>, OptError> {
    let mut ctx = Context::new(alloc);
    run_text_in::<N>(alloc, source, options, &mut ctx)
}

// The same in this context, which is empty.
fn run_text_in<N: Runnable>(
    alloc: Global,
    source: &Source,
    options: &RunOptions,
    ctx: &mut Context,
) -> Result<Option<RunReport>, OptError>
    requires { ctx.old.tree ≡ no_tree }
{
    let Some(document) = read_shown::<N>(alloc, source.text, ctx)? else {
        return Ok(None);
    };
    Ok(Some(report_of_run::<N>(alloc, source, options, &document, ctx)?))
}

// The notes that the options ask for. Cost: constant.
pub(crate) fn notes_for(alloc: Global, options: &RunOptions) -> Notes {
    if options.trace || options.json {
        Notes::of_all(alloc)
    } else {
        Notes::of_last(alloc)
    }
}

// What is reported of the run of the document's operation, which was read from the text.
fn report_of_run<N: Runnable>(
    alloc: Global,
    source: &Source,
    options: &RunOptions,
    document: &Document<N::Sheet>,
    ctx: &Context,
) -> Result<RunReport, OptError> {
    let root = document.root;
    let mut notes = notes_for(alloc, options);
    let sight = N::run_sight(alloc, root, ctx, options, &mut notes)?;
    let run = FinishedRun {
        source,
        root,
        options,
        notes: &notes,
        sight: &sight,
    };
    let report = report_of::<N>(alloc, ctx, &run, &document.sheet)?;
    let seen = seen_text::<N>(alloc, &run, &document.sheet)?;
    Ok(RunReport {
        seen,
        report,
        end: end_of(&sight),
    })
}
