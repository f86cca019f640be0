//! Where runs lose a number that they compute.
use crate::run_report::{FinishedRun, run_noted};
use crate::shown::Runnable;
use pliron_core::{Context, Operation, Ptr};
use pliron_evaluator::evaluator::{Datum, NotedMove, Sight};
use pliron_laws::OptError;
use pliron_show_places::{SourceMark, TextPart, mark_source_as, place_of};
use std::alloc::{AllocError, Global};

/// The operation that gave no number first, and why.
#[derive(Drop)]
struct LostNumber {
    op: Ptr<Operation>,
    label: String,
}

// The first of these moves that lost a number.
fn first_lost<N: Runnable>(
    alloc: Global,
    ctx: &Context,
    moves: &[NotedMove],
) -> Result<Option<LostNumber>, AllocError> {
    for noted in moves {
        if !noted.op.is_live(ctx) {
            continue;
        }
        if let Some(input) = &noted.input
            && let Some(label) = N::lost_number(ctx, noted.op, input)
        {
            let label = String::from_str(alloc, label)?;
            return Ok(Some(LostNumber {
                op: noted.op,
                label,
            }));
        }
    }
    Ok(None)
}

// The first move of the run that lost a number: its moves are noted, or else it is run again to note them.
fn lost_number<N: Runnable>(
    alloc: Global,
    ctx: &Context,
    run: &FinishedRun,
) -> Result<Option<LostNumber>, OptError> {
    if run.options.trace || run.options.json {
        return Ok(first_lost::<N>(alloc, ctx, &run.notes.moves)?);
    }
    let (notes, _) = run_noted::<N>(alloc, ctx, run)?;
    Ok(first_lost::<N>(alloc, ctx, &notes.moves)?)
}

/// Whether the run ended with a value that is nothing. Cost: linear in the values.
pub(crate) fn ends_with_nothing(sight: &Sight) -> bool {
    match sight {
        Sight::Ended(values, _) => values.iter().any(|value| matches!(value, Datum::Empty)),
        _ => false,
    }
}

/// A mark under the operation that lost a number first, and why; empty where none did. Errors: allocation failure. Cost: that
/// of running it again.
pub(crate) fn lost_number_text<N: Runnable>(
    alloc: Global,
    ctx: &Context,
    run: &FinishedRun,
    places: &[TextPart],
) -> Result<String, OptError> {
    let Some(lost) = lost_number::<N>(alloc, ctx, run)? else {
        return Ok(String::new(alloc));
    };
    let Some(place) = place_of(places, run.root, lost.op) else {
        return Ok(String::new(alloc));
    };
    let mark = SourceMark {
        message: "no number comes of this",
        label: lost.label.as_str(),
        name: run.source.name,
        start: place.start,
        len: place.len,
    };
    Ok(mark_source_as(alloc, "note", run.source.text, &mark)?)
}
