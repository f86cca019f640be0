//! What is reported of a text whose operation isn't fit to run.
use crate::one_by_one::{PartViolation, all_unfit};
use crate::violation_message::ViolationText;
use pliron_core::{Context, Operation, Ptr};
use pliron_laws::OptError;
use pliron_show::ShownNotation;
use pliron_show_places::Source;
use std::alloc::Global;

/// How many violations are told at most.
const MOST_TOLD: usize = 100;

/// A violation, and after how many bytes of the text what is marked of it begins.
#[derive(Clone, Copy)]
struct PlacedViolation {
    start: usize,
    found: PartViolation,
}

// The operation that nothing holds around this one. Cost: its depth.
fn outermost(op: Ptr<Operation>, ctx: &Context) -> Ptr<Operation> {
    let mut at = op;
    for _ in 0..u64::MAX {
        if !at.is_live(ctx) {
            return at;
        }
        let Some(holder) = at.get_parent_op(ctx) else {
            return at;
        };
        at = holder;
    }
    at
}

// The violations in the order of the text. Errors: allocation failure. Cost: n log n for n violations.
fn in_order<N: ShownNotation>(
    text: &ViolationText,
    found: &[PartViolation],
    ctx: &Context,
) -> Result<Vec<PlacedViolation>, OptError> {
    let mut placed = Vec::new(text.alloc);
    for violation in found {
        let mark = text.mark::<N>(ctx, violation.part, &violation.violation);
        placed.push(PlacedViolation {
            start: mark.map_or(0, |mark| mark.start),
            found: *violation,
        })?;
    }
    placed.sort_by_key(|violation| violation.start)?;
    Ok(placed)
}

/// The messages for all that keeps the operation around this one, or each part inside it, from being fit to run, in the
/// order of the text, as far as there are a hundred, and then how many more there are. The operation was read from the
/// text into an empty context.
///
/// Errors: allocation failure. Cost: that of `all_unfit`, n log n for n violations, and that of `violation_message` for
/// each that is told.
pub(crate) fn unfit_report<N: ShownNotation>(
    alloc: Global,
    source: &Source,
    op: Ptr<Operation>,
    ctx: &Context,
) -> Result<String, OptError> {
    let mut report = String::new(alloc);
    let root = outermost(op, ctx);
    if !root.is_live(ctx) {
        return Ok(report);
    }
    let parts = N::parts(alloc, source.text)?;
    let text = ViolationText {
        alloc,
        source,
        parts: &parts,
    };
    let found = all_unfit::<N::D>(alloc, root, ctx)?;
    let placed = in_order::<N>(&text, &found, ctx)?;
    for next in placed.iter().take(MOST_TOLD) {
        let message = text.violation::<N>("error", next.found.part, &next.found.violation, ctx)?;
        report.push_str(message.as_str())?;
    }
    if placed.len() > MOST_TOLD {
        let more = placed.len() - MOST_TOLD;
        write!(report, "note: {more} more are wrong, which aren't told\n")?;
    }
    Ok(report)
}
