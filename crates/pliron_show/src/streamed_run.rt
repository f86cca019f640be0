//! Runs whose effects are reported while they go on.
ghost use Rattle.std.specs.Prelude.{◌≡◌};
ghost use Rattle.pliron_core.specs.Writes.{no_tree};

use crate::reading::read_shown;
use crate::run_report::{
    FinishedRun, RunOptions, RunReport, effects_text, end_of, notes_for, report_of, seen_text,
};
use crate::shown::Runnable;
use pliron_core::Context;
use pliron_driver::Document;
use pliron_evaluator::evaluator::{Notes, Sight};
use pliron_laws::OptError;
use pliron_show_places::Source;
use std::alloc::{AllocError, Global};

/// Receives the effects of a run as they come.
pub trait EffectSink {
    /// Takes more effects, each on a line; answers whether the next ones are wanted.
    fn accept(&mut self, lines: &[u8]) -> bool;
}

/// How many moves the first part of a run makes.
const FIRST_MOVES: usize = 4096;

/// The part of a run that is made next: each begins anew, and is four times as long as the one before.
#[derive(Clone, Copy)]
struct RunPart {
    /// The most moves of this part.
    moves: usize,
    /// How many bytes of the effects the sink was given.
    reported: usize,
}

// Whether the run is cut off by the moves of its part alone.
fn continues(sight: &Sight, options: &RunOptions, moves: usize) -> bool {
    match sight {
        Sight::Reached(effects) => moves < options.steps && effects.len() <= options.world.len(),
        _ => false,
    }
}

// The bytes behind so many.
fn bytes_behind(text: &String, reported: usize) -> &[u8] {
    text.as_bytes().get(reported..).unwrap_or(b"")
}

impl RunPart {
    // Gives the sink the effects that it wasn't given yet, and answers whether more are wanted.
    fn report_effects<N: Runnable, S: EffectSink>(
        &mut self,
        alloc: Global,
        sheet: &N::Sheet,
        sight: &Sight,
        is_json: bool,
        sink: &mut S,
    ) -> Result<bool, AllocError> {
        let text = effects_text::<N>(alloc, sheet, sight, is_json)?;
        let lines = bytes_behind(&text, self.reported);
        let is_heard = lines.is_empty() || sink.accept(lines);
        self.reported = text.len();
        Ok(is_heard)
    }

    // What is reported of the run that came to this end, but for the effects that the sink was given.
    fn report<N: Runnable>(
        self,
        alloc: Global,
        ctx: &Context,
        run: &FinishedRun,
        sheet: &N::Sheet,
    ) -> Result<RunReport, OptError> {
        let seen = seen_text::<N>(alloc, run, sheet)?;
        let rest = std::str::from_utf8(bytes_behind(&seen, self.reported)).unwrap_or("");
        Ok(RunReport {
            seen: String::from_str(alloc, rest)?,
            report: report_of::<N>(alloc, ctx, run, sheet)?,
            end: end_of(run.sight),
        })
    }
}

// What is reported of the run of the document's operation, which was read from the text, once its effects were given to
// the sink.
fn report_of_parts<N: Runnable, S: EffectSink>(
    alloc: Global,
    source: &Source,
    options: &RunOptions,
    document: &Document<N::Sheet>,
    ctx: &Context,
    sink: &mut S,
) -> Result<Option<RunReport>, OptError> {
    let root = document.root;
    let sheet = &document.sheet;
    let mut part = RunPart {
        moves: FIRST_MOVES.min(options.steps),
        reported: 0,
    };
    // Each turn makes more moves.
    for _ in 0..64 {
        let own = RunOptions {
            steps: part.moves,
            ..*options
        };
        let mut notes: Notes = notes_for(alloc, &own);
        let sight = N::run_sight(alloc, root, ctx, &own, &mut notes)?;
        let is_heard = part.report_effects::<N, S>(alloc, sheet, &sight, options.json, sink)?;
        if is_heard && continues(&sight, options, part.moves) {
            part.moves = part.moves.saturating_mul(4).min(options.steps);
            continue;
        }
        let run = FinishedRun {
            source,
            root,
            options: &own,
            notes: &notes,
            sight: &sight,
        };
        return Ok(Some(part.report::<N>(alloc, ctx, &run, sheet)?));
    }
    Ok(None)
}

/// What is reported of the run of a text's operation, but for its effects, which the sink is given as they come: at the
/// latest once the run made four times as many moves as before the effect. `None` for an unreadable text.
///
/// Errors: allocation failure. Cost: reading, and that of `evaluate_noting` for a third more moves than the run makes.
pub fn run_text_streamed<N: Runnable, S: EffectSink>(
    alloc: Global,
    source: &Source,
    options: &RunOptions,
    sink: &mut S,
) -> Result<Option<RunReport>, OptError> {
    let mut ctx = Context::new(alloc);
    run_streamed_in::<N, S>(alloc, source, options, &mut ctx, sink)
}

// The same in this context, which is empty.
fn run_streamed_in<N: Runnable, S: EffectSink>(
    alloc: Global,
    source: &Source,
    options: &RunOptions,
    ctx: &mut Context,
    sink: &mut S,
) -> Result<Option<RunReport>, OptError>
    requires { ctx.old.tree ≡ no_tree }
{
    match read_shown::<N>(alloc, source.text, ctx)? {
        Some(document) => report_of_parts::<N, S>(alloc, source, options, &document, ctx, sink),
        None => Ok(None),
    }
}
