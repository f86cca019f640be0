//! Runs before and after passes.
ghost use Rattle.std.specs.Prelude.{◌≡◌, map, IfOk, IfSome, string_bytes};
ghost use Rattle.pliron_core.specs.Writes.{no_tree};
ghost use Rattle.pliron_evaluator.specs.Evaluator.{datum_of_value};
ghost use Rattle.pliron_driver.specs.Ran.{RunsAlone};
ghost use Rattle.pliron_show_commands.specs.Asked.{EndsByPlannedRuns, EndsByListWord};
ghost use Rattle.pliron_show_commands.specs.Compared.{AreSightsSeen, EndsCompared, EndsWith, are_same_sights, are_same_so_far, effects_of_sight, is_cut_off as was_cut_off, is_start as is_start_of};
ghost use Rattle.pliron_show_commands.specs.Likeness.{EndsLike, IsLikeness, last_line, status_for};

use crate::failure::CommandFailure;
use crate::optimising::misspelling_outcome;
use crate::outcome::{Outcome, failure_outcome, no_passes_outcome};
use crate::refusal::refused_outcome;
use pliron_core::Context;
use pliron_driver::{Document, run_alone};
use pliron_driver_instrument::{
    InstrumentationOptions, InstrumentedPipeline, InstrumentedStep, PipelineText, PlanError,
    Timeless, instrumented_pipeline,
};
use pliron_evaluator::evaluator::{Datum, Notes, Sight};
use pliron_laws::OptError;
use pliron_pass::{BenchFactKind, Pass};
use pliron_show::{RunOptions, Runnable, read_shown, sight_text};
use pliron_show_places::Source;
use std::alloc::{AllocError, Global};

/// The options of runs before and after passes.
#[derive(Clone, Copy)]
pub struct CompareOptions<'w> {
    /// What the runs are given.
    pub run: RunOptions<'w>,
    /// The passes, as a word.
    pub pipeline: &'w str,
}

/// What is seen of a run before passes, and of one after them.
#[derive(Drop)]
pub struct Sights {
    pub before: Sight,
    pub after: Sight,
}

/// What is seen of the runs of a text, and what it says beside the tree.
#[derive(Drop)]
pub struct SeenRuns<S> {
    pub sights: Sights,
    pub sheet: S,
}

/// How two runs compare.
#[derive(Clone, Copy)]
enum Likeness {
    /// The same is seen of both, up to their ends.
    Same,
    /// One was cut off, and nothing that was seen until then differs.
    SoFar,
    Different,
}

// The effects of a run, latest first.
fn effects(sight: &Sight) -> &[Datum]
    ensures { result.now ≡ effects_of_sight sight.now }
{
    match sight {
        Sight::Ended(_, effects) | Sight::Trapped(effects) | Sight::Reached(effects) => effects,
    }
}

// Whether the run was cut off.
fn is_cut_off(sight: &Sight) -> bool
    ensures { result ≡ was_cut_off sight.now }
{
    match sight {
        Sight::Reached(_) => true,
        Sight::Ended(_, _) | Sight::Trapped(_) => false,
    }
}

// Whether both runs ended or trapped, and the same is seen of them.
#[tactic(auto, using(crate::proofs::CommandLemmas::cut_before, crate::proofs::CommandLemmas::cut_after, crate::proofs::CommandLemmas::compared_whole))]
fn is_same(sights: &Sights) -> bool
    ensures { result ≡ are_same_sights ⟦<Sight as PartialEq>⟧.eq sights.now }
{
    if is_cut_off(&sights.before) {
        return false;
    }
    if is_cut_off(&sights.after) {
        return false;
    }
    sights.before == sights.after
}

// Whether the one run was cut off, and the other began with the effects that were seen of it.
#[tactic(auto, using(crate::proofs::CommandLemmas::start_whole, crate::proofs::CommandLemmas::start_cut))]
fn is_start(one: &Sight, other: &Sight) -> bool
    ensures { result ≡ is_start_of ⟦<Datum as PartialEq>⟧.eq one.now other.now }
{
    if is_cut_off(one) {
        return effects(other).ends_with(effects(one));
    }
    false
}

// Whether a run was cut off, and nothing that was seen until then differs.
#[tactic(auto, using(crate::proofs::CommandLemmas::so_far_first, crate::proofs::CommandLemmas::so_far_second))]
fn is_same_so_far(sights: &Sights) -> bool
    ensures { result ≡ are_same_so_far ⟦<Datum as PartialEq>⟧.eq sights.now }
{
    if is_start(&sights.before, &sights.after) {
        return true;
    }
    is_start(&sights.after, &sights.before)
}

// How the runs compare.
fn likeness_of(sights: &Sights) -> Likeness
    ensures { IsLikeness ⟦<Sight as PartialEq>⟧.eq ⟦<Datum as PartialEq>⟧.eq sights.now result }
{
    if is_same(sights) {
        return Likeness::Same;
    }
    if is_same_so_far(sights) {
        return Likeness::SoFar;
    }
    Likeness::Different
}

/// Reads a text of any notation into the context, and answers what is seen of a run of its operation, and of one after
/// the passes of the pipeline, with its sheet; `None` for an unreadable text.
///
/// Asks that the context is empty. Errors: those of the passes; allocation failure. Cost: reading, two runs, and the
/// passes.
#[tactic(auto, using(crate::proofs::CommandLemmas::are_seen))]
pub fn compare_text<N: Runnable>(
    alloc: Global,
    text: &[u8],
    options: &RunOptions,
    pipeline: &mut InstrumentedPipeline<N, Timeless>,
    ctx: &mut Context,
) -> Result<Option<SeenRuns<N::Sheet>>, OptError>
    requires { ctx.old.tree ≡ no_tree }
    ensures { IfOk result (λ found. IfSome found (λ seen. AreSightsSeen N.reads N.D.meaning
        (map datum_of_value options.now.inputs.now) (map datum_of_value options.now.world.now)
        options.now.steps (RunsAlone ⟦<BenchFactKind as PartialEq>⟧.eq
        ⟦<InstrumentedPipeline<N, Timeless> as Pass>⟧.outcome pipeline.old) text.now seen.sights)) }
{
    let Some(document) = read_shown::<N>(alloc, text, ctx)? else {
        return Ok(None);
    };
    let Document { root, sheet } = document;
    let before = N::run_sight(alloc, root, ctx, options, &mut Notes::of_last(alloc))?;
    let _status = run_alone(alloc, pipeline, root, ctx)?;
    let after = N::run_sight(alloc, root, ctx, options, &mut Notes::of_last(alloc))?;
    Ok(Some(SeenRuns {
        sights: Sights { before, after },
        sheet,
    }))
}

// The last line of what is written.
fn line_of(likeness: Likeness) -> &'static str
    ensures { result.now ≡ last_line likeness }
{
    match likeness {
        Likeness::Same => "the same before and after\n",
        Likeness::SoFar => "the same as far as the runs went\n",
        Likeness::Different => "not the same\n",
    }
}

// What is seen: once where it is the same of both.
fn seen_text<N: Runnable>(
    alloc: Global,
    sights: &Sights,
    sheet: &N::Sheet,
    likeness: Likeness,
) -> Result<String, AllocError> {
    let before = sight_text::<N>(alloc, sheet, &sights.before)?;
    match likeness {
        Likeness::Same => Ok(before),
        Likeness::SoFar | Likeness::Different => {
            let after = sight_text::<N>(alloc, sheet, &sights.after)?;
            format!(in alloc; "before: {before}after: {after}")
        }
    }
}

// What is written of the runs: what is seen, and whether it is the same.
#[tactic(auto, using(crate::proofs::CommandLemmas::ends_with))]
fn comparison_text<N: Runnable>(
    alloc: Global,
    sights: &Sights,
    sheet: &N::Sheet,
    likeness: Likeness,
) -> Result<Vec<u8>, AllocError>
    ensures { IfOk result (λ text. EndsWith (last_line likeness) text.items) }
{
    let mut text = seen_text::<N>(alloc, sights, sheet, likeness)?;
    text.push_str(line_of(likeness))?;
    Ok(text.into_bytes())
}

// The exit status of a command that reports it.
fn status_of(likeness: Likeness) -> u8
    ensures { result ≡ status_for likeness }
{
    match likeness {
        Likeness::Same => 0,
        Likeness::SoFar => 3,
        Likeness::Different => 3,
    }
}

// The outcome of these runs.
#[tactic(auto, using(crate::proofs::CommandLemmas::reported_likeness))]
fn outcome_of<N: Runnable>(
    alloc: Global,
    sights: &Sights,
    sheet: &N::Sheet,
) -> Result<Outcome, AllocError>
    ensures { IfOk result (EndsLike ⟦<Sight as PartialEq>⟧.eq ⟦<Datum as PartialEq>⟧.eq sights.now) }
{
    let likeness = likeness_of(sights);
    Ok(Outcome {
        output: comparison_text::<N>(alloc, sights, sheet, likeness)?,
        report: String::new(alloc),
        status: status_of(likeness),
    })
}

// Compares runs before and after the passes of the pipeline, which are the plan's.
#[tactic(auto, using(crate::proofs::CommandLemmas::are_compared, crate::proofs::CommandLemmas::refused_so))]
fn compare_in<N: Runnable>(
    alloc: Global,
    source: &Source,
    options: &RunOptions,
    plan: &PipelineText,
    pipeline: &mut InstrumentedPipeline<N, Timeless>,
    ctx: &mut Context,
) -> Result<Outcome, AllocError>
    requires { ctx.old.tree ≡ no_tree }
    ensures { IfOk result (EndsCompared N.reads N.D.meaning (map datum_of_value options.now.inputs.now)
        (map datum_of_value options.now.world.now) options.now.steps N.faults
        ⟦<Sight as PartialEq>⟧.eq ⟦<Datum as PartialEq>⟧.eq (RunsAlone ⟦<BenchFactKind as PartialEq>⟧.eq
        ⟦<InstrumentedPipeline<N, Timeless> as Pass>⟧.outcome pipeline.old)
        source.now.text.now) }
{
    match compare_text(alloc, source.text, options, pipeline, ctx) {
        Ok(Some(seen)) => outcome_of::<N>(alloc, &seen.sights, &seen.sheet),
        Ok(None) => failure_outcome::<N>(alloc, CommandFailure::Text, source),
        Err(error) => refused_outcome::<N>(alloc, source, error, plan),
    }
}

// The same in a context of its own.
fn compare_with<N: Runnable>(
    alloc: Global,
    source: &Source,
    options: &RunOptions,
    plan: &PipelineText,
    pipeline: &mut InstrumentedPipeline<N, Timeless>,
) -> Result<Outcome, AllocError>
    ensures { IfOk result (EndsCompared N.reads N.D.meaning (map datum_of_value options.now.inputs.now)
        (map datum_of_value options.now.world.now) options.now.steps N.faults
        ⟦<Sight as PartialEq>⟧.eq ⟦<Datum as PartialEq>⟧.eq (RunsAlone ⟦<BenchFactKind as PartialEq>⟧.eq
        ⟦<InstrumentedPipeline<N, Timeless> as Pass>⟧.outcome pipeline.old)
        source.now.text.now) }
{
    let mut ctx = Context::new(alloc);
    compare_in(alloc, source, options, plan, pipeline, &mut ctx)
}

// Compares runs before and after the passes that the plan asks for.
#[tactic(auto, using(crate::proofs::CommandLemmas::is_planned, crate::proofs::CommandLemmas::no_passes))]
fn compare_by<N: Runnable>(
    alloc: Global,
    source: &Source,
    options: &RunOptions,
    plan: &PipelineText,
) -> Result<Outcome, AllocError>
    ensures { IfOk result (EndsByPlannedRuns ⟦<InstrumentedStep<N, Timeless> as Pass>⟧.name
        (λ pipeline. EndsCompared N.reads N.D.meaning (map datum_of_value options.now.inputs.now)
        (map datum_of_value options.now.world.now) options.now.steps N.faults ⟦<Sight as PartialEq>⟧.eq
        ⟦<Datum as PartialEq>⟧.eq (RunsAlone ⟦<BenchFactKind as PartialEq>⟧.eq
        ⟦<InstrumentedPipeline<N, Timeless> as Pass>⟧.outcome pipeline) source.now.text.now)
        plan.now.runs plan.now.nested (map (λ name. name.now) plan.now.names.items)) }
{
    let nothing = InstrumentationOptions::nothing();
    match instrumented_pipeline(alloc, plan, &nothing, Timeless)? {
        Some(mut pipeline) => compare_with::<N>(alloc, source, options, plan, &mut pipeline),
        None => no_passes_outcome(alloc),
    }
}

/// Runs the operation of a text, and again after the passes that the word asks for, and answers what is seen and
/// whether it is the same.
///
/// Statuses: 0 where both runs ended or trapped, and the same is seen of them; 1 where memory or the passes were
/// refused; 2 for a word that asks for no passes or an unreadable text; 3 where a run was cut off or something differs.
/// With 1 and 2 nothing is to be written to the output. Errors: allocation failure for what is reported. Cost: reading,
/// two runs by `evaluate_noting`, and the passes.
#[tactic(auto, using(crate::proofs::CommandLemmas::is_asked, crate::proofs::CommandLemmas::no_plan, crate::proofs::CommandLemmas::no_text))]
pub fn compare<N: Runnable>(
    alloc: Global,
    source: &Source,
    options: &CompareOptions,
) -> Result<Outcome, AllocError>
    ensures { IfOk result (EndsByListWord ⟦<InstrumentedStep<N, Timeless> as Pass>⟧.name
        (λ pipeline. EndsCompared N.reads N.D.meaning (map datum_of_value options.now.run.inputs.now)
        (map datum_of_value options.now.run.world.now) options.now.run.steps N.faults ⟦<Sight as PartialEq>⟧.eq
        ⟦<Datum as PartialEq>⟧.eq (RunsAlone ⟦<BenchFactKind as PartialEq>⟧.eq
        ⟦<InstrumentedPipeline<N, Timeless> as Pass>⟧.outcome pipeline) source.now.text.now)
        (N.faults source.now.text.now) options.now.pipeline.now) }
{
    match PipelineText::read(alloc, options.pipeline) {
        Ok(plan) => compare_by::<N>(alloc, source, &options.run, &plan),
        Err(PlanError::Word(fault)) => misspelling_outcome(alloc, options.pipeline, &fault),
        Err(PlanError::Memory) => failure_outcome::<N>(
            alloc,
            CommandFailure::Refused(OptError::Memory),
            source,
        ),
    }
}
