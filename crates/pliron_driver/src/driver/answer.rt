//! What passes make of a text.
ghost use Rattle.std.specs.Prelude.{◌≡◌, ◌++◌, IfOk, IfSome};
ghost use Rattle.pliron_core.specs.Tree.{IsLive};
ghost use Rattle.pliron_core.specs.Changes.{IsInsideChange, IsSameTree};
ghost use Rattle.pliron_core.specs.Writes.{no_tree};
ghost use Rattle.pliron_core.specs.declared.attrs.IRStatus.TheVariants.{Unchanged};
ghost use Rattle.pliron_laws.specs.Linked.{IsWellLinked};
ghost use Rattle.pliron_pass.specs.Headline.{DoAsBefore};
ghost use Rattle.pliron_driver.specs.Answered.{IsOptimised, status_line};
ghost use Rattle.pliron_driver.specs.Ran.{RunsAlone};

use super::notation::{Notation, TextFailure};
use super::observer::{NoObserver, Observer};
use pliron_core::{Context, IRStatus, Operation, Ptr};
use pliron_laws::OptError;
use pliron_pass::{AnalysisManager, BenchFactKind, BenchFacts, Pass};
use pliron_pass_pipeline::{
    PassPipeline, PassStep, Pipeline, Step, pipelines_report_accurately, run_pipeline,
};
use std::alloc::{AllocError, Global};

/// What passes made of a text: their tree printed, and whether it changed.
#[derive(Drop)]
pub struct OptimisedText {
    pub printed: Vec<u8>,
    pub status: IRStatus,
}

/// Runs the pipeline once on the operation, with nothing configured and nothing cached.
///
/// Asks that the operation is live and well linked. Errors: those of the passes; allocation failure, after some whole
/// rewrites. Cost: that of the passes.
pub fn run_alone<S: Step>(
    alloc: Global,
    pipeline: &mut Pipeline<S>,
    root: Ptr<Operation>,
    ctx: &mut Context,
) -> Result<IRStatus, OptError>
    requires live { IsLive ctx.old.tree root }
    requires linked { IsWellLinked S.D.meaning ctx.old.tree root }
    ensures same { DoAsBefore S.D.meaning ctx.old.tree ctx.new.tree }
    ensures liveness { IsLive ctx.new.tree root }
    ensures links { IsWellLinked S.D.meaning ctx.new.tree root }
    ensures inside { IsInsideChange ctx.old.tree ctx.new.tree root }
    ensures ran { IfOk result (λ status. RunsAlone S.E.Kind.eq ⟦<Pipeline<S> as Pass>⟧.outcome pipeline.old root
        ctx.old.tree ctx.new.tree status) }
    ensures truly { IfOk result (λ status. status ≡ Unchanged → IsSameTree ctx.old.tree ctx.new.tree) }
{
    pipelines_report_accurately::<S>();
    let mut analyses = AnalysisManager::new(alloc);
    run_pipeline(pipeline, alloc, root, ctx, &mut analyses)
}

/// What the passes make of a text, printed, and whether they changed it.
///
/// Errors: where the text is outside the notation; those of the passes; allocation failure. Cost: reading, the passes,
/// what is looked at, and printing.
pub fn optimise<N: Notation, S: Step<D = N::D>, O: Observer<N>>(
    alloc: Global,
    pipeline: &mut Pipeline<S>,
    text: &[u8],
    observer: &mut O,
) -> Result<OptimisedText, TextFailure<N::Fault>>
    ensures { IfOk result (λ made. IsOptimised N.reads N.prints N.D.meaning
        (RunsAlone S.E.Kind.eq ⟦<Pipeline<S> as Pass>⟧.outcome pipeline.old) text.now
        (made.printed.items ++ status_line made.status)) }
{
    let mut ctx = Context::new(alloc);
    optimise_in::<N, S, O>(alloc, pipeline, text, observer, &mut ctx)
}

// The same in this context, which is empty.
fn optimise_in<N: Notation, S: Step<D = N::D>, O: Observer<N>>(
    alloc: Global,
    pipeline: &mut Pipeline<S>,
    text: &[u8],
    observer: &mut O,
    ctx: &mut Context,
) -> Result<OptimisedText, TextFailure<N::Fault>>
    requires { ctx.old.tree ≡ no_tree }
    ensures { IfOk result (λ made. IsOptimised N.reads N.prints N.D.meaning
        (RunsAlone S.E.Kind.eq ⟦<Pipeline<S> as Pass>⟧.outcome pipeline.old) text.now
        (made.printed.items ++ status_line made.status)) }
{
    let document = N::read_document(alloc, text, ctx)?;
    observer.before(alloc, &document, ctx)?;
    let status = run_alone(alloc, pipeline, document.root, ctx)?;
    let printed = N::print_document(alloc, &document, ctx)?;
    observer.after(alloc, &document, &printed, ctx)?;
    Ok(OptimisedText { printed, status })
}

// The text, and a line that says whether the tree changed.
fn with_status(mut text: Vec<u8>, status: IRStatus) -> Result<Vec<u8>, AllocError>
    ensures { IfOk result (λ answer. answer.items ≡ text.items ++ status_line status) }
{
    text.extend_from_slice(match status {
        IRStatus::Changed => b"\nchanged\n",
        IRStatus::Unchanged => b"\nunchanged\n",
    })?;
    Ok(text)
}

/// What the program writes for a text that is to be optimised; `None` for a text outside the notation.
/// Errors: those of the passes and of the notation. Cost: reading, the passes and printing.
pub fn optimise_text<N: Notation>(
    alloc: Global,
    mut pipeline: PassPipeline<N::D, BenchFacts, N::Rules>,
    text: &[u8],
) -> Result<Option<Vec<u8>>, OptError>
    ensures { IfOk result (λ found. IfSome found (λ answer. IsOptimised N.reads N.prints N.D.meaning
        (RunsAlone ⟦<BenchFactKind as PartialEq>⟧.eq ⟦<PassPipeline<N::D, BenchFacts, N::Rules> as Pass>⟧.outcome
        pipeline) text.now answer.items)) }
{
    let mut nothing = NoObserver;
    match optimise::<N, PassStep<N::D, BenchFacts, N::Rules>, NoObserver>(
        alloc,
        &mut pipeline,
        text,
        &mut nothing,
    ) {
        Ok(made) => Ok(Some(with_status(made.printed, made.status)?)),
        Err(TextFailure::Text(_)) => Ok(None),
        Err(TextFailure::Refused(error)) => Err(error),
    }
}
