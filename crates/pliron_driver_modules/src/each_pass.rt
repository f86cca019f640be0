//! The module as it is after each pass.
ghost use Rattle.std.specs.Prelude.{◌≡◌};
ghost use Rattle.pliron_core.specs.Tree.{IsLive};
ghost use Rattle.pliron_core.specs.Writes.{no_tree};
ghost use Rattle.pliron_laws.specs.Linked.{IsWellLinked};

use crate::notation::ModuleNotation;
use pliron_core::{Context, IRStatus};
use pliron_driver::{Document, TextFailure, run_alone};
use pliron_driver_instrument::{
    InstrumentationOptions, PipelineText, Timeless, instrumented_pipeline,
};
use pliron_laws::OptError;
use std::alloc::{AllocError, Global};

/// What is written of runs of passes, and how many there were.
#[derive(Drop)]
struct Trace {
    text: Vec<u8>,
    runs: usize,
}

// The plan of one run of the pass of this name.
fn plan_of(alloc: Global, name: &str, nested: bool) -> Result<PipelineText<'_>, AllocError> {
    let mut names = Vec::new(alloc);
    names.push(name)?;
    Ok(PipelineText {
        runs: None,
        nested,
        names,
    })
}

// Runs the pass of this name on the module. Where no pass has the name, nothing is run.
fn run_pass<N: ModuleNotation>(
    alloc: Global,
    name: &str,
    nested: bool,
    loaded: &Document<N::Sheet>,
    ctx: &mut Context,
) -> Result<IRStatus, OptError>
    requires live { IsLive ctx.old.tree loaded.now.root }
    requires linked { IsWellLinked N.D.meaning ctx.old.tree loaded.now.root }
    ensures liveness { IsLive ctx.new.tree loaded.now.root }
    ensures links { IsWellLinked N.D.meaning ctx.new.tree loaded.now.root }
{
    let plan = plan_of(alloc, name, nested)?;
    let nothing = InstrumentationOptions::nothing();
    match instrumented_pipeline::<N, Timeless>(alloc, &plan, &nothing, Timeless)? {
        Some(mut pipeline) => run_alone(alloc, &mut pipeline, loaded.root, ctx),
        None => Ok(IRStatus::Unchanged),
    }
}

// Writes the module behind a line with the number of the run, the pass, and whether the run changed something.
fn write_module<N: ModuleNotation>(
    alloc: Global,
    trace: &mut Trace,
    name: &str,
    status: IRStatus,
    loaded: &Document<N::Sheet>,
    ctx: &Context,
) -> Result<(), OptError>
    requires { IsLive ctx.now.tree loaded.now.root }
{
    trace.runs = trace.runs.saturating_add(1);
    let run = trace.runs;
    let word = match status {
        IRStatus::Changed => "changed",
        IRStatus::Unchanged => "unchanged",
    };
    let start = N::comment_start();
    let heading = format!(in alloc; "{start} --- run {run}, after {name}: {word}\n")?;
    trace.text.extend_from_slice(heading.as_bytes())?;
    let printed = N::print_document(alloc, loaded, ctx)?;
    Ok(trace.text.extend_from_slice(&printed)?)
}

// A round of the passes: the module is written after each. Answers whether one changed something.
fn write_round<N: ModuleNotation>(
    alloc: Global,
    trace: &mut Trace,
    plan: &PipelineText,
    loaded: &Document<N::Sheet>,
    ctx: &mut Context,
) -> Result<bool, OptError>
    requires live { IsLive ctx.old.tree loaded.now.root }
    requires linked { IsWellLinked N.D.meaning ctx.old.tree loaded.now.root }
    ensures liveness { IsLive ctx.new.tree loaded.now.root }
    ensures links { IsWellLinked N.D.meaning ctx.new.tree loaded.now.root }
{
    let mut changes = false;
    for name in &plan.names {
        let status = run_pass::<N>(alloc, name, plan.nested, loaded, ctx)?;
        changes = changes || status == IRStatus::Changed;
        write_module::<N>(alloc, trace, name, status, loaded, ctx)?;
    }
    Ok(changes)
}

// The rounds of the plan, until one changes nothing.
fn write_rounds<N: ModuleNotation>(
    alloc: Global,
    trace: &mut Trace,
    plan: &PipelineText,
    loaded: &Document<N::Sheet>,
    ctx: &mut Context,
) -> Result<(), OptError>
    requires live { IsLive ctx.old.tree loaded.now.root }
    requires linked { IsWellLinked N.D.meaning ctx.old.tree loaded.now.root }
{
    for _ in 0..plan.runs.unwrap_or(1) {
        if !write_round::<N>(alloc, trace, plan, loaded, ctx)? {
            break;
        }
    }
    Ok(())
}

// Writes the module that the text says, read into this context, as it is after each pass.
fn write_in<N: ModuleNotation>(
    alloc: Global,
    trace: &mut Trace,
    text: &[u8],
    plan: &PipelineText,
    ctx: &mut Context,
) -> Result<(), TextFailure<N::Fault>>
    requires { ctx.old.tree ≡ no_tree }
{
    match N::read_document(alloc, text, ctx) {
        Ok(module) => Ok(write_rounds::<N>(alloc, trace, plan, &module, ctx)?),
        Err(failure) => Err(failure),
    }
}

// The module that the text says as it is after each pass, by this context.
fn print_in<N: ModuleNotation>(
    alloc: Global,
    text: &[u8],
    plan: &PipelineText,
    ctx: &mut Context,
) -> Result<Vec<u8>, AllocError>
    requires { ctx.old.tree ≡ no_tree }
{
    let mut trace = Trace {
        text: Vec::new(alloc),
        runs: 0,
    };
    match write_in::<N>(alloc, &mut trace, text, plan, ctx) {
        Err(TextFailure::Refused(OptError::Memory)) => Err(AllocError),
        _ => Ok(trace.text),
    }
}

/// The text's module after each pass of the plan, each behind a line with the number of the run.
///
/// The passes are run on a module of their own, one by one, until a round of them changes nothing. Where the plan says
/// that they run on each operation directly inside the module, a pass visits all of these before the next pass does. A
/// failure ends the output there and is no error, unless it is an allocation failure: `run_passes` reports the same
/// one.
///
/// Errors: allocation failure. Cost: that of reading, the passes, and of printing after each.
pub fn print_after_each<N: ModuleNotation>(
    alloc: Global,
    text: &[u8],
    plan: &PipelineText,
) -> Result<Vec<u8>, AllocError> {
    let mut ctx = Context::new(alloc);
    print_in::<N>(alloc, text, plan, &mut ctx)
}
