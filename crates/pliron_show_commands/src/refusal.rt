//! What is reported where passes are refused.
ghost use Rattle.std.specs.Prelude.{◌≡◌, IfOk, IfSome, string_bytes};
ghost use Rattle.pliron_core.specs.Writes.{no_tree};
ghost use Rattle.pliron_show_commands.specs.Outcomes.{IsRefused};
ghost use Rattle.pliron_show_commands.specs.Reports.{TellsRefusal};

use crate::live_use::find_live_use;
use crate::outcome::{Outcome, refused_by, refusing_outcome};
use crate::report::refused_note;
use crate::violation_message::live_use_message;
use pliron_core::Context;
use pliron_driver::{passes_of, run_alone};
use pliron_driver_instrument::{
    InstrumentationOptions, PipelineText, Timeless, instrumented_pipeline,
};
use pliron_laws::OptError;
use pliron_show::ShownNotation;
use pliron_show_places::Source;
use std::alloc::{AllocError, Global};

// What is reported of the plan's passes on the text, in this empty context.
fn refusal_message_in<N: ShownNotation>(
    alloc: Global,
    source: &Source,
    plan: &PipelineText,
    ctx: &mut Context,
) -> Result<Option<String>, OptError>
    requires { ctx.old.tree ≡ no_tree }
    ensures { IfOk result (λ found. IfSome found (λ message. TellsRefusal (string_bytes message))) }
{
    let nothing = InstrumentationOptions::nothing();
    let Some(root) = N::read(alloc, source.text, ctx)? else {
        return Ok(None);
    };
    let Some(mut pipeline) = instrumented_pipeline::<N, Timeless>(alloc, plan, &nothing, Timeless)?
    else {
        return Ok(None);
    };
    match run_alone(alloc, &mut pipeline, root, ctx) {
        Err(OptError::LiveUse) => {}
        Err(error) => return Err(error),
        Ok(_) => return Ok(None),
    }
    let Some(found) = find_live_use(alloc, root, plan.nested, ctx)? else {
        return Ok(None);
    };
    let mut message = live_use_message::<N>(alloc, source, &found, ctx)?;
    let note = refused_note(alloc, passes_of(&pipeline))?;
    message.push_str(note.as_str())?;
    Ok(Some(message))
}

// What is reported where the plan's passes are refused on the text because a value of an unreachable block is used: the
// use and the definition in the text, and the pass; `None` where they aren't refused for this reason. The passes are
// run once more, so that passes that aren't refused pay nothing for it.
//
// Errors: those of the passes; allocation failure. Cost: reading, the passes, and that of `find_live_use`.
fn refusal_message<N: ShownNotation>(
    alloc: Global,
    source: &Source,
    plan: &PipelineText,
) -> Result<Option<String>, OptError>
    ensures { IfOk result (λ found. IfSome found (λ message. TellsRefusal (string_bytes message))) }
{
    let mut ctx = Context::new(alloc);
    refusal_message_in::<N>(alloc, source, plan, &mut ctx)
}

/// The outcome where the plan's passes were refused: nothing is to be written, and the reason is reported: where a
/// value of an unreachable block is used, the use, the definition and the pass.
///
/// Errors: allocation failure. Cost: that of reading the text, and of the passes where such a value is used.
pub(crate) fn refused_outcome<N: ShownNotation>(
    alloc: Global,
    source: &Source,
    error: OptError,
    plan: &PipelineText,
) -> Result<Outcome, AllocError>
    ensures { IfOk result IsRefused }
{
    let reported = if error == OptError::LiveUse {
        refusal_message::<N>(alloc, source, plan).ok().flatten()
    } else {
        None
    };
    match reported {
        Some(report) => Ok(refusing_outcome(alloc, report)),
        None => refused_by(alloc, error),
    }
}
