//! The passes that words ask for.
ghost use Rattle.std.specs.Prelude.{map, IfOk};
ghost use Rattle.pliron_driver_modules.specs.Outcomes.{AsksFor};

use pliron_driver_instrument::{PipelineText, PlanError};
use std::alloc::Global;

/// The passes that the word asks for: of an empty one, none; else those of `PipelineText::read`.
///
/// Errors: the first part of the word that is wrong; allocation failure. Cost: linear in the word.
pub fn read_plan(alloc: Global, word: &str) -> Result<PipelineText<'_>, PlanError>
    ensures { IfOk result (λ plan. AsksFor word.now plan.runs plan.nested (map (λ name. name.now) plan.names.items)) }
{
    if word.is_empty() {
        return Ok(PipelineText {
            runs: None,
            nested: false,
            names: Vec::new(alloc),
        });
    }
    PipelineText::read(alloc, word)
}
