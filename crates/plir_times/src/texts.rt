//! Passes on texts of any length.

use pliron_core::Context;
use pliron_dialect_bench::Bench;
use pliron_pass::{AnalysisManager, BenchFacts, OptError, Passes};
use pliron_pass_pipeline::{PassStep, run_pipeline};
use pliron_text::{print_text, read_text};
use std::alloc::Global;

/// How many bytes the text has that the passes of these names leave; `None` where it is unreadable. Other names are passed
/// over. Errors: allocation failure. Cost: that of reading, of the passes, and of printing.
pub fn length_after(
    alloc: Global,
    names: &[String],
    text: &[u8],
) -> Result<Option<usize>, OptError> {
    let mut ctx = Context::new(alloc);
    let Some(root) = read_text(alloc, text, &mut ctx)? else {
        return Ok(None);
    };
    let mut passes = Passes::<PassStep<Bench, BenchFacts>>::new(alloc);
    for name in names {
        if let Some(step) = PassStep::from_name(name.as_str()) {
            passes.add_pass(step)?;
        }
    }
    let mut analyses = AnalysisManager::new(alloc);
    run_pipeline(&mut passes, alloc, root, &mut ctx, &mut analyses)?;
    Ok(Some(print_text(alloc, root, &ctx)?.len()))
}

/// The text printed again; `None` where it is unreadable. Errors: allocation failure. Cost: linear in the text.
pub fn print_again(alloc: Global, text: &[u8]) -> Result<Option<String>, OptError> {
    let mut ctx = Context::new(alloc);
    let Some(root) = read_text(alloc, text, &mut ctx)? else {
        return Ok(None);
    };
    Ok(Some(print_text(alloc, root, &ctx)?))
}
