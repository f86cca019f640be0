//! What the arguments of the program ask for.
ghost use Rattle.std.specs.Prelude.{map, IfOk, IfSome, string_bytes};
ghost use Rattle.pliron_driver.specs.Asked.{AskFor, IsPlanned};

use super::build::{PlainPasses, build_pipeline};
use crate::program::PipelineText;
use pliron_dialect_edges::BranchesAtOnce;
use pliron_laws::Dialect;
use pliron_pass::BenchFacts;
use pliron_pass_pipeline::PassPipeline;
use pliron_rewrite_rules::Rules;
use std::alloc::{AllocError, Global};
use std::marker::PhantomData;

/// What the arguments ask for.
#[derive(Drop)]
pub enum Command<D: Dialect + BranchesAtOnce, L: Rules<D>> {
    /// The optimisation of a text.
    Optimise(PassPipeline<D, BenchFacts, L>),
    /// The orders of a graph, its search numbers, the kinds of its edges and its components.
    Graph,
}

/// The pipeline that the word asks for, if each of its names is the name of a pass.
///
/// Errors: allocation failure. Cost: linear in the word.
pub fn read_pipeline<D: Dialect + BranchesAtOnce, L: Rules<D>>(
    alloc: Global,
    word: &str,
) -> Result<Option<PassPipeline<D, BenchFacts, L>>, AllocError>
    ensures { IfOk result (λ found. IfSome found (λ pipeline. IsPlanned word.now pipeline)) }
{
    match PipelineText::read_for_program(alloc, word)? {
        Some(text) => build_pipeline(alloc, &text, &PlainPasses::<D, L>(PhantomData)),
        None => Ok(None),
    }
}

/// What the words after the program's name ask for, if they are understood: `graph`, or a list of passes.
///
/// Errors: allocation failure. Cost: linear in the words.
pub fn read_command<D: Dialect + BranchesAtOnce, L: Rules<D>>(
    alloc: Global,
    words: &[String],
) -> Result<Option<Command<D, L>>, AllocError>
    ensures { IfOk result (λ found. IfSome found (λ command. AskFor (map string_bytes words.now) command)) }
{
    let [word] = words else {
        return Ok(None);
    };
    if word.as_str() == "graph" {
        return Ok(Some(Command::Graph));
    }
    match read_pipeline(alloc, word.as_str())? {
        Some(pipeline) => Ok(Some(Command::Optimise(pipeline))),
        None => Ok(None),
    }
}
