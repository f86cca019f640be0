//! Optimisations of trees of operations, and the program that runs them.
//!
//! The optimisations are in crates below, beside one another; this one passes their names on and knows of
//! texts, arguments and streams.
#![tactic(auto)]

ghost use Rattle.std.specs.Prelude.{map, IfOk, IfSome, string_bytes};
ghost use Rattle.pliron_dialect_bench.specs.BenchMoves.{bench};
ghost use Rattle.pliron_driver.specs.Answered.{Answers};
ghost use Rattle.pliron_driver.specs.Asked.{AskFor};
ghost use Rattle.pliron_driver.specs.Closed.{closed_reads, closed_prints};
ghost use Rattle.pliron_driver.specs.Ending.{IsAnswer, Ends};
ghost use Rattle.pliron_driver.specs.Ran.{RunsAlone};
ghost use Rattle.pliron_driver.specs.Read.{ReadsBench, PrintsBench};

mod driver;
mod graph;
mod host;
mod program;

pub use driver::{
    BenchNotation, ClosedNotation, Document, KindNotation, NoObserver, Notation, Observer,
    OptimisedText, PlainPasses, StepFactory, TextFailure, build_pipeline, optimise, optimise_text,
    passes_of, read_pipeline, run_alone,
};
use driver::{Command, read_command};
pub use graph::describe_graph;
pub use host::{host_words, optimise_host};
use pliron_bench_rules::BenchRules;
use pliron_dialect_bench::Bench;
pub use pliron_laws::OptError;
pub use pliron_opt_cfg::{
    merge_inside_block, merge_inside_op, merge_inside_region, remove_blocks_inside_block,
    remove_blocks_inside_op, remove_blocks_inside_region, simplify_cfg,
};
pub use pliron_opt_dce::dce;
pub use pliron_opt_sccp::{sccp, sccp_counted};
use pliron_pass::{BenchFactKind, BenchFacts, Pass};
pub use pliron_pass_pipeline::{
    DCEPass, PassPipeline, PassStep, Pipeline, SCCPPass, SimplifyCFGPass, run_pipeline,
};
pub use program::{MAX_TEXT, PipelineText, PlanError, WordFault, without_blanks, write_bytes};
use program::{Failure, read_input, write_answer};
use std::alloc::Global;
use std::io::{Read, Write};

// What the command answers to the input, if that is readable.
fn answer<N: Notation>(
    alloc: Global,
    command: Command<N::D, N::Rules>,
    text: &[u8],
) -> Result<Option<Vec<u8>>, OptError>
    ensures { IfOk result (λ found. IfSome found (λ answer. Answers N.reads N.prints N.D.meaning
        (RunsAlone ⟦<BenchFactKind as PartialEq>⟧.eq ⟦<PassPipeline<N::D, BenchFacts, N::Rules> as Pass>⟧.outcome)
        command text.now answer.items)) }
{
    match command {
        Command::Optimise(pipeline) => optimise_text::<N>(alloc, pipeline, text),
        Command::Graph => describe_graph(alloc, text),
    }
}

// What is to be written for the words and the input.
fn answer_to_input<N: Notation, R: Read>(
    alloc: Global,
    words: &[String],
    input: &mut R,
) -> Result<Vec<u8>, Failure>
    ensures { IfOk result (λ answer. IsAnswer AskFor (Answers N.reads N.prints N.D.meaning
        (RunsAlone ⟦<BenchFactKind as PartialEq>⟧.eq ⟦<PassPipeline<N::D, BenchFacts, N::Rules> as Pass>⟧.outcome))
        (map string_bytes words.now) (R.remaining input.old) answer.items) }
{
    let Some(command) = read_command(alloc, words)? else {
        return Err(Failure::Arguments);
    };
    let text = read_input(alloc, input)?;
    if text.len() > MAX_TEXT {
        return Err(Failure::Text);
    }
    match answer::<N>(alloc, command, &text)? {
        Some(answer) => Ok(answer),
        None => Err(Failure::Text),
    }
}

/// Runs the program over the texts of a notation, on the words after its name and these streams, and
/// answers its status. `program` is its name in the line on how it is used.
///
/// For every dialect that keeps its laws and every notation of it: an answer to a pipeline is a tree printed, and a
/// line on whether it changed: where that says that it didn't, the tree is the same. The tree is what these passes, run
/// once as a whole, made of one that was read from the whole input, and every operation that was fit to run and is still
/// live does as before.
///
/// Faults are found in this order: arguments, reading, text, passes and printing, writing. Nothing is written
/// to `output` before the whole answer is known. Statuses: 0; 1 on allocation failure or where the passes gave
/// up, with empty output; 2 for the rest; each but 0 with a line on `errors`. A failed write to `errors` is
/// ignored. Cost: reading and printing, and that of the passes.
pub fn run_optimiser<N: Notation, R: Read, W: Write, E: Write>(
    alloc: Global,
    program: &str,
    args: &[String],
    input: &mut R,
    output: &mut W,
    errors: &mut E,
) -> u8
    ensures { Ends (IsAnswer AskFor (Answers N.reads N.prints N.D.meaning (RunsAlone ⟦<BenchFactKind as PartialEq>⟧.eq
        ⟦<PassPipeline<N::D, BenchFacts, N::Rules> as Pass>⟧.outcome)) (map string_bytes args.now)
        (R.remaining input.old)) (W.contents output.old) (W.contents output.new) result }
{
    match answer_to_input::<N, R>(alloc, args, input) {
        Ok(answer) => match write_answer(&answer, output) {
            Ok(()) => 0,
            Err(failure) => failure.report(program, errors),
        },
        Err(failure) => failure.report(program, errors),
    }
}

/// Runs the program `plir_opt` on the words after its name and these streams, and answers its status: that
/// of `run_optimiser` over the notation of the dialect `Bench`, closed to proofs: the text that is read is the input, and
/// what is written is printed of the tree that the passes made.
///
/// Cost: reading and printing, linear in the text, and that of the passes.
pub fn plir_run<R: Read, W: Write, E: Write>(
    alloc: Global,
    args: &[String],
    input: &mut R,
    output: &mut W,
    errors: &mut E,
) -> u8
    ensures { Ends (IsAnswer AskFor (Answers (closed_reads ReadsBench) (closed_prints PrintsBench) bench
        (RunsAlone ⟦<BenchFactKind as PartialEq>⟧.eq ⟦<PassPipeline<Bench, BenchFacts, BenchRules> as Pass>⟧.outcome))
        (map string_bytes args.now) (R.remaining input.old))
        (W.contents output.old) (W.contents output.new) result }
{
    run_optimiser::<ClosedNotation<BenchNotation>, R, W, E>(
        alloc, "plir_opt", args, input, output, errors,
    )
}
