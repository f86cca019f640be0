//! `plir_opt` and `plir_mlir` as functions for C, and for all that calls C.
//!
//! It knows the types that cross to C, and nothing else: what each function does is in `pliron_driver_buffers`.
#![tactic(auto)]

ghost use Rattle.std.specs.Prelude.{◌≡◌, ◌≢◌, ⊤, []};
ghost use Rattle.pliron_dialect_bench.specs.BenchMoves.{bench};
ghost use Rattle.pliron_driver.specs.Ran.{RunsAlone};
ghost use Rattle.pliron_driver.specs.Read.{ReadsBench, PrintsBench, PrintsKinds};
ghost use Rattle.pliron_driver_modules.specs.Modules.{ReadsModule};
ghost use Rattle.pliron_driver.specs.Closed.{closed_reads, closed_prints};
ghost use Rattle.pliron_driver_buffers.specs.Faults.{no_place, IsFaultPlace};
ghost use Rattle.pliron_driver_buffers.specs.Fills.{FillsBy};
ghost use Rattle.pliron_driver_buffers.specs.Optimises.{Optimises, IsListedPipeline, Explains};
ghost use Rattle.pliron_driver_buffers.specs.Modules.{IsWord, OptimisesModule};

use pliron_bench_rules::BenchRules;
use pliron_dialect_bench::Bench;
use pliron_dialect_mlir::{AnyMeaning, Mlir};
use pliron_driver::{ClosedNotation, PassPipeline};
use pliron_driver_buffers::{
    BenchNotation, CallFailure, ModulePass, ModulePipeline, Place, describe_graph_into,
    find_fault_into, find_module_fault_into, optimise_into, optimise_module_into,
};
use pliron_driver_mlir::ClosedForm;
use pliron_laws::HasMeaning;
use pliron_pass::{BenchFactKind, BenchFacts, Pass};
use std::alloc::Global;

/// The number of this interface. It is incremented with each change of a signature, a status or what a call asks for.
const VERSION: u32 = 2;

/// The notation of texts: proofs here have what a text says only from reading that very text, and what is printed only
/// from printing.
type Text = ClosedNotation<BenchNotation>;

/// The notation of modules, in the same way.
type Form = ClosedForm;

/// The number of this interface. Cost: constant.
#[unsafe(no_mangle)]
pub extern "C" fn plir_version() -> u32
    ensures { result ≡ VERSION }
{
    VERSION
}

/// Runs the passes of a list on a text of the bench notation, and puts what `plir_opt` writes for the word and the
/// input into the buffer: the text that the passes leave, and a line `changed` or `unchanged`. Answers the number of a
/// status, and reports the length of the answer, or 0 where none is known.
///
/// Nothing is written to the buffer unless the whole answer fits. Cost: linear in the texts, and that of the passes.
#[unsafe(no_mangle)]
pub extern "C" fn plir_optimise(
    alloc: Global,
    pipeline: &[u8],
    text: &[u8],
    output: &mut [u8],
    needed: &mut usize,
) -> u32
    ensures { FillsBy (Optimises (closed_reads ReadsBench) (closed_prints PrintsBench) bench
        (RunsAlone ⟦<BenchFactKind as PartialEq>⟧.eq ⟦<PassPipeline<Bench, BenchFacts, BenchRules> as Pass>⟧.outcome)
        pipeline.now text.now) (Explains (IsListedPipeline (RunsAlone ⟦<BenchFactKind as PartialEq>⟧.eq
        ⟦<PassPipeline<Bench, BenchFacts, BenchRules> as Pass>⟧.outcome) pipeline.now)) output.old
        output.new needed.new result }
{
    optimise_into::<Text>(alloc, pipeline, text, output, needed).number()
}

/// Puts what `plir_opt graph` writes for a graph into the buffer: its orders, its search numbers, the kinds of its
/// edges and its components. Answers a status and reports a length as `plir_optimise` does.
///
/// Nothing is written to the buffer unless the whole answer fits. Cost: linear in the text, but for an ordered map of
/// the numbers of its nodes and for sorting each component.
#[unsafe(no_mangle)]
pub extern "C" fn plir_graph(
    alloc: Global,
    text: &[u8],
    output: &mut [u8],
    needed: &mut usize,
) -> u32
    ensures { FillsBy (λ answer. ⊤) (λ failure. failure ≢ CallFailure.Arguments) output.old output.new needed.new
        result }
{
    describe_graph_into(alloc, text, output, needed).number()
}

/// Finds where a text of the bench notation leaves it, or is too long, and puts what was expected there into the
/// buffer; of a text that is read the place is all zeros, and nothing is put. Answers a status and reports a length as
/// `plir_optimise` does.
///
/// Nothing is written to the buffer unless all fits. It fails on allocation failure alone. Cost: that of reading.
#[unsafe(no_mangle)]
pub extern "C" fn plir_find_fault(
    alloc: Global,
    text: &[u8],
    output: &mut [u8],
    needed: &mut usize,
    place: &mut Place,
) -> u32
    ensures fills { FillsBy (λ expected. place.new ≡ no_place → expected ≡ [])
        (λ failure. (failure ≡ CallFailure.Memory) × (place.new ≡ no_place)) output.old output.new needed.new result }
    ensures place { IsFaultPlace text.now place.new }
{
    find_fault_into(alloc, text, output, needed, place).number()
}

/// Runs the passes of a list on a module in MLIR's generic form, and puts the module that they leave into the buffer,
/// and nothing else: what `plir_mlir` writes for the word and the input. Answers a status and reports a length as
/// `plir_optimise` does, and reports in `changed` 1 where the passes changed the module, and else 0.
///
/// Nothing is written to the buffer unless the whole answer fits. Cost: linear in the texts, and that of the passes.
#[unsafe(no_mangle)]
pub extern "C" fn plir_optimise_mlir(
    alloc: Global,
    pipeline: &[u8],
    text: &[u8],
    output: &mut [u8],
    needed: &mut usize,
    changed: &mut u32,
) -> u32
    ensures { FillsBy (OptimisesModule ⟦<ModulePass<Form> as Pass>⟧.name
        (closed_reads (ReadsModule ⟦<Mlir<AnyMeaning> as HasMeaning>⟧.meaning)) (closed_prints PrintsKinds)
        ⟦<Mlir<AnyMeaning> as HasMeaning>⟧.meaning
        (RunsAlone ⟦<BenchFactKind as PartialEq>⟧.eq ⟦<ModulePipeline<Form> as Pass>⟧.outcome)
        pipeline.now text.now changed.new) (λ failure. Explains (IsWord ⟦<ModulePass<Form> as Pass>⟧.name
        (RunsAlone ⟦<BenchFactKind as PartialEq>⟧.eq ⟦<ModulePipeline<Form> as Pass>⟧.outcome) pipeline.now) failure
        × (changed.new ≡ 0)) output.old output.new needed.new result }
{
    let status = optimise_module_into::<Form>(alloc, pipeline, text, output, needed, changed);
    status.number()
}

/// Finds where a module of MLIR leaves the generic form, or is too long, as `plir_find_fault` does for the bench
/// notation. Of such a place the part is empty, unless the module is too long.
///
/// Nothing is written to the buffer unless all fits. It fails on allocation failure alone. Cost: that of reading.
#[unsafe(no_mangle)]
pub extern "C" fn plir_find_fault_mlir(
    alloc: Global,
    text: &[u8],
    output: &mut [u8],
    needed: &mut usize,
    place: &mut Place,
) -> u32
    ensures fills { FillsBy (λ expected. place.new ≡ no_place → expected ≡ [])
        (λ failure. (failure ≡ CallFailure.Memory) × (place.new ≡ no_place)) output.old output.new needed.new result }
    ensures place { IsFaultPlace text.now place.new }
{
    find_module_fault_into::<Mlir<AnyMeaning>>(alloc, text, output, needed, place).number()
}
