//! LLVM's textual IR in notations whose texts proofs know by name alone.
ghost use Rattle.pliron_driver.specs.Read.{PrintsKinds};
ghost use Rattle.pliron_driver_modules.specs.Modules.{ReadsModule};
ghost use Rattle.pliron_driver.specs.Closed.{closed_reads, closed_prints};

use crate::failure::{LlvmFailure, LlvmTextFault};
use crate::notation::{LlvmDocument, LlvmText, ModuleNotes};
use pliron_core::Context;
use pliron_dialect_mlir::{AnyMeaning, Mlir};
use pliron_driver::{ClosedNotation, Notation};
use pliron_driver_modules::{DocumentView, ModuleNotation, ModuleSource, StageCounts};
use pliron_laws::{HasMeaning, OptError};
use pliron_mlir_rules::MlirRules;
use std::alloc::{AllocError, Global};
use std::marker::PhantomData;

/// LLVM's textual IR under [`AnyMeaning`].
type AnyText = LlvmText<Mlir<AnyMeaning>>;

/// LLVM's textual IR under [`AnyMeaning`], closed to proofs: the notation of the program. It has a name of its own, since
/// a clause on [`ClosedNotation`] at that notation is more than a check has steps for.
pub struct ClosedText(PhantomData<ModuleNotes>);

impl Notation for ClosedText {
    type D = Mlir<AnyMeaning>;

    type Rules = MlirRules;

    type Sheet = ModuleNotes;

    type Fault = LlvmTextFault;

    ghost reads = { closed_reads (ReadsModule ⟦<Mlir<AnyMeaning> as HasMeaning>⟧.meaning) };

    ghost prints = { closed_prints PrintsKinds };

    fn read_document(
        alloc: Global,
        text: &[u8],
        ctx: &mut Context,
    ) -> Result<LlvmDocument, LlvmFailure> {
        ClosedNotation::<AnyText>::read_document(alloc, text, ctx)
    }

    fn print_document(
        alloc: Global,
        document: &LlvmDocument,
        ctx: &Context,
    ) -> Result<Vec<u8>, OptError> {
        ClosedNotation::<AnyText>::print_document(alloc, document, ctx)
    }

    fn empty_sheet(alloc: Global) -> ModuleNotes {
        ClosedNotation::<AnyText>::empty_sheet(alloc)
    }
}

impl ModuleNotation for ClosedText {
    type Plain = ClosedText;

    fn comment_start() -> &'static str {
        AnyText::comment_start()
    }

    fn failure_message(
        alloc: Global,
        failure: LlvmFailure,
        source: &ModuleSource,
    ) -> Result<String, AllocError> {
        AnyText::failure_message(alloc, failure, source)
    }

    fn stages_of(sheet: &ModuleNotes) -> StageCounts {
        AnyText::stages_of(sheet)
    }

    fn notes_of(
        alloc: Global,
        document: &LlvmDocument,
        source: &ModuleSource,
        ctx: &Context,
    ) -> Result<String, OptError> {
        AnyText::notes_of(alloc, document, source, ctx)
    }

    fn is_same(
        alloc: Global,
        first: &DocumentView<ModuleNotes>,
        second: &DocumentView<ModuleNotes>,
    ) -> Result<bool, OptError> {
        AnyText::is_same(alloc, first, second)
    }
}
