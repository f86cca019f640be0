//! Modules of MLIR in notations whose texts proofs know by name alone.
ghost use Rattle.pliron_driver.specs.Read.{PrintsKinds};
ghost use Rattle.pliron_driver_modules.specs.Modules.{ReadsModule};
ghost use Rattle.pliron_driver.specs.Closed.{closed_reads, closed_prints};

use crate::failure::{ModuleFailure, ModuleFault};
use crate::notation::{GenericForm, ModuleDocument};
use pliron_core::Context;
use pliron_dialect_mlir::{AnyMeaning, Mlir};
use pliron_driver::{ClosedNotation, Notation};
use pliron_driver_modules::{DocumentView, ModuleNotation, ModuleSource, StageCounts};
use pliron_laws::{HasMeaning, OptError};
use pliron_mlir_rules::MlirRules;
use pliron_text_mlir_reader::Sheet;
use std::alloc::{AllocError, Global};
use std::marker::PhantomData;

/// The generic form of MLIR under [`AnyMeaning`].
type MlirForm = GenericForm<Mlir<AnyMeaning>>;

/// The generic form of MLIR under [`AnyMeaning`], closed to proofs: the notation of the programs. It has a name of its
/// own, since a clause on [`ClosedNotation`] at that notation is more than a check has steps for.
pub struct ClosedForm(PhantomData<Sheet>);

impl Notation for ClosedForm {
    type D = Mlir<AnyMeaning>;

    type Rules = MlirRules;

    type Sheet = Sheet;

    type Fault = ModuleFault;

    ghost reads = { closed_reads (ReadsModule ⟦<Mlir<AnyMeaning> as HasMeaning>⟧.meaning) };

    ghost prints = { closed_prints PrintsKinds };

    fn read_document(
        alloc: Global,
        text: &[u8],
        ctx: &mut Context,
    ) -> Result<ModuleDocument, ModuleFailure> {
        ClosedNotation::<MlirForm>::read_document(alloc, text, ctx)
    }

    fn print_document(
        alloc: Global,
        document: &ModuleDocument,
        ctx: &Context,
    ) -> Result<Vec<u8>, OptError> {
        ClosedNotation::<MlirForm>::print_document(alloc, document, ctx)
    }

    fn empty_sheet(alloc: Global) -> Sheet {
        ClosedNotation::<MlirForm>::empty_sheet(alloc)
    }
}

impl ModuleNotation for ClosedForm {
    type Plain = ClosedForm;

    fn comment_start() -> &'static str {
        MlirForm::comment_start()
    }

    fn failure_message(
        alloc: Global,
        failure: ModuleFailure,
        source: &ModuleSource,
    ) -> Result<String, AllocError> {
        MlirForm::failure_message(alloc, failure, source)
    }

    fn stages_of(sheet: &Sheet) -> StageCounts {
        MlirForm::stages_of(sheet)
    }

    fn notes_of(
        alloc: Global,
        document: &ModuleDocument,
        source: &ModuleSource,
        ctx: &Context,
    ) -> Result<String, OptError> {
        MlirForm::notes_of(alloc, document, source, ctx)
    }

    fn is_same(
        alloc: Global,
        first: &DocumentView<Sheet>,
        second: &DocumentView<Sheet>,
    ) -> Result<bool, OptError> {
        MlirForm::is_same(alloc, first, second)
    }
}
