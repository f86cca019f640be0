//! The generic form of MLIR as a notation that is shown.
use pliron_core::Context;
use pliron_dialect_mlir::{AnyMeaning, Mlir};
use pliron_driver::Notation;
use pliron_driver_mlir::{ClosedForm, ModuleDocument, ModuleFailure, ModuleFault};
use pliron_laws::OptError;
use pliron_mlir_rules::MlirRules;
use pliron_text_mlir_syntax::Sheet;
use std::alloc::Global;
use std::marker::PhantomData;

/// The generic form of MLIR, read and printed as [`ClosedForm`] does.
pub struct MlirNotation(PhantomData<Sheet>);

impl Notation for MlirNotation {
    type D = Mlir<AnyMeaning>;

    type Rules = MlirRules;

    type Sheet = Sheet;

    type Fault = ModuleFault;

    ghost reads = { ⟦<ClosedForm as Notation>⟧.reads };

    ghost prints = { ⟦<ClosedForm as Notation>⟧.prints };

    fn read_document(
        alloc: Global,
        text: &[u8],
        ctx: &mut Context,
    ) -> Result<ModuleDocument, ModuleFailure> {
        ClosedForm::read_document(alloc, text, ctx)
    }

    fn print_document(
        alloc: Global,
        document: &ModuleDocument,
        ctx: &Context,
    ) -> Result<Vec<u8>, OptError> {
        ClosedForm::print_document(alloc, document, ctx)
    }

    fn empty_sheet(alloc: Global) -> Sheet {
        ClosedForm::empty_sheet(alloc)
    }
}
