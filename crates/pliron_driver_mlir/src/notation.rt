//! Texts in MLIR's generic form, as passes know texts.
ghost use Rattle.pliron_driver.specs.Read.{PrintsKinds};
ghost use Rattle.pliron_driver_modules.specs.Modules.{ReadsModule};

use crate::failure::{ModuleFailure, ModuleFault, failure_message, failure_of};
use crate::fitness::fitness_notes;
use pliron_core::Context;
use pliron_dialect_edges::BranchesAtOnce;
use pliron_driver::{Document, Notation};
use pliron_driver_modules::{DocumentView, ModuleNotation, ModuleSource, StageCounts};
use pliron_laws::{Dialect, OptError};
use pliron_pass_pipeline::NoRules;
use pliron_text_mlir_printer::{ModuleView, is_same_module, print_module};
use pliron_text_mlir_reader::{Sheet, read_module};
use std::alloc::{AllocError, Global};
use std::marker::PhantomData;

/// A module that was read, with the sheet of what its text says beside the tree.
pub type ModuleDocument = Document<Sheet>;

/// The generic form as a notation of a dialect of MLIR. Its type names the sheet of its texts: what checks borrows looks for
/// the types of a notation there.
pub struct GenericForm<D>(PhantomData<(D, Sheet)>);

impl<D: Dialect + BranchesAtOnce> Notation for GenericForm<D> {
    type D = D;

    type Rules = NoRules;

    type Sheet = Sheet;

    type Fault = ModuleFault;

    ghost reads = { ReadsModule D.meaning };

    ghost prints = { PrintsKinds };

    fn read_document(
        alloc: Global,
        text: &[u8],
        ctx: &mut Context,
    ) -> Result<ModuleDocument, ModuleFailure> {
        match read_module::<D>(alloc, text, ctx) {
            Ok(module) => Ok(Document {
                root: module.root,
                sheet: module.sheet,
            }),
            Err(fault) => Err(failure_of(fault)),
        }
    }

    fn print_document(
        alloc: Global,
        document: &ModuleDocument,
        ctx: &Context,
    ) -> Result<Vec<u8>, OptError> {
        Ok(print_module(alloc, document.root, &document.sheet, ctx)?)
    }

    fn empty_sheet(alloc: Global) -> Sheet {
        Sheet::new(alloc)
    }
}

impl<D: Dialect + BranchesAtOnce> ModuleNotation for GenericForm<D> {
    type Plain = GenericForm<D>;

    fn comment_start() -> &'static str {
        "//"
    }

    fn failure_message(
        alloc: Global,
        failure: ModuleFailure,
        source: &ModuleSource,
    ) -> Result<String, AllocError> {
        failure_message(alloc, failure, source)
    }

    fn stages_of(sheet: &Sheet) -> StageCounts {
        StageCounts {
            inlined: sheet.inlined,
            rotated: sheet.rotated,
            erased: sheet.erased,
        }
    }

    fn notes_of(
        alloc: Global,
        document: &ModuleDocument,
        source: &ModuleSource,
        ctx: &Context,
    ) -> Result<String, OptError> {
        fitness_notes::<D>(alloc, document, source, ctx)
    }

    fn is_same(
        alloc: Global,
        first: &DocumentView<Sheet>,
        second: &DocumentView<Sheet>,
    ) -> Result<bool, OptError> {
        Ok(is_same_module(alloc, &view_of(first), &view_of(second))?)
    }
}

fn view_of<'m>(module: &DocumentView<'m, Sheet>) -> ModuleView<'m> {
    ModuleView {
        root: module.document.root,
        sheet: &module.document.sheet,
        ctx: module.ctx,
    }
}
