//! Texts of modules whose calls are inlined as they are read.
ghost use Rattle.std.specs.Prelude.{◌≡◌};
ghost use Rattle.pliron_driver_inlining.specs.Reads.{ReadsInlined};

use crate::document::inline_document;
use pliron_core::Context;
use pliron_dialect_calls::InliningDialect;
use pliron_dialect_edges::BranchesAtOnce;
use pliron_driver::Notation;
use pliron_driver_mlir::{ModuleDocument, ModuleFailure, ModuleFault};
use pliron_driver_modules::{DocumentView, ModuleNotation, ModuleSource, StageCounts};
use pliron_laws::{Dialect, OptError};
use pliron_text_mlir_syntax::Sheet;
use std::alloc::{AllocError, Global};
use std::marker::PhantomData;

/// The name of the stage of this notation, in words that ask for passes.
pub const INLINING_STAGE: &str = "inline";

/// The notation, but that calls of a module are inlined once it is read: passes begin with what inlining leaves.
///
/// What a text says is then a tree that inlining made of the one that the notation reads of it: in each program that has the
/// module, linked runs are the same.
pub struct InlinedForm<N>(PhantomData<(N, Sheet)>);

impl<
    D: Dialect + BranchesAtOnce + InliningDialect,
    N: ModuleNotation<D = D, Sheet = Sheet, Fault = ModuleFault>,
> Notation for InlinedForm<N> {
    type D = D;

    type Rules = N::Rules;

    type Sheet = Sheet;

    type Fault = ModuleFault;

    ghost reads = { ReadsInlined N.reads D.meaning D.convention };

    ghost prints = { N.prints };

    fn read_document(
        alloc: Global,
        text: &[u8],
        ctx: &mut Context,
    ) -> Result<ModuleDocument, ModuleFailure> {
        let mut document = N::read_document(alloc, text, ctx)?;
        inline_document::<D>(alloc, &mut document, ctx)?;
        Ok(document)
    }

    fn print_document(
        alloc: Global,
        document: &ModuleDocument,
        ctx: &Context,
    ) -> Result<Vec<u8>, OptError> {
        N::print_document(alloc, document, ctx)
    }

    fn empty_sheet(alloc: Global) -> Sheet {
        N::empty_sheet(alloc)
    }
}

impl<
    D: Dialect + BranchesAtOnce + InliningDialect,
    N: ModuleNotation<D = D, Sheet = Sheet, Fault = ModuleFault>,
> ModuleNotation for InlinedForm<N> {
    type Plain = N::Plain;

    fn comment_start() -> &'static str {
        N::comment_start()
    }

    fn failure_message(
        alloc: Global,
        failure: ModuleFailure,
        source: &ModuleSource,
    ) -> Result<String, AllocError> {
        N::failure_message(alloc, failure, source)
    }

    fn stages_of(sheet: &Sheet) -> StageCounts {
        N::stages_of(sheet)
    }

    fn notes_of(
        alloc: Global,
        document: &ModuleDocument,
        source: &ModuleSource,
        ctx: &Context,
    ) -> Result<String, OptError> {
        N::notes_of(alloc, document, source, ctx)
    }

    fn is_same(
        alloc: Global,
        first: &DocumentView<Sheet>,
        second: &DocumentView<Sheet>,
    ) -> Result<bool, OptError> {
        N::is_same(alloc, first, second)
    }
}
