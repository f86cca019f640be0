//! Texts of modules to which a stage is applied as they are read.
ghost use Rattle.std.specs.Prelude.{◌≡◌, OnOk};
ghost use Rattle.pliron_core.specs.Tree.{IsLive};
ghost use Rattle.pliron_laws.specs.Linked.{IsWellLinked};
ghost use Rattle.pliron_driver_stages.specs.Stages.{ReadsStaged};

use crate::stage::ModuleStage;
use pliron_core::Context;
use pliron_driver::{Document, Notation, TextFailure};
use pliron_driver_modules::{DocumentView, ModuleNotation, ModuleSource, StageCounts};
use pliron_laws::{Dialect, OptError, is_well_linked};
use std::alloc::{AllocError, Global};
use std::marker::PhantomData;

/// The notation, but that the stage is applied to a module once it is read: passes begin with what the stage leaves.
///
/// What a text says is then a tree that the stage made of the one that the notation reads of it. Reading answers `VerifyAfter`
/// where the stage leaves a module that isn't well linked.
pub struct StagedForm<T, N>(PhantomData<(T, N)>);

/// Applies the stage to the document's module.
///
/// Asks that the module is live (`is_live` tests it). Errors: those of the stage; `VerifyAfter` where the module isn't well
/// linked afterwards. Cost: that of the stage, and linear in the module.
pub fn apply_stage<D: Dialect, S, T: ModuleStage<D, S>>(
    alloc: Global,
    document: &mut Document<S>,
    ctx: &mut Context,
) -> Result<(), OptError>
    requires { IsLive ctx.old.tree document.old.root }
    ensures root { document.new.root ≡ document.old.root }
    ensures made { OnOk result (T.makes ctx.old.tree ctx.new.tree document.old.root) }
    ensures liveness { OnOk result (IsLive ctx.new.tree document.new.root) }
    ensures links { OnOk result (IsWellLinked D.meaning ctx.new.tree document.new.root) }
{
    T::apply(alloc, document, ctx)?;
    if document.root.is_live(ctx) && is_well_linked::<D>(document.root, ctx) {
        Ok(())
    } else {
        Err(OptError::VerifyAfter)
    }
}

impl<N: ModuleNotation, T: ModuleStage<N::D, N::Sheet>> Notation for StagedForm<T, N> {
    type D = N::D;

    type Rules = N::Rules;

    type Sheet = N::Sheet;

    type Fault = N::Fault;

    ghost reads = { ReadsStaged N.reads T.makes };

    ghost prints = { N.prints };

    fn read_document(
        alloc: Global,
        text: &[u8],
        ctx: &mut Context,
    ) -> Result<Document<N::Sheet>, TextFailure<N::Fault>> {
        let mut document = N::read_document(alloc, text, ctx)?;
        apply_stage::<N::D, N::Sheet, T>(alloc, &mut document, ctx)?;
        Ok(document)
    }

    fn print_document(
        alloc: Global,
        document: &Document<N::Sheet>,
        ctx: &Context,
    ) -> Result<Vec<u8>, OptError> {
        N::print_document(alloc, document, ctx)
    }

    fn empty_sheet(alloc: Global) -> N::Sheet {
        N::empty_sheet(alloc)
    }
}

impl<N: ModuleNotation, T: ModuleStage<N::D, N::Sheet>> ModuleNotation for StagedForm<T, N> {
    type Plain = N::Plain;

    fn comment_start() -> &'static str {
        N::comment_start()
    }

    fn failure_message(
        alloc: Global,
        failure: TextFailure<N::Fault>,
        source: &ModuleSource,
    ) -> Result<String, AllocError> {
        N::failure_message(alloc, failure, source)
    }

    fn stages_of(sheet: &N::Sheet) -> StageCounts {
        N::stages_of(sheet)
    }

    fn notes_of(
        alloc: Global,
        document: &Document<N::Sheet>,
        source: &ModuleSource,
        ctx: &Context,
    ) -> Result<String, OptError> {
        N::notes_of(alloc, document, source, ctx)
    }

    fn is_same(
        alloc: Global,
        first: &DocumentView<N::Sheet>,
        second: &DocumentView<N::Sheet>,
    ) -> Result<bool, OptError> {
        N::is_same(alloc, first, second)
    }
}
