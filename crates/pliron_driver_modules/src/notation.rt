//! Notations of modules.
ghost use Rattle.pliron_core.specs.Tree.{IsLive};

use crate::source::ModuleSource;
use crate::stages::StageCounts;
use pliron_core::Context;
use pliron_driver::{ClosedNotation, Document, Notation, TextFailure};
use pliron_laws::OptError;
use std::alloc::{AllocError, Global};

/// A module that was read, in its context.
#[derive(Clone, Copy)]
pub struct DocumentView<'m, S> {
    pub document: &'m Document<S>,
    pub ctx: &'m Context,
}

/// A notation of modules: what is told of their texts, beside how they are read and printed.
pub trait ModuleNotation: Notation {
    /// The notation of the same texts in which a module is read as it is written.
    type Plain: Notation<Sheet = Self::Sheet, Fault = Self::Fault>;

    /// What a line begins with that says nothing. Cost: constant.
    fn comment_start() -> &'static str;

    /// A line that says why the text isn't answered. Errors: allocation failure. Cost: linear in the text before the place.
    fn failure_message(
        alloc: Global,
        failure: TextFailure<Self::Fault>,
        source: &ModuleSource,
    ) -> Result<String, AllocError>;

    /// What stages before the passes did as the module was read. Cost: constant.
    fn stages_of(sheet: &Self::Sheet) -> StageCounts;

    /// Lines on what passes do with the functions of the module that was read of this text. Asks that its operation is live
    /// (`is_live` tests it). Errors: allocation failure.
    fn notes_of(
        alloc: Global,
        document: &Document<Self::Sheet>,
        source: &ModuleSource,
        ctx: &Context,
    ) -> Result<String, OptError>
        requires { IsLive ctx.now.tree document.now.root };

    /// Whether both modules say the same. Errors: allocation failure. Cost: linear in both.
    fn is_same(
        alloc: Global,
        first: &DocumentView<Self::Sheet>,
        second: &DocumentView<Self::Sheet>,
    ) -> Result<bool, OptError>;
}

impl<N: ModuleNotation> ModuleNotation for ClosedNotation<N> {
    type Plain = ClosedNotation<N::Plain>;

    fn comment_start() -> &'static str {
        N::comment_start()
    }

    fn failure_message(
        alloc: Global,
        failure: TextFailure<N::Fault>,
        source: &ModuleSource,
    ) -> Result<String, AllocError> {
        N::failure_message(alloc, failure, source)
    }

    fn stages_of(sheet: &N::Sheet) -> StageCounts {
        N::stages_of(sheet)
    }

    fn notes_of(
        alloc: Global,
        document: &Document<N::Sheet>,
        source: &ModuleSource,
        ctx: &Context,
    ) -> Result<String, OptError> {
        N::notes_of(alloc, document, source, ctx)
    }

    fn is_same(
        alloc: Global,
        first: &DocumentView<N::Sheet>,
        second: &DocumentView<N::Sheet>,
    ) -> Result<bool, OptError> {
        N::is_same(alloc, first, second)
    }
}
