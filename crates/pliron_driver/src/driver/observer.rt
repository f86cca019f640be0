//! What is looked at around passes.
ghost use Rattle.pliron_core.specs.Tree.{IsLive};

use super::notation::{Document, Notation};
use pliron_core::Context;
use pliron_laws::OptError;
use std::alloc::Global;

/// What looks at a tree before and after passes, which it can't change. An observer that looks at nothing writes nothing.
pub trait Observer<N: Notation> {
    /// Looks at what was read of a text, before the passes. Asks that its operation is live. Errors: allocation failure.
    /// Cost: constant, unless it looks.
    fn before(
        &mut self,
        _: Global,
        document: &Document<N::Sheet>,
        ctx: &Context,
    ) -> Result<(), OptError>
        requires { IsLive ctx.now.tree document.now.root }
    {
        Ok(())
    }

    /// Looks at what the passes left, and at how that is printed. Asks that its operation is live. Errors: allocation
    /// failure. Cost: constant, unless it looks.
    fn after(
        &mut self,
        _: Global,
        document: &Document<N::Sheet>,
        printed: &[u8],
        ctx: &Context,
    ) -> Result<(), OptError>
        requires { IsLive ctx.now.tree document.now.root }
    {
        Ok(())
    }
}

/// Looks at nothing.
#[derive(Clone, Copy, Debug, Drop)]
pub struct NoObserver;

impl<N: Notation> Observer<N> for NoObserver {}
