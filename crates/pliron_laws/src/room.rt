//! Memory reserved for changes of a tree.
ghost use Rattle.std.specs.Prelude.{◌≡◌, IsOkUnless};

use crate::fault::OptError;
use pliron_core::{IRRewriter, Rewriter};
use std::alloc::Global;

/// A rewriter that can take room for its listener before a change.
pub trait Room: Rewriter {
    /// After `Ok` the next `n` changes through this rewriter take no memory in a listener. The
    /// insertion point stays.
    ///
    /// Errors: allocation failure.
    fn room(&mut self, alloc: Global, n: usize) -> Result<(), OptError>
        ensures point { Self.point self.new ≡ Self.point self.old }
        ensures memory { IsOkUnless result OptError.Memory };
}

/// Without a listener there is nothing to make room for.
impl Room for IRRewriter {
    fn room(&mut self, _alloc: Global, _n: usize) -> Result<(), OptError> {
        Ok(())
    }
}
