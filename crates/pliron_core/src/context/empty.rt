//! Whether anything was created in a context.
ghost use Rattle.std.specs.Prelude.{◌≡◌, ◌↔◌, IsTrue};
ghost use Rattle.pliron_core.specs.Writes.{no_tree};

use crate::context::Context;

impl Context {
    /// Whether nothing was created in the context: its tree is that of `Context::new`. What was created and
    /// erased again leaves its handle, so a context that had something is never empty. Takes no memory. Cost:
    /// constant.
    pub fn is_empty(&self) -> bool
        ensures { IsTrue result ↔ (self.now.tree ≡ no_tree) }
    {
        self.well_formed();
        self.operations.is_empty()
            && self.slots.is_empty()
            && self.arguments.num_blocks() == 0
            && self.arguments.num_values() == 0
    }
}
