//! What is done to modules once they are read.
ghost use Rattle.std.specs.Prelude.{◌≡◌, OnOk};
ghost use Rattle.pliron_core.specs.Tree.{IsLive};
ghost use Rattle.pliron_driver_stages.specs.Stages.{Makes};

use pliron_core::Context;
use pliron_driver::Document;
use pliron_laws::{Dialect, OptError};
use std::alloc::Global;

/// What is done to a module with such a sheet once it is read.
pub trait ModuleStage<D: Dialect, S> {
    // it makes this tree of the tree of the module
    ghost makes: { Makes };

    /// Does so, and counts in the sheet what was done. Asks that the module is live (`is_live` tests it). Errors: allocation
    /// failure.
    fn apply(alloc: Global, document: &mut Document<S>, ctx: &mut Context) -> Result<(), OptError>
        requires { IsLive ctx.old.tree document.old.root }
        ensures root { document.new.root ≡ document.old.root }
        ensures made { OnOk result (makes ctx.old.tree ctx.new.tree document.old.root) };
}
