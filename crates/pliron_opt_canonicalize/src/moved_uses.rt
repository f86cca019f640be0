//! Uses that were moved to another value: their operations, and the arguments they are forwarded to, may fold now.
ghost use Rattle.std.specs.Prelude.{◌≡◌, [], Ok, IsOkUnless};
ghost use Rattle.pliron_core.specs.declared.attrs.IRStatus.TheVariants.{Changed as IsChanged};
ghost use Rattle.pliron_core.specs.Tree.{IsDefined};

use pliron_core::{Context, IRStatus, Operation, Ptr, Value};
use pliron_laws::OptError;
use std::alloc::Global;
use std::mem;

/// Uses of values that folded, each an operation and a place among its operands.
#[derive(Drop)]
pub struct MovedUses {
    pub alloc: Global,
    pub uses: Vec<(Ptr<Operation>, usize)>,
}

impl MovedUses {
    /// No uses. Cost: constant.
    pub fn new(alloc: Global) -> MovedUses
        ensures { result.uses.items ≡ [] }
    {
        MovedUses {
            alloc,
            uses: Vec::new(alloc),
        }
    }

    /// The uses of the value come behind these. Asks that the value is live. Errors: allocation failure. Cost: their
    /// number.
    pub fn add_uses_of(&mut self, value: Value, ctx: &Context) -> Result<(), OptError>
        requires { IsDefined ctx.now.tree value }
        ensures memory { IsOkUnless result OptError.Memory }
    {
        for i in 0..value.num_use(ctx) {
            self.uses.push(value.get_use(ctx, i))?;
        }
        Ok(())
    }

    /// Where the outcome reports no change, only the first `count` uses are left. Cost: constant.
    pub fn confirm(&mut self, count: usize, outcome: &Result<IRStatus, OptError>)
        ensures { outcome.now ≡ Ok IsChanged → self.new.uses.items ≡ self.old.uses.items }
    {
        match outcome {
            Ok(IRStatus::Changed) => {}
            _ => self.uses.truncate(count),
        }
    }

    /// The uses, of which none is left here. Cost: constant.
    pub fn take_all(&mut self) -> Vec<(Ptr<Operation>, usize)>
        ensures taken { result.items ≡ self.old.uses.items }
        ensures left { self.new.uses.items ≡ [] }
    {
        mem::replace(&mut self.uses, Vec::new(self.alloc))
    }
}
