//! Region entry operands: the arguments of entries by the operands that are named for them, listed for an
//! operation with many operands.
//!
//! It serves growth alone: without it `scopeargs` of `docs/benchmarks/shapes.py` is quadratic.
ghost use Rattle.std.specs.Prelude.{◌<◌, IfSome, IsOkUnless, length};
ghost use Rattle.pliron_core.specs.Tree.{IsLive, regions_of};

use pliron_core::{Context, Operation, Ptr};
use pliron_laws::{Dialect, OptError};
use std::alloc::Global;

/// An argument of an entry block for which an operand is named: the index of its region in the operation, and its own
/// among the arguments. The candidates of one operand are a chain in the list: `before` is the number of the previous
/// one, counted from 1, and 0 ends the chain.
#[derive(Clone, Copy)]
pub struct EntryArgument {
    pub region: usize,
    pub index: usize,
    pub before: usize,
}

/// The arguments of an operation's entries for which it most likely names each of its operands. Nothing is
/// promised of them: a caller tests them.
///
/// ```text
/// last      by the operand's place: how many were listed when the last one for it was, 0 for none
/// listed    in the order of the regions
/// ```
#[derive(Drop)]
pub struct EntryArguments {
    last: Vec<usize>,
    listed: Vec<EntryArgument>,
}

impl EntryArguments {
    /// Those of this operation, each argument of each entry for which it names an operand.
    ///
    /// Asks that it is live. Errors: allocation failure. Cost: one step for each operand, region and argument
    /// of an entry.
    pub fn of<D: Dialect>(
        alloc: Global,
        op: Ptr<Operation>,
        ctx: &Context,
    ) -> Result<EntryArguments, OptError>
        requires { IsLive ctx.now.tree op }
        ensures memory { IsOkUnless result OptError.Memory }
    {
        let last = Vec::from_elem(alloc, 0, op.num_operand(ctx))?;
        let mut candidates = EntryArguments {
            last,
            listed: Vec::new(alloc),
        };
        for region in 0..op.num_region(ctx) {
            candidates.list_entry::<D>(op, region, ctx)?;
        }
        Ok(candidates)
    }

    // Lists the arguments of the region's entry, if it has one.
    fn list_entry<D: Dialect>(
        &mut self,
        op: Ptr<Operation>,
        region: usize,
        ctx: &Context,
    ) -> Result<(), OptError>
        requires live { IsLive ctx.now.tree op }
        requires region { region < length (regions_of ctx.now.tree op) }
        ensures memory { IsOkUnless result OptError.Memory }
    {
        let Some(entry) = op.get_region(ctx, region).get_head(ctx) else {
            return Ok(());
        };
        for index in 0..entry.num_argument(ctx) {
            if let Some(place) = D::entry_operand(op, ctx, region, index) {
                self.put(place, region, index)?;
            }
        }
        Ok(())
    }

    fn put(&mut self, place: usize, region: usize, index: usize) -> Result<(), OptError>
        ensures memory { IsOkUnless result OptError.Memory }
    {
        if place < self.last.len() {
            let before = self.last[place];
            self.listed.push(EntryArgument {
                region,
                index,
                before,
            })?;
            self.last[place] = self.listed.len();
        }
        Ok(())
    }

    /// How many were listed when the last one for this place was, 0 for none. Takes no memory. Cost: constant.
    pub fn last(&self, place: usize) -> usize {
        if place < self.last.len() {
            self.last[place]
        } else {
            0
        }
    }

    /// The one that was listed when so many were. Takes no memory. Cost: constant.
    pub fn get(&self, count: usize) -> Option<EntryArgument>
        ensures { IfSome result (λ candidate. candidate.before < count) }
    {
        if count == 0 || count > self.listed.len() {
            return None;
        }
        let candidate = self.listed[count - 1];
        if candidate.before < count {
            Some(candidate)
        } else {
            None
        }
    }
}
