//! Edges that were found feasible, and arguments that operands are named for, kept for operations with many operands.
//!
//! An operation that was visited more than four times keeps its feasible edges, and the arguments for which it
//! names operands. Where an operand is lowered, the one argument is then lowered at once. The visit still
//! follows, so no invariant is owed: where folds are monotone a feasible edge stays feasible, and a candidate
//! is tested before it is used. Four visits tell such a branch from one for which one visit at the end is enough.
//!
//! What is kept is derived from lattice values and is none; those are in `Tables`, by number. The tables here are by
//! handle, and grow: a row for each operation, by number, would cost each text a table as long as itself.
//!
//! It serves growth alone: without it `shiftcbr` of `docs/benchmarks/shapes.py` is quadratic.
ghost use Rattle.std.specs.Prelude.{◌≡◌, ◌↔◌, false, ℕ, Some, OnOk, IsOkUnless, IsTrue};
ghost use Rattle.indexmap.specs.IndexMap.{index_map_len};
ghost use Rattle.pliron_core.specs.Tree.{IsLive};
ghost use Rattle.pliron_opt_sccp.specs.Feasible.{leads, KeepsAmong};

use crate::entry_operands::EntryArguments;
use indexmap::IndexMap;
use pliron_core::{BasicBlock, Context, Operation, Ptr};
use pliron_laws::{Dialect, OptError};
use std::alloc::Global;
use std::collections::HashSet;

/// How many visits are few. What was visited more often has its edges kept, and its named operands listed.
const FEW_VISITS: usize = 4;

/// Of operations that fold as branches and were visited more than a few times, the blocks that they may go to
/// by the lattice values of their last visit. Values are only lowered, and where folds are monotone such a
/// block stays one. Of operations that name operands and were visited as often, the arguments that they name
/// them for.
#[derive(Drop)]
pub struct FeasibleEdges {
    visits: IndexMap<Ptr<Operation>, usize>,
    blocks: IndexMap<Ptr<Operation>, HashSet<u64>>,
    named: IndexMap<Ptr<Operation>, EntryArguments>,
}

impl FeasibleEdges {
    /// Nothing was visited. Takes no memory. Cost: constant.
    pub fn new(alloc: Global) -> Self
        ensures { (k b : ℕ) → leads result k b ≡ false }
    {
        FeasibleEdges {
            visits: IndexMap::new(alloc),
            blocks: IndexMap::new(alloc),
            named: IndexMap::new(alloc),
        }
    }

    // Counts a visit of the operation, and answers how often it was visited.
    fn count(&mut self, op: Ptr<Operation>) -> Result<usize, OptError>
        ensures ok { OnOk result (self.new.blocks ≡ self.old.blocks) }
        ensures memory { IsOkUnless result OptError.Memory }
    {
        let before = match self.visits.get(&op) {
            Some(visits) => *visits,
            None => 0,
        };
        let visits = before.saturating_add(1);
        self.visits.insert(op, visits)?;
        Ok(visits)
    }

    /// The operation was visited once more, and may go to these blocks: where that was more than a few times they
    /// are kept, in place of those from before.
    ///
    /// Errors: allocation failure. Cost: constant.
    pub fn keep(&mut self, op: Ptr<Operation>, blocks: HashSet<u64>) -> Result<(), OptError>
        ensures ok { OnOk result (KeepsAmong op (Some blocks) self.old self.new) }
        ensures memory { IsOkUnless result OptError.Memory }
    {
        if self.count(op)? <= FEW_VISITS {
            return Ok(());
        }
        self.blocks.insert(op, blocks)?;
        Ok(())
    }

    /// The operation was visited once more: where that was more than a few times the arguments that it names operands
    /// for are listed, once.
    ///
    /// Asks that it is live. Errors: allocation failure. Cost: constant, and once one step for each operand,
    /// region and argument of an entry.
    pub fn keep_named<D: Dialect>(
        &mut self,
        alloc: Global,
        op: Ptr<Operation>,
        ctx: &Context,
    ) -> Result<(), OptError>
        requires { IsLive ctx.now.tree op }
        ensures ok { OnOk result ((k b : ℕ) → leads self.new k b ≡ leads self.old k b) }
        ensures memory { IsOkUnless result OptError.Memory }
    {
        if self.count(op)? <= FEW_VISITS || self.named.contains_key(&op) {
            return Ok(());
        }
        let candidates = EntryArguments::of::<D>(alloc, op, ctx)?;
        self.named.insert(op, candidates)?;
        Ok(())
    }

    /// The arguments that the operation most likely names its operands for, where they are listed. Cost: a look-up.
    pub fn entry_candidates(&self, op: Ptr<Operation>) -> Option<&EntryArguments> {
        self.named.get(&op)
    }

    /// Whether blocks are kept of the operation, or arguments listed. Cost: two look-ups.
    pub fn has_eager_edges(&self, op: Ptr<Operation>) -> bool {
        self.blocks.contains_key(&op) || self.named.contains_key(&op)
    }

    /// Whether nothing is kept. Cost: constant.
    pub fn is_empty(&self) -> bool
        ensures { IsTrue result ↔ ((index_map_len self.now.blocks ≡ 0) × (index_map_len self.now.named ≡ 0)) }
    {
        self.blocks.is_empty() && self.named.is_empty()
    }

    /// Whether the block is kept as one that the operation may go to. Cost: two look-ups.
    pub fn leads(&self, op: Ptr<Operation>, block: Ptr<BasicBlock>) -> bool
        ensures { result ≡ leads self.now op block }
    {
        match self.blocks.get(&op) {
            Some(blocks) => blocks.contains(&block.key()),
            None => false,
        }
    }
}
