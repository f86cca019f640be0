//! Whether branches alone lead to a block.
//!
//! What leads to a block ends its own block, so while the block is live none of it is erased, and what is a
//! branch, or none, stays so. So a block to which many edges lead is asked once, at the start, and marked; the
//! mark is right until the block is erased. Where few edges lead, they are sooner asked again than looked up.
//!
//! It serves growth alone: without it `shortedges` of `docs/benchmarks/shapes.py` is quadratic.
ghost use Rattle.std.specs.Prelude.{◌≡◌, ◌↔◌, ℕ, None, IfOk, OnOk, IsTrue};
ghost use Rattle.pliron_core.specs.Tree.{IsBlock, HoldsBlock};
ghost use Rattle.pliron_opt_dce.specs.Incoming.{BranchesLead};
ghost use Rattle.pliron_opt_dce.specs.Predecessors.{mark_of_block, AreMarked};

use indexmap::IndexMap;
use pliron_core::{BasicBlock, Context, Operation, Ptr};
use pliron_laws::Dialect;
use std::alloc::{AllocError, Global};

// Whether more edges lead to the block than are asked again at each visit.
pub(crate) fn has_many(block: Ptr<BasicBlock>, ctx: &Context) -> bool
    requires { IsBlock ctx.now.tree block }
{
    block.num_use(ctx) > 8
}

// Whether branches alone lead to each block to which many edges lead.
#[derive(Drop)]
pub(crate) struct Predecessors {
    marks: IndexMap<Ptr<BasicBlock>, bool>,
}

// Whether branches alone lead to the block. Asks each edge to it.
fn are_branches<D: Dialect>(block: Ptr<BasicBlock>, ctx: &Context) -> bool
    requires { IsBlock ctx.now.tree block }
    ensures { IsTrue result ↔ BranchesLead D.meaning ctx.now.tree block }
{
    ctx.well_formed();
    for i in 0..block.num_use(ctx) {
        let (user, _) = block.get_use(ctx, i);
        if !D::is_branch(user, ctx) {
            return false;
        }
    }
    true
}

impl Predecessors {
    // No block is marked.
    fn empty(alloc: Global) -> Predecessors
        ensures { (block : ℕ) → mark_of_block result block ≡ None }
    {
        Predecessors {
            marks: IndexMap::new(alloc),
        }
    }

    // Marks these blocks.
    pub(crate) fn new<D: Dialect>(
        alloc: Global,
        blocks: &[Ptr<BasicBlock>],
        root: Ptr<Operation>,
        ctx: &Context,
    ) -> Result<Predecessors, AllocError>
        ensures { IfOk result (λ known. AreMarked D.meaning ctx.now.tree root (λ b. mark_of_block known b)) }
    {
        let mut known = Predecessors::empty(alloc);
        for block in blocks {
            known.add::<D>(*block, root, ctx)?;
        }
        Ok(known)
    }

    // Marks the block, if it is live.
    fn add<D: Dialect>(
        &mut self,
        block: Ptr<BasicBlock>,
        root: Ptr<Operation>,
        ctx: &Context,
    ) -> Result<(), AllocError>
        requires { AreMarked D.meaning ctx.now.tree root (λ b. mark_of_block self.old b) }
        ensures { OnOk result (AreMarked D.meaning ctx.now.tree root (λ b. mark_of_block self.new b)) }
    {
        if !block.is_live(ctx) {
            return Ok(());
        }
        let mark = are_branches::<D>(block, ctx);
        self.marks.insert(block, mark)?;
        Ok(())
    }

    // Whether branches alone lead to the block. Asks a few edges at most, if each block with many is marked.
    pub(crate) fn are_branches_of<D: Dialect>(
        &self,
        block: Ptr<BasicBlock>,
        root: Ptr<Operation>,
        ctx: &Context,
    ) -> bool
        requires block { IsBlock ctx.now.tree block }
        requires inside { HoldsBlock ctx.now.tree root block }
        requires marked { AreMarked D.meaning ctx.now.tree root (λ b. mark_of_block self.now b) }
        ensures { IsTrue result ↔ BranchesLead D.meaning ctx.now.tree block }
    {
        if !self.marks.is_empty() && has_many(block, ctx) {
            if let Some(mark) = self.marks.get(&block) {
                return *mark;
            }
        }
        are_branches::<D>(block, ctx)
    }
}
