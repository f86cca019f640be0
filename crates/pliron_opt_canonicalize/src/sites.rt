//! What sweeps visit.
ghost use Rattle.std.specs.Prelude.{◌≡◌, ℕ, Some, None, IfOk, IfSome, OnOk, IsOkUnless, length};
ghost use Rattle.pliron_core.specs.Tree.{In, IsLive, body_of, first_of, parent_of};
ghost use Rattle.pliron_laws.specs.Linked.{EdgesLast};
ghost use Rattle.pliron_opt_canonicalize.specs.Sites.{AddsSites, AreListed, AreSitesOf};

use pliron_core::{BasicBlock, Context, Operation, Ptr};
use pliron_graph_order::dominance_order;
use pliron_laws::OptError;
use std::alloc::Global;

/// Where values are defined.
#[derive(Clone, Copy, PartialEq, Eq, Hash)]
pub enum Site {
    Arguments(Ptr<BasicBlock>),
    Results(Ptr<Operation>),
}

// The block that the operation is the first of.
fn block_begun(op: Ptr<Operation>, ctx: &Context) -> Option<Ptr<BasicBlock>>
    requires { IsLive ctx.now.tree op }
    ensures parent { IfSome result (λ b. parent_of ctx.now.tree op ≡ Some b) }
    ensures first { (b : ℕ) → first_of (body_of ctx.now.tree b) None ≡ Some op → result ≡ Some b }
{
    ctx.well_formed();
    let block = op.get_parent_block(ctx)?;
    if block.get_head(ctx) == Some(op) {
        Some(block)
    } else {
        None
    }
}

// Adds the sites of the operation: its results, and before them, if the operation is the first of its block, the
// arguments of the block.
fn push_sites(sites: &mut Vec<Site>, op: Ptr<Operation>, ctx: &Context) -> Result<(), OptError>
    requires live { IsLive ctx.now.tree op }
    ensures added { OnOk result (AddsSites ctx.now.tree op sites.old.items sites.new.items) }
    ensures memory { IsOkUnless result OptError.Memory }
{
    if let Some(block) = block_begun(op, ctx) {
        sites.push(Site::Arguments(block))?;
        sites.push(Site::Results(op))?;
        return Ok(());
    }
    sites.push(Site::Results(op))?;
    Ok(())
}

// The sites of these operations.
fn list_sites(alloc: Global, ops: &[Ptr<Operation>], ctx: &Context) -> Result<Vec<Site>, OptError>
    requires live { (k : ℕ) → In k ops.now → IsLive ctx.now.tree k }
    ensures listed { IfOk result (λ sites. AreSitesOf ctx.now.tree ops.now (length ops.now) sites.items) }
    ensures memory { IsOkUnless result OptError.Memory }
{
    let mut sites = Vec::new(alloc);
    for place in 0..ops.len() {
        push_sites(&mut sites, ops[place], ctx)?;
    }
    Ok(sites)
}

/// The results and arguments that are visited inside the root, in dominance order.
///
/// Asks that the root is live and that edges are last in it. Errors: allocation failure. Cost: that of the order.
pub fn visited_sites(
    alloc: Global,
    root: Ptr<Operation>,
    ctx: &Context,
) -> Result<Vec<Site>, OptError>
    requires live { IsLive ctx.now.tree root }
    requires edges { EdgesLast ctx.now.tree root }
    ensures listed { IfOk result (λ sites. AreListed ctx.now.tree root sites.items) }
    ensures memory { IsOkUnless result OptError.Memory }
{
    ctx.well_formed();
    let order = dominance_order(alloc, root, ctx)?;
    list_sites(alloc, &order.operations, ctx)
}
