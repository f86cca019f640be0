//! A branch that leads elsewhere.
ghost use Rattle.std.specs.Prelude.{◌≡◌, ◌≤◌, ℕ, List, [], None, Some, IsSome, IfOk, OnOk, OnErr, length, IsOkUnless};
ghost use Rattle.pliron_core.specs.declared.attrs.Head.{Head as HeadOf};
ghost use Rattle.pliron_core.specs.declared.rewriter.OpInsertionPoint.TheVariants.{BeforeOperation};
ghost use Rattle.pliron_core.specs.Tree.{In, IsLive, IsBlock, IsDefined, head_of, operands_of, successors_of, results_of, regions_of, parent_of};
ghost use Rattle.pliron_core.specs.Insertion.{IsPointFor, after_inserting};
ghost use Rattle.pliron_core.specs.Changes.{IsSameTree};
ghost use Rattle.pliron_laws.specs.Replacing.{with_edges, branch_replaced};

use pliron_core::{Attrs, BasicBlock, Context, Head, NoMemory, Operation, Ptr, Rewriter, Value};
use pliron_laws::reads::all_operands;
use pliron_laws::{OptError, Room};
use std::alloc::Global;

// An equal head.
pub(crate) fn copy_head(alloc: Global, head: &Head) -> Result<Head, OptError>
    ensures ok { IfOk result (λ copy. copy ≡ head.now) }
    ensures memory { IsOkUnless result OptError.Memory }
{
    let mut attrs = Vec::new(alloc);
    for i in 0..head.attrs.len() {
        let attr = head.attrs.get(i).copy(alloc)?;
        attrs.push(attr)?;
    }
    Ok(Head {
        kind: head.kind,
        ssa: head.ssa,
        attrs: Attrs::new(attrs),
    })
}

// The new operation gets these operands. On allocation failure it has some of them.
fn add_operands(ctx: &mut Context, branch: Ptr<Operation>, values: &[Value]) -> Result<(), NoMemory>
    requires live { IsLive ctx.old.tree branch }
    requires no_operands { operands_of ctx.old.tree branch ≡ [] }
    requires no_successors { successors_of ctx.old.tree branch ≡ [] }
    requires values { (v : ℕ) → In v values.now → IsDefined ctx.old.tree v }
    ensures ok { OnOk result (ctx.new.tree ≡ with_edges ctx.old.tree branch values.now []) }
    ensures err { OnErr result ((given : List ℕ) × (ctx.new.tree ≡ with_edges ctx.old.tree branch given [])) }
{
    ctx.well_formed();
    for j in 0..values.len() {
        Operation::push_operand(ctx, branch, values[j])?;
    }
    Ok(())
}

// The new operation gets these operands and these successors. On allocation failure it has some of them.
fn add_edges(
    ctx: &mut Context,
    branch: Ptr<Operation>,
    values: &[Value],
    targets: &[Ptr<BasicBlock>],
) -> Result<(), NoMemory>
    requires live { IsLive ctx.old.tree branch }
    requires no_operands { operands_of ctx.old.tree branch ≡ [] }
    requires no_successors { successors_of ctx.old.tree branch ≡ [] }
    requires values { (v : ℕ) → In v values.now → IsDefined ctx.old.tree v }
    requires targets { (b : ℕ) → In b targets.now → IsBlock ctx.old.tree b }
    ensures ok { OnOk result (ctx.new.tree ≡ with_edges ctx.old.tree branch values.now targets.now) }
    ensures err { OnErr result ((given blocks : List ℕ) × (ctx.new.tree ≡ with_edges ctx.old.tree branch given
        blocks)) }
{
    ctx.well_formed();
    add_operands(ctx, branch, values)?;
    for j in 0..targets.len() {
        Operation::push_successor(ctx, branch, targets[j])?;
    }
    Ok(())
}

// The new operation gets these operands and these successors, and is inserted at the rewriter's insertion point. On
// allocation failure it is in no block.
fn put_branch<R: Rewriter>(
    ctx: &mut Context,
    branch: Ptr<Operation>,
    values: &[Value],
    targets: &[Ptr<BasicBlock>],
    rewriter: &mut R,
) -> Result<(), NoMemory>
    requires live { IsLive ctx.old.tree branch }
    requires no_operands { operands_of ctx.old.tree branch ≡ [] }
    requires no_successors { successors_of ctx.old.tree branch ≡ [] }
    requires values { (v : ℕ) → In v values.now → IsDefined ctx.old.tree v }
    requires targets { (b : ℕ) → In b targets.now → IsBlock ctx.old.tree b }
    requires free { parent_of ctx.old.tree branch ≡ None }
    requires point { IsPointFor ctx.old.tree (R.point rewriter.old) branch }
    ensures ok { OnOk result (ctx.new.tree ≡ after_inserting (with_edges ctx.old.tree branch values.now targets.now)
        (R.point rewriter.old) branch) }
    ensures err { OnErr result ((given blocks : List ℕ) × (ctx.new.tree ≡ with_edges ctx.old.tree branch given
        blocks)) }
    ensures point { R.point rewriter.new ≡ R.point rewriter.old }
{
    add_edges(ctx, branch, values, targets)?;
    rewriter.insert_operation(ctx, branch)?;
    Ok(())
}

// An operation with this head, these operands and these successors takes the place of the operation: a whole rewrite,
// or none. Errors: allocation failure, which leaves the tree as it was, but for erased handles.
fn replace_branch<R: Rewriter>(
    op: Ptr<Operation>,
    ctx: &mut Context,
    head: Head,
    values: &Vec<Value>,
    targets: &Vec<Ptr<BasicBlock>>,
    rewriter: &mut R,
) -> Result<(), OptError>
    requires live { IsLive ctx.old.tree op }
    requires placed { IsSome (parent_of ctx.old.tree op) }
    requires values { (v : ℕ) → In v values.now.items → In v (operands_of ctx.old.tree op) }
    requires targets { (b : ℕ) → In b targets.now.items → IsBlock ctx.old.tree b }
    requires no_results { results_of ctx.old.tree op ≡ [] }
    requires no_regions { regions_of ctx.old.tree op ≡ [] }
    requires point { R.point rewriter.old ≡ BeforeOperation op }
    ensures ok { OnOk result (ctx.new.tree ≡ branch_replaced ctx.old.tree op head values.now.items targets.now.items) }
    ensures refused { OnErr result (IsSameTree ctx.old.tree ctx.new.tree) }
    ensures memory { IsOkUnless result OptError.Memory }
    ensures longer { length ctx.old.tree.operations ≤ length ctx.new.tree.operations }
{
    ctx.well_formed();
    let branch = Operation::create(ctx, head, 0, 0)?;
    ctx.well_formed();
    match put_branch(ctx, branch, values.as_slice(), targets.as_slice(), rewriter) {
        Ok(()) => {
            ctx.well_formed();
            rewriter.erase_operation(ctx, op);
            Ok(())
        }
        Err(refusal) => {
            ctx.well_formed();
            rewriter.erase_operation(ctx, branch);
            Err(OptError::from(refusal))
        }
    }
}

/// An operation with the head and the operands of this one, and with these successors, takes its place: a whole rewrite,
/// or none. The handle is a new one.
///
/// Asks that the operation is live in a block and has no results and no regions, and that the successors are live. It
/// takes room for two changes, and the rewriter inserts before the operation from then on. Errors: allocation failure,
/// which leaves the tree as it was, but for erased handles. Cost: linear in the attributes, operands and successors of
/// both, and what the rewriter's listener costs.
pub fn lead_elsewhere<R: Rewriter + Room>(
    alloc: Global,
    op: Ptr<Operation>,
    ctx: &mut Context,
    targets: &Vec<Ptr<BasicBlock>>,
    rewriter: &mut R,
) -> Result<(), OptError>
    requires live { IsLive ctx.old.tree op }
    requires placed { IsSome (parent_of ctx.old.tree op) }
    requires targets { (b : ℕ) → In b targets.now.items → IsBlock ctx.old.tree b }
    requires no_results { results_of ctx.old.tree op ≡ [] }
    requires no_regions { regions_of ctx.old.tree op ≡ [] }
    ensures ok { OnOk result ((head : HeadOf) → head_of ctx.old.tree op ≡ Some head → ctx.new.tree ≡ branch_replaced
        ctx.old.tree op head (operands_of ctx.old.tree op) targets.now.items) }
    ensures refused { OnErr result (IsSameTree ctx.old.tree ctx.new.tree) }
    ensures memory { IsOkUnless result OptError.Memory }
    ensures longer { length ctx.old.tree.operations ≤ length ctx.new.tree.operations }
{
    ctx.well_formed();
    let head = copy_head(alloc, op.head(ctx))?;
    let values = all_operands(alloc, op, ctx)?;
    rewriter.room(alloc, 2)?;
    rewriter.set_insertion_point_before_operation(op);
    replace_branch(op, ctx, head, &values, targets, rewriter)
}
