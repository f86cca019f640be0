//! Erasing, from the inside out: an operation is erased once nothing is inside it.
ghost use Rattle.std.specs.Prelude.{◌≡◌, ℕ, nat_eq, [], Some, None};
ghost use Rattle.pliron_core.specs.declared.context.Def.TheVariants.{Result, Argument};
ghost use Rattle.pliron_core.specs.Tree.{In, IsLive, IsBlock, operands_of, successors_of, regions_of, parent_of, body_of, layout_of, definition_of, parent_operation_of};
ghost use Rattle.pliron_core.specs.Writes.{taken_out};
ghost use Rattle.pliron_core.specs.Erased.{block_taken_out, after_clearing, names_dropped, uses_dropped, after_erasing, block_emptied, block_erased, IsSelfContained, IsSelfContainedBlock};
ghost use Rattle.pliron_core.specs.Dismantling.{after_dismantling, region_popped, last_region_of, IsLast, IsUnnamed, IsUnused, IsUnusedBlock, IsStep, without_names};

use super::place::take_out;
use super::{Context, OperationEntry};
use crate::inline_list::InlineList;
use crate::keys::{BasicBlock, Operation, Ptr};

// What is last inside an operation: in its last region, and there in the last block.
#[derive(Clone, Copy)]
enum Inner {
    Operation(Ptr<Operation>),
    // a block without operations
    Block(Ptr<BasicBlock>),
    // a region without blocks
    Region,
    Nothing,
}

// An operation in no block, which names nothing and has no regions, and whose results nothing names, is erased.
// Constant cost.
#[inline(always)]
fn bury(ctx: &mut Context, op: Ptr<Operation>)
    requires live { IsLive ctx.old.tree op }
    requires free { parent_of ctx.old.tree op ≡ None }
    requires operands { operands_of ctx.old.tree op ≡ [] }
    requires successors { successors_of ctx.old.tree op ≡ [] }
    requires regions { regions_of ctx.old.tree op ≡ [] }
    requires unnamed { (x v i : ℕ) → In v (operands_of ctx.old.tree x) → definition_of ctx.old.tree v ≡ Some
        (Result op i) → ⊥ }
    ensures { ctx.new ≡ record ctx.old { tree = after_dismantling ctx.old.tree op } }
{
    let alloc = ctx.alloc;
    ctx.operations[op.index() as usize] = OperationEntry {
        head: None,
        results: InlineList::new(alloc),
        regions: InlineList::new(alloc),
    };
}

// The operation's last region, which is empty, is removed. Constant cost.
fn pop_region(ctx: &mut Context, op: Ptr<Operation>)
    requires live { IsLive ctx.old.tree op }
    requires empty { (r : ℕ) × (last_region_of ctx.old.tree op ≡ Some r) × (layout_of ctx.old.tree r ≡ []) }
    ensures { ctx.new ≡ record ctx.old { tree = region_popped ctx.old.tree op } }
{
    ctx.layout.agree();
    ctx.order.agree();
    ctx.operations[op.index() as usize].regions.pop();
}

// An empty block that no operation names, and whose arguments nothing names, leaves its region.
// Constant cost.
fn remove_block(ctx: &mut Context, block: Ptr<BasicBlock>)
    requires block { IsBlock ctx.old.tree block }
    requires empty { body_of ctx.old.tree block ≡ [] }
    requires not_named { (x : ℕ) → In block (successors_of ctx.old.tree x) → ⊥ }
    requires unnamed { (x v i : ℕ) → In v (operands_of ctx.old.tree x) → definition_of ctx.old.tree v ≡ Some
        (Argument block i) → ⊥ }
    ensures { ctx.new ≡ record ctx.old { tree = block_taken_out ctx.old.tree block } }
{
    ctx.layout.agree();
    ctx.order.agree();
    if let Some(region) = ctx.layout.owner(block.index()) {
        ctx.arguments.clear(block);
        ctx.layout.remove(region, block.index());
    }
}

// What is last inside the operation. Constant cost.
#[inline(always)]
fn last_inside(ctx: &Context, op: Ptr<Operation>) -> Inner
    requires { IsLive ctx.now.tree op }
    ensures { IsLast ctx.now.tree op result }
{
    ctx.well_formed();
    let regions = &ctx.operations[op.index() as usize].regions;
    let count = regions.len();
    if count == 0 {
        return Inner::Nothing;
    }
    match ctx.layout.tail(regions.get(count - 1).index()) {
        None => Inner::Region,
        Some(block) => match ctx.order.tail(block) {
            None => Inner::Block(Ptr::new(block)),
            Some(inner) => Inner::Operation(Ptr::new(inner)),
        },
    }
}

// One step of taking apart an operation that names nothing, and of which nothing names a value or a
// block. Constant cost.
#[inline(always)]
fn dismantle_step(ctx: &mut Context, op: Ptr<Operation>) -> Option<Ptr<Operation>>
    requires live { IsLive ctx.old.tree op }
    requires unnamed { IsUnnamed ctx.old.tree op }
    ensures { IsStep ctx.old.tree op result ctx.new.tree }
{
    match last_inside(ctx, op) {
        Inner::Operation(inner) => Some(inner),
        Inner::Block(block) => {
            remove_block(ctx, block);
            Some(op)
        }
        Inner::Region => {
            pop_region(ctx, op);
            Some(op)
        }
        Inner::Nothing => {
            let up = op.get_parent_op(ctx);
            take_out(ctx, op);
            bury(ctx, op);
            up
        }
    }
}

// Erases an operation in no block with its contents, where nothing within it names anything and nothing names a
// value or a block of it: from the inside out, the last first. Linear in the operations, blocks and regions
// that are erased; takes no memory.
#[inline(always)]
fn dismantle(ctx: &mut Context, op: Ptr<Operation>)
    requires live { IsLive ctx.old.tree op }
    requires free { parent_of ctx.old.tree op ≡ None }
    requires unused { IsUnused ctx.old.tree op }
    ensures { ctx.new.tree ≡ after_clearing ctx.old.tree (nat_eq op) }
{
    ctx.well_formed();
    let mut at = Some(op);
    while let Some(key) = at {
        at = dismantle_step(ctx, key);
        ctx.well_formed();
    }
}

// The operation loses its operands and its successors. Linear in their number.
#[inline(always)]
fn drop_names(ctx: &mut Context, op: Ptr<Operation>)
    requires { IsLive ctx.old.tree op }
    ensures { ctx.new.tree ≡ without_names ctx.old.tree op }
{
    ctx.operands.clear(op.index());
    ctx.successors.clear(op.index());
}

// The operation and all that is inside it, at any depth, lose operands and successors. Linear in the
// operations, blocks and regions inside it and in what they lose; takes no memory.
#[inline(always)]
fn drop_names_within(ctx: &mut Context, root: Ptr<Operation>)
    requires { IsLive ctx.old.tree root }
    ensures { ctx.new.tree ≡ names_dropped ctx.old.tree (nat_eq root) }
{
    ctx.well_formed();
    let mut at = Some(root);
    while let Some(key) = at {
        drop_names(ctx, key);
        at = key.next_in_preorder(root, ctx);
    }
}

impl BasicBlock {
    /// All operations in the block, at any depth, lose their operands and successors.
    ///
    /// Asks that the block is live (`is_live` tests it). Takes no memory. Cost: linear in the operations,
    /// blocks and regions in it and in what they lose.
    pub fn drop_all_uses(ctx: &mut Context, block: Ptr<BasicBlock>)
        requires { IsBlock ctx.old.tree block }
        ensures { ctx.new.tree ≡ uses_dropped ctx.old.tree block }
    {
        ctx.well_formed();
        let mut at = ctx.order.head(block.index());
        while let Some(op) = at {
            drop_names_within(ctx, Ptr::new(op));
            ctx.well_formed();
            at = ctx.order.next(op);
        }
    }
}

/// Erases an operation with its contents, at any depth, in a block or in none. Linear in what is erased and in
/// the operands and successors of it; takes no memory.
pub(crate) fn erase_operation(ctx: &mut Context, op: Ptr<Operation>)
    requires live { IsLive ctx.old.tree op }
    requires contained { IsSelfContained ctx.old.tree op }
    ensures { ctx.new.tree ≡ after_erasing ctx.old.tree op }
{
    ctx.well_formed();
    take_out(ctx, op);
    drop_names_within(ctx, op);
    ctx.well_formed();
    dismantle(ctx, op);
}

/// Erases a block with its contents, at any depth. Linear in what is erased and in the operands and
/// successors of it; takes no memory.
pub(crate) fn erase_block(ctx: &mut Context, block: Ptr<BasicBlock>)
    requires block { IsBlock ctx.old.tree block }
    requires contained { IsSelfContainedBlock ctx.old.tree block }
    ensures { ctx.new.tree ≡ block_erased ctx.old.tree block }
{
    ctx.well_formed();
    BasicBlock::drop_all_uses(ctx, block);
    ctx.well_formed();
    empty_block(ctx, block);
    remove_block(ctx, block);
}

// Erases all that is in the block, where nothing in it names anything, and nothing names what is defined in it.
// Linear in what is erased; takes no memory.
fn empty_block(ctx: &mut Context, block: Ptr<BasicBlock>)
    requires block { IsBlock ctx.old.tree block }
    requires unused { IsUnusedBlock ctx.old.tree block }
    ensures { ctx.new.tree ≡ block_emptied ctx.old.tree block }
{
    ctx.well_formed();
    while let Some(last) = ctx.order.tail(block.index()) {
        let op = Ptr::new(last);
        take_out(ctx, op);
        dismantle(ctx, op);
        ctx.well_formed();
    }
}
