//! Operands, successors, attributes and arguments.
ghost use Rattle.std.specs.Prelude.{◌≡◌, ◌+◌, ◌<◌, ◌≤◌, [], ◌∷◌, ◌++◌, length, slice_get, Some, IfOk, OnOk, OnErr, IfSome, IsSome, IsOk};
ghost use Rattle.pliron_core.specs.Tree.{IsLive, IsBlock, IsDefined, In, operands_of, head_of, arguments_of, uses_of};
ghost use Rattle.pliron_core.specs.Writes.{operand_pushed, successor_pushed, operand_inserted, operand_removed, attribute_set, with_attribute, head_replaced, argument_pushed, argument_removed, after_replacing};

use super::{Context, NoMemory};
use crate::attrs::{AttrObj, Head};
use crate::keys::{BasicBlock, Operation, Ptr, Value};
use std::mem;

impl Operation {
    /// One more operand, at the end.
    ///
    /// Asks that the operation and the value are live. Errors: allocation failure, which changes nothing.
    /// Cost: amortised constant. An index of the operands is dropped first, as by `settle_operands`.
    #[inline(always)]
    pub fn push_operand(ctx: &mut Context, op: Ptr<Operation>, value: Value) -> Result<(), NoMemory>
        requires live { IsLive ctx.old.tree op }
        requires value { IsDefined ctx.old.tree value }
        ensures ok { OnOk result (ctx.new.tree ≡ operand_pushed ctx.old.tree op value) }
        ensures block_uses { ctx.new.block_uses ≡ ctx.old.block_uses }
        ensures err { OnErr result (ctx.new ≡ ctx.old) }
    {
        ctx.operands.push(op.index(), value.index())?;
        Ok(())
    }

    /// One more successor, at the end.
    ///
    /// Asks that the operation and the block are live. Errors: allocation failure, which changes nothing.
    /// Cost: amortised constant.
    #[inline(always)]
    pub fn push_successor(
        ctx: &mut Context,
        op: Ptr<Operation>,
        block: Ptr<BasicBlock>,
    ) -> Result<(), NoMemory>
        requires live { IsLive ctx.old.tree op }
        requires block { IsBlock ctx.old.tree block }
        ensures ok { OnOk result (ctx.new.tree ≡ successor_pushed ctx.old.tree op block) }
        ensures value_uses { ctx.new.value_uses ≡ ctx.old.value_uses }
        ensures err { OnErr result (ctx.new ≡ ctx.old) }
    {
        ctx.successors.push(op.index(), block.index())?;
        Ok(())
    }

    /// One more operand, at this index. The operands from there on move up by one place, and their uses stay theirs.
    ///
    /// Asks that the operation and the value are live, and that the index is at most the number of its operands.
    /// Errors: allocation failure, which changes nothing.
    /// Cost: the number of operands from the index on, and of those between it and the place of the last removal
    /// from this operation; amortised. An index of the operands is dropped first, as by `settle_operands`.
    pub fn insert_operand(
        ctx: &mut Context,
        op: Ptr<Operation>,
        i: usize,
        value: Value,
    ) -> Result<(), NoMemory>
        requires live { IsLive ctx.old.tree op }
        requires index { i ≤ length (operands_of ctx.old.tree op) }
        requires value { IsDefined ctx.old.tree value }
        ensures ok { OnOk result (ctx.new.tree ≡ operand_inserted ctx.old.tree op i value) }
        ensures block_uses { ctx.new.block_uses ≡ ctx.old.block_uses }
        ensures err { OnErr result (ctx.new ≡ ctx.old) }
    {
        ctx.operands.insert(op.index(), i, value.index())?;
        Ok(())
    }

    /// Removes the operand at this index, and answers it. The later ones move down by one place.
    ///
    /// Asks that the operation is live and has such an operand. Takes no memory.
    /// Cost: the number of operands between it and the place of the last removal from this operation, and
    /// constant for the first; amortised, a constant and at most twice the number of operands after it. With an
    /// index (`index_operands`) it is a logarithm.
    pub fn remove_operand(ctx: &mut Context, op: Ptr<Operation>, i: usize) -> Value
        requires live { IsLive ctx.old.tree op }
        requires index { i < length (operands_of ctx.old.tree op) }
        ensures operand { slice_get (operands_of ctx.old.tree op) i ≡ Some result }
        ensures tree { ctx.new.tree ≡ operand_removed ctx.old.tree op i }
        ensures block_uses { ctx.new.block_uses ≡ ctx.old.block_uses }
    {
        Value::new(ctx.operands.remove(op.index(), i))
    }

    /// Gets ready for removals of operands at many places: where the operation has more than a few, it gets an
    /// index of them. Until `settle_operands`, or until it gets another operand, each removal and each read of
    /// one then costs a logarithm of their number, at whatever index.
    ///
    /// Asks that the operation is live. Errors: allocation failure. The tree is as it was in any case.
    /// Cost: the number of operands, and constant where there is an index already.
    pub fn index_operands(ctx: &mut Context, op: Ptr<Operation>) -> Result<(), NoMemory>
        requires { IsLive ctx.old.tree op }
        ensures { ctx.new ≡ ctx.old }
    {
        let alloc = ctx.alloc;
        ctx.operands.index(alloc, op.index())?;
        Ok(())
    }

    /// Drops the index of the operands, if there is one: reads cost a constant again. Takes no memory.
    ///
    /// Asks that the operation is live. The tree is as it was. Cost: the number of operands when the index was
    /// made, and constant where there is none.
    pub fn settle_operands(ctx: &mut Context, op: Ptr<Operation>)
        requires { IsLive ctx.old.tree op }
        ensures { ctx.new ≡ ctx.old }
    {
        ctx.operands.settle(op.index());
    }

    /// Replaces the attribute at this index.
    ///
    /// Asks that the operation is live and has such an attribute. Takes no memory. Cost: constant.
    pub fn set_attribute(ctx: &mut Context, op: Ptr<Operation>, i: usize, attr: AttrObj)
        requires live { IsLive ctx.old.tree op }
        requires index { IfSome (head_of ctx.old.tree op) (λ head. i < length head.attrs) }
        ensures { ctx.new ≡ record ctx.old { tree = attribute_set ctx.old.tree op i attr } }
    {
        set_head_attribute(&mut ctx.operations[op.index() as usize].head, i, attr);
    }

    /// Gives the operation this head, and answers the one before. Nothing else changes.
    ///
    /// Asks that the operation is live. Takes no memory. Cost: constant.
    pub fn replace_head(ctx: &mut Context, op: Ptr<Operation>, head: Head) -> Head
        requires { IsLive ctx.old.tree op }
        ensures before { head_of ctx.old.tree op ≡ Some result }
        ensures replaced { ctx.new ≡ record ctx.old { tree = head_replaced ctx.old.tree op head } }
    {
        put_head(&mut ctx.operations[op.index() as usize].head, head)
    }
}

// The head that was there, and this one in its place.
fn put_head(place: &mut Option<Head>, head: Head) -> Head
    requires { IsSome place.old }
    ensures before { place.old ≡ Some result }
    ensures now { place.new ≡ Some head }
{
    match mem::replace(place, Some(head)) {
        Some(before) => before,
        None => unreachable!(),
    }
}

fn set_head_attribute(head: &mut Option<Head>, i: usize, attr: AttrObj)
    requires { IfSome head.old (λ h. i < length h.attrs) }
    ensures { head.new ≡ with_attribute head.old i attr }
{
    if let Some(head) = head {
        head.attrs.set(i, attr);
    }
}

// Every use of the one value becomes one of the other.
pub(crate) fn replace_uses(ctx: &mut Context, old: Value, new: Value) -> Result<(), NoMemory>
    requires old { IsDefined ctx.old.tree old }
    requires new { IsDefined ctx.old.tree new }
    ensures ok { OnOk result (ctx.new.tree ≡ after_replacing ctx.old.tree old new) }
    ensures block_uses { ctx.new.block_uses ≡ ctx.old.block_uses }
    ensures unused { uses_of ctx.old.value_uses new ≡ [] → IsOk result }
    ensures err { OnErr result (ctx.new ≡ ctx.old) }
{
    if old.index() == new.index() {
        return Ok(());
    }
    let alloc = ctx.alloc;
    ctx.operands.replace(alloc, old.index(), new.index())?;
    Ok(())
}

impl BasicBlock {
    /// Gets ready for removals of arguments at many places: where the block has more than a few, it gets an
    /// index of them. Until `settle_arguments`, each removal and each read of one then costs a logarithm of
    /// their number, at whatever index.
    ///
    /// Asks that the block is live. Errors: allocation failure. The tree is as it was in any case.
    /// Cost: the number of arguments, and constant where there is an index already.
    pub fn index_arguments(ctx: &mut Context, block: Ptr<BasicBlock>) -> Result<(), NoMemory>
        requires { IsBlock ctx.old.tree block }
        ensures { ctx.new ≡ ctx.old }
    {
        let alloc = ctx.alloc;
        ctx.arguments.index(alloc, block)?;
        Ok(())
    }

    /// Drops the index of the arguments, if there is one: reads cost a constant again. Takes no memory.
    ///
    /// Asks that the block is live. The tree is as it was. Cost: the number of arguments when the index was
    /// made, and constant where there is none.
    pub fn settle_arguments(ctx: &mut Context, block: Ptr<BasicBlock>)
        requires { IsBlock ctx.old.tree block }
        ensures { ctx.new ≡ ctx.old }
    {
        ctx.arguments.settle(block);
    }

    /// One more argument, behind the others: a new value, which has no uses. Answers it.
    ///
    /// Asks that the block is live. Errors: allocation failure, which changes nothing.
    /// Cost: amortised constant. An index of the arguments is dropped first, as by `settle_arguments`.
    pub fn push_argument(ctx: &mut Context, block: Ptr<BasicBlock>) -> Result<Value, NoMemory>
        requires { IsBlock ctx.old.tree block }
        ensures value { IfOk result (λ value. value ≡ length ctx.old.tree.definitions) }
        ensures ok { OnOk result (ctx.new.tree ≡ argument_pushed ctx.old.tree block) }
        ensures unused { OnOk result (ctx.new.value_uses ≡ ctx.old.value_uses ++ [] ∷ []) }
        ensures block_uses { ctx.new.block_uses ≡ ctx.old.block_uses }
        ensures err { OnErr result (ctx.new ≡ ctx.old) }
    {
        let alloc = ctx.alloc;
        ctx.operands.reserve(0, 1)?;
        let value = ctx.arguments.push(alloc, block)?;
        ctx.operands.add_target(alloc);
        Ok(value)
    }

    /// Removes an argument without uses. The later ones stay the same values, each with the index before.
    ///
    /// Asks that the block is live and has such an argument, and that no operation uses it. Takes no memory.
    /// Cost: the number of arguments between it and the place of the last removal from this block, and constant
    /// for the first; amortised, a constant and at most twice the number of arguments after it. With an index
    /// (`index_arguments`) it is a logarithm.
    pub fn remove_argument(ctx: &mut Context, block: Ptr<BasicBlock>, i: usize)
        requires block { IsBlock ctx.old.tree block }
        requires index { i < length (arguments_of ctx.old.tree block) }
        requires unused { IfSome (slice_get (arguments_of ctx.old.tree block) i)
            (λ v. uses_of ctx.old.value_uses v ≡ []) }
        ensures { ctx.new ≡ record ctx.old { tree = argument_removed ctx.old.tree block i } }
    {
        ctx.operands.agree();
        ctx.arguments.remove(block, i);
    }
}
