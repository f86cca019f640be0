//! Operands and successors of operations that are made.
ghost use Rattle.std.specs.Prelude.{◌≡◌};

use crate::parts::BuiltParts;
use crate::stop::{BuildStop, KeptForBuilding};
use pliron_core::{BasicBlock, Context, Operation, Ptr, Value};
use pliron_text_llvm_plans::{FunctionPlan, OperationPlan};

// Adds the operand, where it is made.
fn add_operand(
    ctx: &mut Context,
    op: Ptr<Operation>,
    value: Option<Value>,
    place: usize,
) -> Result<(), BuildStop>
    ensures { ctx.new.tree.operations ≡ ctx.old.tree.operations }
{
    match value {
        Some(value) if op.is_live(ctx) && value.is_live(ctx) => {
            Ok(Operation::push_operand(ctx, op, value)?)
        }
        _ => Err(BuildStop::Keep(place, KeptForBuilding::Value)),
    }
}

// Adds the successor, where it is made.
fn add_successor(
    ctx: &mut Context,
    op: Ptr<Operation>,
    block: Option<Ptr<BasicBlock>>,
    place: usize,
) -> Result<(), BuildStop>
    ensures { ctx.new.tree.operations ≡ ctx.old.tree.operations }
{
    match block {
        Some(block) if op.is_live(ctx) && block.is_live(ctx) => {
            Ok(Operation::push_successor(ctx, op, block)?)
        }
        _ => Err(BuildStop::Keep(place, KeptForBuilding::Block)),
    }
}

// Gives the operation its operands.
fn connect_operands(
    plan: &FunctionPlan,
    planned: &OperationPlan,
    op: Ptr<Operation>,
    ctx: &mut Context,
    built: &BuiltParts,
) -> Result<(), BuildStop>
    ensures { ctx.new.tree.operations ≡ ctx.old.tree.operations }
{
    let (first, count) = planned.operands;
    for at in first..first.saturating_add(count) {
        let value = match plan.operands.get(at) {
            Some(operand) => built.value(*operand),
            None => None,
        };
        add_operand(ctx, op, value, planned.place)?;
    }
    Ok(())
}

// Gives the operation its successors.
fn connect_successors(
    plan: &FunctionPlan,
    planned: &OperationPlan,
    op: Ptr<Operation>,
    ctx: &mut Context,
    built: &BuiltParts,
) -> Result<(), BuildStop>
    ensures { ctx.new.tree.operations ≡ ctx.old.tree.operations }
{
    let (first, count) = planned.edges;
    for at in first..first.saturating_add(count) {
        let block = match plan.successors.get(at) {
            Some(number) => built.block(*number),
            None => None,
        };
        add_successor(ctx, op, block, planned.place)?;
    }
    Ok(())
}

/// Gives the operations of a function their operands and successors. Errors: one of them isn't made; allocation failure.
/// Cost: linear in them.
pub fn connect_all(
    plan: &FunctionPlan,
    ctx: &mut Context,
    built: &BuiltParts,
) -> Result<(), BuildStop>
    ensures { ctx.new.tree.operations ≡ ctx.old.tree.operations }
{
    for number in 0..plan.operations.len() {
        let planned = plan.operations[number];
        let Some(op) = built.operation(number) else {
            return Err(BuildStop::Keep(planned.place, KeptForBuilding::Value));
        };
        connect_operands(plan, &planned, op, ctx, built)?;
        connect_successors(plan, &planned, op, ctx, built)?;
    }
    Ok(())
}
