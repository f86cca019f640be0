//! What is answered of rotated loops.
ghost use Rattle.std.specs.Prelude.{All, OnOk, IsOkUnless};
ghost use Rattle.pliron_opt_rotate.specs.Made.{IsYounger};

use pliron_core::{BasicBlock, Context, IRStatus, Operation, Ptr, Value};
use pliron_laws::OptError;
use pliron_rewrite_rotation::Rotation;

/// A value that was made, and the older one that it stands for: one that is passed to a block, or a value of the header.
#[derive(Clone, Copy, Debug, PartialEq, Eq, Drop)]
pub struct RotatedValue {
    pub value: Value,
    pub original: Value,
}

/// What became of loops.
#[derive(Debug, Drop)]
pub struct RotatedLoops {
    /// Whether something changed.
    pub status: IRStatus,
    /// How many headers were copied.
    pub copies: usize,
    /// The values that were made, in their order.
    pub values: Vec<RotatedValue>,
}

// Notes that the value was made for the other one, if that is older.
fn note(value: Value, original: Value, values: &mut Vec<RotatedValue>) -> Result<(), OptError>
    requires { All IsYounger values.old.items }
    ensures younger { OnOk result (All IsYounger values.new.items) }
    ensures memory { IsOkUnless result OptError.Memory }
{
    if original.key() >= value.key() {
        return Ok(());
    }
    values.push(RotatedValue { value, original })?;
    Ok(())
}

// How many arguments the gates of a rotation have.
#[derive(Clone, Copy)]
pub(crate) struct GateCounts {
    body: usize,
    exit: usize,
}

impl GateCounts {
    // Those of the rotation, before anything is passed.
    pub(crate) fn of(rotation: &Rotation, ctx: &Context) -> GateCounts {
        GateCounts {
            body: argument_count(rotation.body.block, ctx),
            exit: argument_count(rotation.exit.block, ctx),
        }
    }
}

// How many arguments the block has; none if it isn't live.
fn argument_count(block: Ptr<BasicBlock>, ctx: &Context) -> usize {
    if block.is_live(ctx) {
        block.num_argument(ctx)
    } else {
        0
    }
}

// Adds the values that a rotation made, where the gates had so many arguments before.
pub(crate) fn note_rotated(
    rotation: &Rotation,
    counts: GateCounts,
    copy: Option<Ptr<BasicBlock>>,
    loops: &mut RotatedLoops,
    ctx: &Context,
) -> Result<(), OptError>
    requires { All IsYounger loops.old.values.items }
    ensures younger { OnOk result (All IsYounger loops.new.values.items) }
    ensures memory { IsOkUnless result OptError.Memory }
{
    let passed = rotation.values.as_slice();
    let values = &mut loops.values;
    note_arguments(rotation.body.block, counts.body, passed, values, ctx)?;
    note_arguments(rotation.exit.block, counts.exit, passed, values, ctx)?;
    if let Some(copy) = copy {
        note_copies(rotation.header, copy, values, ctx)?;
        loops.copies = loops.copies.saturating_add(1);
    }
    Ok(())
}

// Adds the arguments of the block from this index on, to which these values were passed in turn.
fn note_arguments(
    block: Ptr<BasicBlock>,
    from: usize,
    passed: &[Value],
    values: &mut Vec<RotatedValue>,
    ctx: &Context,
) -> Result<(), OptError>
    requires { All IsYounger values.old.items }
    ensures younger { OnOk result (All IsYounger values.new.items) }
    ensures memory { IsOkUnless result OptError.Memory }
{
    if !block.is_live(ctx) {
        return Ok(());
    }
    for i in 0..passed.len() {
        let at = from.saturating_add(i);
        if at < block.num_argument(ctx) {
            note(block.get_argument(ctx, at), passed[i], values)?;
        }
    }
    Ok(())
}

// Adds the results of the copy, which stand for those of the operation.
fn note_results(
    op: Ptr<Operation>,
    copy: Ptr<Operation>,
    values: &mut Vec<RotatedValue>,
    ctx: &Context,
) -> Result<(), OptError>
    requires { All IsYounger values.old.items }
    ensures younger { OnOk result (All IsYounger values.new.items) }
    ensures memory { IsOkUnless result OptError.Memory }
{
    if !op.is_live(ctx) {
        return Ok(());
    }
    if !copy.is_live(ctx) {
        return Ok(());
    }
    for i in 0..op.num_result(ctx) {
        if i < copy.num_result(ctx) {
            note(copy.get_result(ctx, i), op.get_result(ctx, i), values)?;
        }
    }
    Ok(())
}

// Adds the arguments of the copy, and the results of its operations, which stand for those of the header.
fn note_copies(
    header: Ptr<BasicBlock>,
    copy: Ptr<BasicBlock>,
    values: &mut Vec<RotatedValue>,
    ctx: &Context,
) -> Result<(), OptError>
    requires { All IsYounger values.old.items }
    ensures younger { OnOk result (All IsYounger values.new.items) }
    ensures memory { IsOkUnless result OptError.Memory }
{
    if !header.is_live(ctx) {
        return Ok(());
    }
    if !copy.is_live(ctx) {
        return Ok(());
    }
    for i in 0..header.num_argument(ctx) {
        if i < copy.num_argument(ctx) {
            note(
                copy.get_argument(ctx, i),
                header.get_argument(ctx, i),
                values,
            )?;
        }
    }
    let mut at = header.get_head(ctx);
    let mut made = copy.get_head(ctx);
    'steps: for _ in 0..usize::MAX {
        let Some(op) = at else {
            return Ok(());
        };
        let Some(copied) = made else {
            return Ok(());
        };
        if !op.is_live(ctx) || !copied.is_live(ctx) {
            return Ok(());
        }
        note_results(op, copied, values, ctx)?;
        at = op.get_next(ctx);
        made = copied.get_next(ctx);
    }
    Ok(())
}
