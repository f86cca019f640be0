//! Whether a loop may be rotated as it is planned.
ghost use Rattle.std.specs.Prelude.{◌≡◌, ◌≢◌, ℕ, [], ◌∷◌, Some, None, IfOk, IfSome, IsTrue, IsFalse, IsOkUnless};
ghost use Rattle.pliron_core.specs.Tree.{In, IsBlock, IsLive, IsRegion, first_of, last_of, layout_of, body_of, parent_of, successors_of, block_parent_of};
ghost use Rattle.pliron_rewrite_rotation.specs.Entering.{EndsBeside};
ghost use Rattle.pliron_rewrite_rotation.specs.Rotation.{MayRotate};
ghost use Rattle.pliron_opt_rotate.specs.Walked.{IsPassedFirst};
ghost use Rattle.pliron_opt_rotate.specs.Tested.{StandsElsewhere, IsMadeIn, IsValueOf, IsUserBehind, IsGateOf};

use crate::covering::{covers_all, is_led_from, stands_in};
use crate::walking::are_behind;
use pliron_core::{BasicBlock, Context, Def, Operation, Ptr, Region, Value};
use pliron_dialect_edges::LengthensEdges;
use pliron_laws::OptError;
use pliron_rewrite_calls::may_copy_blocks;
use pliron_rewrite_loops::Gate;
use pliron_rewrite_rotation::Rotation;
use std::alloc::Global;

// Whether they are one block.
fn is_same(block: Ptr<BasicBlock>, other: Ptr<BasicBlock>) -> bool
    ensures same { IsTrue result → block ≡ other }
    ensures apart { IsFalse result → block ≢ other }
{
    block == other
}

// Whether the block is one of the region.
fn is_in(block: Ptr<BasicBlock>, region: Ptr<Region>, ctx: &Context) -> bool
    ensures { IsTrue result → block_parent_of ctx.now.tree block ≡ Some region }
{
    if !block.is_live(ctx) {
        return false;
    }
    match block.get_parent_region(ctx) {
        Some(around) => around == region,
        None => false,
    }
}

// The block in which the operation stands, if that is another one of the region than the header.
fn block_elsewhere(
    op: Ptr<Operation>,
    header: Ptr<BasicBlock>,
    region: Ptr<Region>,
    ctx: &Context,
) -> Option<Ptr<BasicBlock>>
    ensures stands { IfSome result (λ b. StandsElsewhere ctx.now.tree header region op b) }
    ensures block { IfSome result (λ b. IsBlock ctx.now.tree b) }
    ensures live { IfSome result (λ b. IsLive ctx.now.tree op) }
{
    if !op.is_live(ctx) {
        return None;
    }
    let Some(block) = op.get_parent_block(ctx) else {
        return None;
    };
    if is_same(block, header) {
        return None;
    }
    if !is_in(block, region, ctx) {
        return None;
    }
    Some(block)
}

// The blocks in which these operations stand, if those are other ones of the region than the header.
fn blocks_of(
    alloc: Global,
    ops: &[Ptr<Operation>],
    header: Ptr<BasicBlock>,
    region: Ptr<Region>,
    ctx: &Context,
) -> Result<Option<Vec<Ptr<BasicBlock>>>, OptError>
    ensures stands { IfOk result (λ o. IfSome o (λ blocks. (k : ℕ) → In k ops.now → (b : ℕ) × StandsElsewhere
        ctx.now.tree header region k b × In b blocks.items)) }
    ensures memory { IsOkUnless result OptError.Memory }
{
    let _ = header.is_live(ctx);
    let mut blocks = Vec::new(alloc);
    for i in 0..ops.len() {
        let Some(block) = block_elsewhere(ops[i], header, region, ctx) else {
            return Ok(None);
        };
        blocks.push(block)?;
    }
    Ok(Some(blocks))
}

// Whether the operation is the last one of the block.
fn is_last_of(op: Ptr<Operation>, block: Ptr<BasicBlock>, ctx: &Context) -> bool
    requires { IsBlock ctx.now.tree block }
    ensures { IsTrue result → last_of None (body_of ctx.now.tree block) ≡ Some op }
{
    match block.get_tail(ctx) {
        Some(last) => last == op,
        None => false,
    }
}

// Whether the block is the first one of the region.
fn is_first_of(block: Ptr<BasicBlock>, region: Ptr<Region>, ctx: &Context) -> bool
    requires { IsRegion ctx.now.tree region }
    ensures { IsFalse result → first_of (layout_of ctx.now.tree region) None ≢ Some block }
{
    match region.get_head(ctx) {
        Some(first) => first == block,
        None => false,
    }
}

// Whether the operation ends another block of the region than the header, and has neither results nor regions.
fn may_enter(
    op: Ptr<Operation>,
    header: Ptr<BasicBlock>,
    region: Ptr<Region>,
    ctx: &Context,
) -> bool
    requires { block_parent_of ctx.now.tree header ≡ Some region }
    ensures { IsTrue result → EndsBeside ctx.now.tree header op }
{
    let Some(block) = block_elsewhere(op, header, region, ctx) else {
        return false;
    };
    if !is_last_of(op, block, ctx) {
        return false;
    }
    if op.num_result(ctx) != 0 {
        return false;
    }
    if op.num_region(ctx) != 0 {
        return false;
    }
    true
}

// Whether all of them may enter.
fn may_all_enter(
    ops: &[Ptr<Operation>],
    header: Ptr<BasicBlock>,
    region: Ptr<Region>,
    ctx: &Context,
) -> bool
    requires { block_parent_of ctx.now.tree header ≡ Some region }
    ensures { IsTrue result → (k : ℕ) → In k ops.now → EndsBeside ctx.now.tree header k }
{
    for i in 0..ops.len() {
        if !may_enter(ops[i], header, region, ctx) {
            return false;
        }
    }
    true
}

// Whether the operation stands in the block, and has no successors.
fn only_makes(op: Ptr<Operation>, block: Ptr<BasicBlock>, ctx: &Context) -> bool
    requires { IsLive ctx.now.tree op }
    ensures parent { IsTrue result → parent_of ctx.now.tree op ≡ Some block }
    ensures successors { IsTrue result → successors_of ctx.now.tree op ≡ [] }
{
    if op.num_successor(ctx) != 0 {
        return false;
    }
    stands_in(op, block, ctx)
}

// Whether the value is an argument of the header, or a result of an operation of it without successors.
fn is_value_of(value: Value, header: Ptr<BasicBlock>, ctx: &Context) -> bool
    ensures { IsTrue result → IsValueOf ctx.now.tree header value }
{
    if !value.is_live(ctx) {
        return false;
    }
    match value.def(ctx) {
        Def::Argument(block, _) => is_same(block, header),
        Def::Result(op, _) => only_makes(op, header, ctx),
    }
}

// Whether all of them are.
fn are_values_of(values: &[Value], header: Ptr<BasicBlock>, ctx: &Context) -> bool
    ensures { IsTrue result → (v : ℕ) → In v values.now → IsValueOf ctx.now.tree header v }
{
    for i in 0..values.len() {
        if !is_value_of(values[i], header, ctx) {
            return false;
        }
    }
    true
}

// Whether these operations stand in the region beside the header, and each path to one of them passes the gate, and the
// header.
fn are_users_behind(
    alloc: Global,
    gate: &Gate,
    header: Ptr<BasicBlock>,
    region: Ptr<Region>,
    ctx: &Context,
) -> Result<bool, OptError>
    ensures behind { IfOk result (λ all. IsTrue all → (k : ℕ) → In k gate.now.users.items → IsUserBehind ctx.now.tree
        header region gate.now.block k) }
    ensures memory { IsOkUnless result OptError.Memory }
{
    let users = gate.users.as_slice();
    let Some(blocks) = blocks_of(alloc, users, header, region, ctx)? else {
        return Ok(false);
    };
    let stands = blocks.as_slice();
    let gated = are_behind(alloc, region, gate.block, stands, ctx)?;
    if !gated {
        return Ok(false);
    }
    let all = are_behind(alloc, region, header, stands, ctx)?;
    Ok(all)
}

// Whether the gate is another block of the region than the header, and not its first one, the header leads to it, and each
// path to a user passes it, and the header.
fn is_gate(
    alloc: Global,
    gate: &Gate,
    header: Ptr<BasicBlock>,
    region: Ptr<Region>,
    ctx: &Context,
) -> Result<bool, OptError>
    requires { IsRegion ctx.now.tree region }
    ensures gate { IfOk result (λ is. IsTrue is → IsGateOf ctx.now.tree header region gate.now.block
        gate.now.users.items) }
    ensures memory { IsOkUnless result OptError.Memory }
{
    if is_same(gate.block, header) {
        return Ok(false);
    }
    if !gate.block.is_live(ctx) {
        return Ok(false);
    }
    if !is_in(gate.block, region, ctx) {
        return Ok(false);
    }
    if is_first_of(gate.block, region, ctx) {
        return Ok(false);
    }
    if !is_led_from(header, gate.block, ctx) {
        return Ok(false);
    }
    let behind = are_users_behind(alloc, gate, header, region, ctx)?;
    Ok(behind)
}

// Whether both gates of the loop are such.
fn are_gates(
    alloc: Global,
    rotation: &Rotation,
    region: Ptr<Region>,
    ctx: &Context,
) -> Result<bool, OptError>
    requires { IsRegion ctx.now.tree region }
    ensures body { IfOk result (λ are. IsTrue are → IsGateOf ctx.now.tree rotation.now.header region
        rotation.now.body.block rotation.now.body.users.items) }
    ensures exit { IfOk result (λ are. IsTrue are → IsGateOf ctx.now.tree rotation.now.header region
        rotation.now.exit.block rotation.now.exit.users.items) }
    ensures memory { IsOkUnless result OptError.Memory }
{
    let body = is_gate(alloc, &rotation.body, rotation.header, region, ctx)?;
    if !body {
        return Ok(false);
    }
    let exit = is_gate(alloc, &rotation.exit, rotation.header, region, ctx)?;
    Ok(exit)
}

// Whether the loop may be rotated so, where its header is in the region.
fn may_rotate_in<D: LengthensEdges>(
    alloc: Global,
    rotation: &Rotation,
    region: Ptr<Region>,
    ctx: &Context,
) -> Result<bool, OptError>
    requires region { IsRegion ctx.now.tree region }
    requires home { block_parent_of ctx.now.tree rotation.now.header ≡ Some region }
    ensures may { IfOk result (λ may. IsTrue may → MayRotate D.meaning ctx.now.tree rotation.now) }
    ensures memory { IsOkUnless result OptError.Memory }
{
    ctx.well_formed();
    let header = rotation.header;
    if is_led_from(header, header, ctx) {
        return Ok(false);
    }
    let entering = rotation.entering.as_slice();
    if !may_all_enter(entering, header, region, ctx) {
        return Ok(false);
    }
    let values = rotation.values.as_slice();
    if !are_values_of(values, header, ctx) {
        return Ok(false);
    }
    let gates = are_gates(alloc, rotation, region, ctx)?;
    if !gates {
        return Ok(false);
    }
    let covered = covers_all(alloc, rotation, ctx)?;
    if !covered {
        return Ok(false);
    }
    let may = may_copy_blocks(alloc, &[header], ctx)?;
    Ok(may)
}

// Whether the loop may be rotated so.
pub(crate) fn may_rotate<D: LengthensEdges>(
    alloc: Global,
    rotation: &Rotation,
    ctx: &Context,
) -> Result<bool, OptError>
    ensures may { IfOk result (λ may. IsTrue may → MayRotate D.meaning ctx.now.tree rotation.now) }
    ensures memory { IsOkUnless result OptError.Memory }
{
    if !rotation.header.is_live(ctx) {
        return Ok(false);
    }
    match rotation.header.get_parent_region(ctx) {
        Some(region) => may_rotate_in::<D>(alloc, rotation, region, ctx),
        None => Ok(false),
    }
}
