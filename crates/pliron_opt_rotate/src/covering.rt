//! Whether what a header defines is used where it is passed alone.
ghost use Rattle.std.specs.Prelude.{◌≡◌, ◌⊎◌, ℕ, Some, IfOk, OnOk, IsTrue, IsFalse, IsOkUnless};
ghost use Rattle.pliron_core.specs.Tree.{In, IsBlock, IsDefined, IsLive, operands_of, results_of, successors_of, parent_of, arguments_of, definition_of};
ghost use Rattle.pliron_laws.specs.Root.{defining_block};
ghost use Rattle.pliron_opt_rotate.specs.Tested.{IsLedFrom, IsLeaderCovered, IsUseCovered, AreUsesCovered, AreLeadersCovered, AreCovers};

use indexmap::IndexSet;
use pliron_core::{BasicBlock, Context, Operation, Ptr, Value};
use pliron_laws::OptError;
use pliron_rewrite_rotation::Rotation;
use std::alloc::Global;

// The values of a rotation, and the users behind its gates.
#[derive(Drop)]
pub(crate) struct Covers {
    values: IndexSet<Value>,
    body: IndexSet<Ptr<Operation>>,
    exit: IndexSet<Ptr<Operation>>,
}

// Whether the operation stands in the block.
pub(crate) fn stands_in(op: Ptr<Operation>, block: Ptr<BasicBlock>, ctx: &Context) -> bool
    requires { IsLive ctx.now.tree op }
    ensures yes { IsTrue result → parent_of ctx.now.tree op ≡ Some block }
    ensures no { IsFalse result → parent_of ctx.now.tree op ≡ Some block → ⊥ }
{
    match op.get_parent_block(ctx) {
        Some(around) => around == block,
        None => false,
    }
}

// Adds the results of the operation.
fn add_results(op: Ptr<Operation>, values: &mut Vec<Value>, ctx: &Context) -> Result<(), OptError>
    requires { IsLive ctx.now.tree op }
    ensures kept { OnOk result ((v : ℕ) → In v values.old.items → In v values.new.items) }
    ensures there { OnOk result ((v : ℕ) → In v (results_of ctx.now.tree op) → In v values.new.items) }
    ensures memory { IsOkUnless result OptError.Memory }
{
    for i in 0..op.num_result(ctx) {
        values.push(op.get_result(ctx, i))?;
    }
    Ok(())
}

// The arguments of the block.
fn arguments_of_block(
    alloc: Global,
    block: Ptr<BasicBlock>,
    ctx: &Context,
) -> Result<Vec<Value>, OptError>
    requires { IsBlock ctx.now.tree block }
    ensures there { IfOk result (λ values. (v : ℕ) → In v (arguments_of ctx.now.tree block) → In v values.items) }
    ensures memory { IsOkUnless result OptError.Memory }
{
    let mut values = Vec::new(alloc);
    for i in 0..block.num_argument(ctx) {
        values.push(block.get_argument(ctx, i))?;
    }
    Ok(values)
}

// What the block defines.
pub(crate) fn values_made_in(
    alloc: Global,
    block: Ptr<BasicBlock>,
    ctx: &Context,
) -> Result<Vec<Value>, OptError>
    requires { IsBlock ctx.now.tree block }
    ensures defined { IfOk result (λ values. (v : ℕ) → IsDefined ctx.now.tree v → defining_block ctx.now.tree
        (definition_of ctx.now.tree v) ≡ Some block → In v values.items) }
    ensures memory { IsOkUnless result OptError.Memory }
{
    ctx.well_formed();
    let mut values = arguments_of_block(alloc, block, ctx)?;
    let mut at = block.get_head(ctx);
    while let Some(op) = at {
        add_results(op, &mut values, ctx)?;
        at = op.get_next(ctx);
    }
    Ok(values)
}

// The set of these values.
fn set_of_values(alloc: Global, values: &[Value]) -> Result<IndexSet<Value>, OptError>
    ensures from { IfOk result (λ set. (v : ℕ) → In v set.keys → In v values.now) }
    ensures memory { IsOkUnless result OptError.Memory }
{
    let mut set = IndexSet::new(alloc);
    for i in 0..values.len() {
        set.insert(values[i])?;
    }
    Ok(set)
}

// The set of these operations.
fn set_of_operations(
    alloc: Global,
    ops: &[Ptr<Operation>],
) -> Result<IndexSet<Ptr<Operation>>, OptError>
    ensures from { IfOk result (λ set. (k : ℕ) → In k set.keys → In k ops.now) }
    ensures memory { IsOkUnless result OptError.Memory }
{
    let mut set = IndexSet::new(alloc);
    for i in 0..ops.len() {
        set.insert(ops[i])?;
    }
    Ok(set)
}

// What the rotation lists.
fn covers_of(alloc: Global, rotation: &Rotation) -> Result<Covers, OptError>
    ensures covers { IfOk result (λ covers. AreCovers rotation.now.values.items rotation.now.body.users.items
        rotation.now.exit.users.items covers) }
    ensures memory { IsOkUnless result OptError.Memory }
{
    let listed = rotation.values.as_slice();
    let users = rotation.body.users.as_slice();
    let more = rotation.exit.users.as_slice();
    let values = set_of_values(alloc, listed)?;
    let body = set_of_operations(alloc, users)?;
    let exit = set_of_operations(alloc, more)?;
    Ok(Covers { values, body, exit })
}

// Whether the operation is in one of the sets.
fn is_in_either(
    op: Ptr<Operation>,
    users: &IndexSet<Ptr<Operation>>,
    more: &IndexSet<Ptr<Operation>>,
) -> bool
    ensures { IsTrue result → In op users.now.keys ⊎ In op more.now.keys }
{
    if users.contains(&op) {
        return true;
    }
    more.contains(&op)
}

// Whether each use of the value is by an operation of the header, or by a user to which it is passed.
fn is_covered(value: Value, header: Ptr<BasicBlock>, covers: &Covers, ctx: &Context) -> bool
    ensures { IsTrue result → (k : ℕ) → In value (operands_of ctx.now.tree k) → IsUseCovered ctx.now.tree header
        covers.now.values.keys covers.now.body.keys covers.now.exit.keys value k }
{
    ctx.well_formed();
    if !value.is_live(ctx) {
        return false;
    }
    let passed = covers.values.contains(&value);
    for i in 0..value.num_use(ctx) {
        let (op, _) = value.get_use(ctx, i);
        if !is_use_covered(op, passed, header, covers, ctx) {
            return false;
        }
    }
    true
}

// Whether the operation is one of the header, or a user of a value that is passed.
fn is_use_covered(
    op: Ptr<Operation>,
    passed: bool,
    header: Ptr<BasicBlock>,
    covers: &Covers,
    ctx: &Context,
) -> bool
    requires { IsLive ctx.now.tree op }
    ensures { IsTrue result → (parent_of ctx.now.tree op ≡ Some header) ⊎ (IsTrue passed × (In op covers.now.body.keys
        ⊎ In op covers.now.exit.keys)) }
{
    if stands_in(op, header, ctx) {
        return true;
    }
    if !passed {
        return false;
    }
    is_in_either(op, &covers.body, &covers.exit)
}

// Whether so is each of these values.
fn are_covered(values: &[Value], header: Ptr<BasicBlock>, covers: &Covers, ctx: &Context) -> bool
    ensures { IsTrue result → (k v : ℕ) → In v values.now → In v (operands_of ctx.now.tree k) → IsUseCovered
        ctx.now.tree header covers.now.values.keys covers.now.body.keys covers.now.exit.keys v k }
{
    for i in 0..values.len() {
        if !is_covered(values[i], header, covers, ctx) {
            return false;
        }
    }
    true
}

// Whether the operation is one of the header, or in one of the sets.
fn is_leader_covered(
    op: Ptr<Operation>,
    header: Ptr<BasicBlock>,
    users: &IndexSet<Ptr<Operation>>,
    more: &IndexSet<Ptr<Operation>>,
    ctx: &Context,
) -> bool
    requires { IsLive ctx.now.tree op }
    ensures { IsTrue result → IsLeaderCovered ctx.now.tree header users.now.keys more.now.keys op }
{
    if stands_in(op, header, ctx) {
        return true;
    }
    is_in_either(op, users, more)
}

// Whether each operation that leads to the block is one of the header, or in one of the sets.
fn are_leaders_covered(
    block: Ptr<BasicBlock>,
    header: Ptr<BasicBlock>,
    users: &IndexSet<Ptr<Operation>>,
    more: &IndexSet<Ptr<Operation>>,
    ctx: &Context,
) -> bool
    ensures { IsTrue result → AreLeadersCovered ctx.now.tree header block users.now.keys more.now.keys }
{
    ctx.well_formed();
    if !block.is_live(ctx) {
        return false;
    }
    for i in 0..block.num_use(ctx) {
        let (op, _) = block.get_use(ctx, i);
        if !is_leader_covered(op, header, users, more, ctx) {
            return false;
        }
    }
    true
}

// Whether an operation of the header leads to the block.
pub(crate) fn is_led_from(header: Ptr<BasicBlock>, block: Ptr<BasicBlock>, ctx: &Context) -> bool
    requires { IsBlock ctx.now.tree block }
    ensures led { IsTrue result → IsLedFrom ctx.now.tree header block }
    ensures none { IsFalse result → IsLedFrom ctx.now.tree header block → ⊥ }
{
    ctx.well_formed();
    for i in 0..block.num_use(ctx) {
        let (op, _) = block.get_use(ctx, i);
        if stands_in(op, header, ctx) {
            return true;
        }
    }
    false
}

// Whether each use of what the header defines is covered, and each operation that leads to a gate.
pub(crate) fn covers_all(
    alloc: Global,
    rotation: &Rotation,
    ctx: &Context,
) -> Result<bool, OptError>
    requires { IsBlock ctx.now.tree rotation.now.header }
    ensures uses { IfOk result (λ all. IsTrue all → AreUsesCovered ctx.now.tree rotation.now.header
        rotation.now.values.items rotation.now.body.users.items rotation.now.exit.users.items) }
    ensures to_body { IfOk result (λ all. IsTrue all → AreLeadersCovered ctx.now.tree rotation.now.header
        rotation.now.body.block rotation.now.body.users.items rotation.now.body.users.items) }
    ensures to_exit { IfOk result (λ all. IsTrue all → (k : ℕ) → In k rotation.now.exit.users.items → AreLeadersCovered
        ctx.now.tree rotation.now.header rotation.now.exit.block rotation.now.body.users.items
        rotation.now.exit.users.items) }
    ensures memory { IsOkUnless result OptError.Memory }
{
    ctx.well_formed();
    let covers = covers_of(alloc, rotation)?;
    let made = values_made_in(alloc, rotation.header, ctx)?;
    let values = made.as_slice();
    if !are_covered(values, rotation.header, &covers, ctx) {
        return Ok(false);
    }
    if !is_body_covered(rotation, &covers, ctx) {
        return Ok(false);
    }
    Ok(is_exit_covered(rotation, &covers, ctx))
}

// Whether each operation that leads to the body is covered.
fn is_body_covered(rotation: &Rotation, covers: &Covers, ctx: &Context) -> bool
    ensures { IsTrue result → AreLeadersCovered ctx.now.tree rotation.now.header rotation.now.body.block
        covers.now.body.keys covers.now.body.keys }
{
    let body = &covers.body;
    are_leaders_covered(rotation.body.block, rotation.header, body, body, ctx)
}

// Whether each operation that leads to the exit is covered, if there are users behind it.
fn is_exit_covered(rotation: &Rotation, covers: &Covers, ctx: &Context) -> bool
    ensures { IsTrue result → (k : ℕ) → In k rotation.now.exit.users.items → AreLeadersCovered ctx.now.tree
        rotation.now.header rotation.now.exit.block covers.now.body.keys covers.now.exit.keys }
{
    if rotation.exit.users.is_empty() {
        return true;
    }
    are_leaders_covered(
        rotation.exit.block,
        rotation.header,
        &covers.body,
        &covers.exit,
        ctx,
    )
}
