//! Values that are passed to a block, and used behind it by the block's argument.
ghost use Rattle.std.specs.Prelude.{◌≡◌, ◌≢◌, ◌<◌, ◌+◌, ◌^◌, ◌⊎◌, ℕ, Bool, List, Some, None, IfOk, IfSome, IfNone, OnOk, OnErr, IsTrue, length, IsOkUnless};
ghost use Rattle.pliron_core.specs.Tree.{Tree, In, IsLive, IsBlock, IsDefined, operands_of, successors_of};
ghost use Rattle.pliron_laws.specs.Datum.{Head};
ghost use Rattle.pliron_theory.specs.Keeps.{IsFit, KeepsAllRuns, with_roots};
ghost use Rattle.pliron_theory.specs.Renaming.{MayUse};
ghost use Rattle.pliron_rewrite_arguments.specs.Finding.{IsEntry};
ghost use Rattle.pliron_rewrite_loops.specs.Passing.{MayUseArguments, UsesArgument, operand_put, IsValuePassed, IsPassedInPart, MayPass, AreValuesPassed, AreSomePassed, KeepsPassing, KeepsBesides};

use crate::adding::add_argument;
use crate::arguments_are_pushed;
use pliron_core::{BasicBlock, Context, Operation, Ptr, Value};
use pliron_dialect_edges::LengthensEdges;
use pliron_laws::OptError;
use std::alloc::Global;

// The operand at this index becomes another value: one comes before it, and it goes.
fn put_operand(
    ctx: &mut Context,
    op: Ptr<Operation>,
    i: usize,
    value: Value,
) -> Result<(), OptError>
    requires live { IsLive ctx.old.tree op }
    requires index { i < length (operands_of ctx.old.tree op) }
    requires fits { i + 1 < 2 ^ 64 }
    requires value { IsDefined ctx.old.tree value }
    ensures ok { OnOk result (ctx.new.tree ≡ operand_put ctx.old.tree op i value) }
    ensures refused { OnErr result (ctx.new.tree ≡ ctx.old.tree) }
    ensures memory { IsOkUnless result OptError.Memory }
{
    Operation::insert_operand(ctx, op, i, value)?;
    Operation::remove_operand(ctx, op, i + 1);
    Ok(())
}

// The operation uses the argument where it used the value; on allocation failure, at some of those places.
fn use_argument(
    op: Ptr<Operation>,
    value: Value,
    argument: Value,
    ctx: &mut Context,
) -> Result<(), OptError>
    requires live { IsLive ctx.old.tree op }
    requires argument { IsDefined ctx.old.tree argument }
    requires apart { argument ≢ value }
    ensures used { (t : Tree) (users : List ℕ) → In op users → UsesArgument t ctx.old.tree users value argument
        → UsesArgument t ctx.new.tree users value argument }
    ensures all { OnOk result (In value (operands_of ctx.new.tree op) → ⊥) }
    ensures others { (k : ℕ) → k ≢ op → operands_of ctx.new.tree k ≡ operands_of ctx.old.tree k }
    ensures memory { IsOkUnless result OptError.Memory }
{
    for i in 0..op.num_operand(ctx) {
        if op.get_operand(ctx, i) == value {
            put_operand(ctx, op, i, argument)?;
        }
    }
    Ok(())
}

// These operations use the argument, which nothing uses, where they used the value; on allocation failure, at some of
// those places.
fn use_arguments(
    users: &[Ptr<Operation>],
    value: Value,
    argument: Value,
    ctx: &mut Context,
) -> Result<(), OptError>
    requires users { (k : ℕ) → In k users.now → IsLive ctx.old.tree k }
    requires argument { IsDefined ctx.old.tree argument }
    requires apart { argument ≢ value }
    requires unused { (k : ℕ) → In argument (operands_of ctx.old.tree k) → ⊥ }
    ensures used { UsesArgument ctx.old.tree ctx.new.tree users.now value argument }
    ensures all { OnOk result ((k : ℕ) → In k users.now → In value (operands_of ctx.new.tree k) → ⊥) }
    ensures memory { IsOkUnless result OptError.Memory }
{
    for i in 0..users.len() {
        use_argument(users[i], value, argument, ctx)?;
    }
    Ok(())
}

/// The block gets one argument more, to which each edge forwards the value, as `add_argument` says; and these operations,
/// which stand behind the block, use it where they used the value. Answers the argument; `None`, and nothing changes,
/// where `add_argument` answers so.
///
/// Asks what `add_argument` asks, that the operations are live and may use arguments of the block, as where the block
/// dominates them, and that some operation that leads to the block isn't among them. Errors: allocation failure, which
/// leaves the tree as it was, or with the argument and some of these uses changed; runs are kept in any case. Cost: that
/// of `add_argument`, one step for each operand of these operations, and for each use that changes the operands of its
/// operation. Source: R. Cytron and others, Efficiently Computing Static Single Assignment Form and the Control Dependence
/// Graph, 1991 (uses are renamed behind a φ function).
pub fn pass_value<D: LengthensEdges>(
    alloc: Global,
    block: Ptr<BasicBlock>,
    value: Value,
    users: &[Ptr<Operation>],
    ctx: &mut Context,
) -> Result<Option<Value>, OptError>
    requires block { IsBlock ctx.old.tree block }
    requires value { IsDefined ctx.old.tree value }
    requires no_entry { IsEntry ctx.old.tree block → ⊥ }
    requires may_use { (chosen : Head → Bool) (root k : ℕ) → IsFit (with_roots D.meaning chosen) ctx.old.tree root → In
        block (successors_of ctx.old.tree k) → MayUse ctx.old.tree root k value }
    requires users { (k : ℕ) → In k users.now → IsLive ctx.old.tree k }
    requires may_use_arguments { (chosen : Head → Bool) (root k : ℕ) → IsFit (with_roots D.meaning chosen) ctx.old.tree
        root → In k users.now → MayUseArguments ctx.old.tree root block k }
    requires some_edge { (k : ℕ) × In block (successors_of ctx.old.tree k) × (In k users.now → ⊥) }
    ensures passed { IfOk result (λ o. IfSome o (λ argument. IsValuePassed D.meaning D.shortened ctx.old.tree
        ctx.new.tree block value argument users.now)) }
    ensures none { IfOk result (λ o. IfNone o (ctx.new.tree ≡ ctx.old.tree)) }
    ensures refused { OnErr result ((ctx.new.tree ≡ ctx.old.tree) ⊎ ((argument : ℕ) × IsPassedInPart D.meaning
        D.shortened ctx.old.tree ctx.new.tree block value argument users.now)) }
    ensures besides { KeepsBesides D.meaning ctx.old.tree ctx.new.tree block users.now }
    ensures memory { IsOkUnless result OptError.Memory }
    ensures runs { KeepsAllRuns D.meaning ctx.old.tree ctx.new.tree }
    ensures runs_back { KeepsAllRuns D.meaning ctx.new.tree ctx.old.tree }
{
    arguments_are_pushed::<D>();
    ctx.well_formed();
    let Some(argument) = add_argument::<D>(alloc, block, value, ctx)? else {
        return Ok(None);
    };
    ctx.well_formed();
    let used = use_arguments(users, value, argument, ctx);
    ctx.well_formed();
    used?;
    Ok(Some(argument))
}

/// Each of these values is passed to the block, as `pass_value` says, one after the other: none of these operations uses
/// one of them any more. `false` where one can't be passed: those before it were.
///
/// Asks what `pass_value` asks, of each of these values. Errors: allocation failure; some of the values are then passed,
/// and the next one perhaps in part. Runs are kept in any case. Cost: that of `pass_value` for each value.
pub fn pass_values<D: LengthensEdges>(
    alloc: Global,
    block: Ptr<BasicBlock>,
    values: &[Value],
    users: &[Ptr<Operation>],
    ctx: &mut Context,
) -> Result<bool, OptError>
    requires { MayPass D.meaning ctx.old.tree block values.now users.now }
    ensures passed { IfOk result (λ all. IsTrue all → AreValuesPassed D.meaning D.shortened ctx.old.tree ctx.new.tree
        block values.now users.now) }
    ensures unused { IfOk result (λ all. IsTrue all → (k v : ℕ) → In k users.now → In v values.now → In v (operands_of
        ctx.new.tree k) → ⊥) }
    ensures keeps { IfOk result (λ all. IsTrue all → KeepsPassing D.meaning ctx.old.tree ctx.new.tree block
        values.now) }
    ensures some { AreSomePassed D.meaning D.shortened ctx.old.tree ctx.new.tree block values.now users.now }
    ensures besides { KeepsBesides D.meaning ctx.old.tree ctx.new.tree block users.now }
    ensures memory { IsOkUnless result OptError.Memory }
    ensures runs { KeepsAllRuns D.meaning ctx.old.tree ctx.new.tree }
    ensures runs_back { KeepsAllRuns D.meaning ctx.new.tree ctx.old.tree }
{
    ctx.well_formed();
    for i in 0..values.len() {
        let Some(_) = pass_value::<D>(alloc, block, values[i], users, ctx)? else {
            return Ok(false);
        };
        ctx.well_formed();
    }
    Ok(true)
}
