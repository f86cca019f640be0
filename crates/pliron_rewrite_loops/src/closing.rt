//! Values of a block that is left along two edges, as a loop's header, which are used in that block alone after.
ghost use Rattle.std.specs.Prelude.{◌≡◌, ◌↔◌, ℕ, Bool, List, [], Some, IfOk, IsTrue, IsOkUnless};
ghost use Rattle.pliron_core.specs.Tree.{In};
ghost use Rattle.pliron_theory.specs.Keeps.{KeepsAllRuns};
ghost use Rattle.pliron_rewrite_copies.specs.ClosedBlock.{IsClosedBlock};
ghost use Rattle.pliron_rewrite_loops.specs.Passing.{MayPass, KeepsBesides};
ghost use Rattle.pliron_rewrite_loops.specs.Closing.{IsHeaderCovered, IsGatePassed, IsClosing};

use crate::passed_values_are_closed;
use crate::passing::pass_values;
use pliron_core::{BasicBlock, Context, Operation, Ptr, Value};
use pliron_dialect_edges::LengthensEdges;
use pliron_laws::OptError;
use std::alloc::Global;

/// A block to which a header leads, and operations behind it.
#[derive(Drop)]
pub struct Gate {
    /// The block.
    pub block: Ptr<BasicBlock>,
    /// The operations that are to use arguments of the block in the place of values of the header.
    pub users: Vec<Ptr<Operation>>,
}

// Each of these values is passed to the block, if there is a user behind it.
fn pass_to_gate<D: LengthensEdges>(
    alloc: Global,
    values: &[Value],
    gate: &Gate,
    ctx: &mut Context,
) -> Result<bool, OptError>
    requires { (k : ℕ) → In k gate.now.users.items → MayPass D.meaning ctx.old.tree gate.now.block values.now
        gate.now.users.items }
    ensures passed { IfOk result (λ all. IsTrue all → IsGatePassed D.meaning ctx.old.tree ctx.new.tree gate.now.block
        values.now gate.now.users.items) }
    ensures besides { KeepsBesides D.meaning ctx.old.tree ctx.new.tree gate.now.block gate.now.users.items }
    ensures memory { IsOkUnless result OptError.Memory }
    ensures runs { KeepsAllRuns D.meaning ctx.old.tree ctx.new.tree }
    ensures runs_back { KeepsAllRuns D.meaning ctx.new.tree ctx.old.tree }
{
    if gate.users.is_empty() {
        return Ok(true);
    }
    let passed = pass_values::<D>(alloc, gate.block, values, gate.users.as_slice(), ctx)?;
    Ok(passed)
}

/// Each of these values, which a header defines, is passed to the body and to the exit, as `pass_values` says: the users
/// behind each use the block's arguments. Then the header is closed: what it defines is used in it alone, if all other
/// uses were of these values by these users. Nothing is passed to a block without users. `false` where a value can't be
/// passed: some were.
///
/// Asks what `pass_values` asks, of each block that has users. Errors: allocation failure; some of the values are then
/// passed. Runs are kept in any case. Cost: that of `pass_values`, twice. Source: R. Cytron and others, Efficiently
/// Computing Static Single Assignment Form and the Control Dependence Graph, 1991 (φ functions stand at the dominance
/// frontier, which of a header and its copy is the two blocks).
pub fn close_header<D: LengthensEdges>(
    alloc: Global,
    values: &[Value],
    body: &Gate,
    exit: &Gate,
    ctx: &mut Context,
) -> Result<bool, OptError>
    requires to_body { (k : ℕ) → In k body.now.users.items → MayPass D.meaning ctx.old.tree body.now.block values.now
        body.now.users.items }
    requires to_exit { (k : ℕ) → In k exit.now.users.items → MayPass D.meaning ctx.old.tree exit.now.block values.now
        exit.now.users.items }
    ensures closed { IfOk result (λ all. IsTrue all → (header : ℕ) → IsHeaderCovered ctx.old.tree header body.now.block
        exit.now.block values.now body.now.users.items exit.now.users.items → IsClosedBlock ctx.new.tree header) }
    ensures closing { IsClosing D.meaning ctx.old.tree ctx.new.tree body.now.block exit.now.block body.now.users.items
        exit.now.users.items }
    ensures memory { IsOkUnless result OptError.Memory }
    ensures runs { KeepsAllRuns D.meaning ctx.old.tree ctx.new.tree }
    ensures runs_back { KeepsAllRuns D.meaning ctx.new.tree ctx.old.tree }
{
    passed_values_are_closed::<D>();
    ctx.well_formed();
    let left = pass_to_gate::<D>(alloc, values, exit, ctx);
    ctx.well_formed();
    if !left? {
        return Ok(false);
    }
    let passed = pass_to_gate::<D>(alloc, values, body, ctx);
    ctx.well_formed();
    Ok(passed?)
}
