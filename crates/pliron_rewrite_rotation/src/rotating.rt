//! Loops that are rotated.
ghost use Rattle.std.specs.Prelude.{◌≡◌, ℕ, IfOk, IfSome, IsOkUnless};
ghost use Rattle.pliron_theory.specs.Keeps.{KeepsAllRuns};
ghost use Rattle.pliron_rewrite_rotation.specs.HeaderCopied.{KeepsToHolders};
ghost use Rattle.pliron_rewrite_rotation.specs.Rotation.{MayRotate, IsRotated};

use crate::header::copy_header;
use pliron_core::{BasicBlock, Context, Operation, Ptr, Rewriter, Value};
use pliron_dialect_edges::LengthensEdges;
use pliron_laws::{OptError, Room};
use pliron_rewrite_loops::{Gate, close_header};
use std::alloc::Global;

/// A loop that is to be rotated.
#[derive(Drop)]
pub struct Rotation {
    /// Its header, which leads to the body and to the exit.
    pub header: Ptr<BasicBlock>,
    /// What the header defines and other blocks use.
    pub values: Vec<Value>,
    /// The block of the loop to which the header leads, and the users behind it.
    pub body: Gate,
    /// The block outside the loop to which the header leads, and the users behind it.
    pub exit: Gate,
    /// The operations that lead to the header from outside the loop.
    pub entering: Vec<Ptr<Operation>>,
}

/// The header of the loop is copied for the operations that enter: what it defines is passed to the body and to the exit,
/// as `close_header` says, then it is copied, as `copy_header` says. So the loop is entered behind its test, which it makes
/// at its end: the header is left with the loop's own edges. Answers the copy; `None` where a value can't be passed: some
/// were, and nothing was copied.
///
/// Asks that the values may be passed, that the gates and the users stand in the header's region, that no operation of the
/// header has regions or leads to it, and that each operation that enters ends another block of the region and has neither
/// results nor regions. Errors: allocation failure. Some of the values are then passed, or some of the operations that
/// enter lead to the copy already. Runs are kept in any case. Cost: that of `close_header` and `copy_header`. Source:
/// S. S. Muchnick, Advanced Compiler Design and Implementation, 1997, chapter 18 (loop inversion).
pub fn rotate_loop<D: LengthensEdges, R: Rewriter + Room>(
    alloc: Global,
    rotation: &Rotation,
    ctx: &mut Context,
    rewriter: &mut R,
) -> Result<Option<Ptr<BasicBlock>>, OptError>
    requires { MayRotate D.meaning ctx.old.tree rotation.now }
    ensures rotated { IfOk result (λ o. IfSome o (λ copy. IsRotated D.meaning ctx.old.tree ctx.new.tree rotation.now
        copy)) }
    ensures holders { KeepsToHolders D.meaning ctx.old.tree ctx.new.tree rotation.now.header }
    ensures memory { IsOkUnless result OptError.Memory }
    ensures runs { KeepsAllRuns D.meaning ctx.old.tree ctx.new.tree }
{
    ctx.well_formed();
    let values = rotation.values.as_slice();
    let closed = close_header::<D>(alloc, values, &rotation.body, &rotation.exit, ctx);
    ctx.well_formed();
    if !closed? {
        return Ok(None);
    }
    let entering = rotation.entering.as_slice();
    let copied = copy_header::<D, R>(alloc, rotation.header, entering, ctx, rewriter);
    ctx.well_formed();
    Ok(Some(copied?))
}
