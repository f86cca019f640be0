//! Verifying operations.
ghost use Rattle.std.specs.Prelude.{◌≡◌, ℕ, Result, OnOk, IfErr, OnErr};
ghost use Rattle.pliron_core.specs.Tree.{Tree, IsLive};
ghost use Rattle.pliron_pass.specs.Outcome.{Verifying};
ghost use Rattle.pliron_pass.specs.Verifying.{Verdict, PassesOne, FailsOne, Passes, Fails, IsFirstFault, verdict_by};

use pliron_core::{Context, Operation, Ptr};
use pliron_laws::{
    BlockArgRemoval, BranchOpFoldInterface, ConstFoldInterface, Dialect, Interface, OptError,
    RegionBranchOpInterface, SideEffects,
};
use std::alloc::Global;

/// What verifying operations of a dialect may answer. Each dialect has it; contracts alone speak of it.
pub trait HasVerification {
    // what the check of an interface may answer for an operation; those of branches and terminators have none
    ghost verdict: { Verdict };

    // what verifying an operation and all inside it answers
    ghost verifies: { Verifying };
}

impl<D: Dialect> HasVerification for D {
    ghost verdict = { verdict_by D.SideEffects.verdict D.BlockArgRemoval.verdict D.ConstFoldInterface.verdict
        D.BranchOpFoldInterface.verdict D.RegionBranchOpInterface.verdict };

    ghost verifies = { IsFirstFault D.has_interface (verdict_by D.SideEffects.verdict D.BlockArgRemoval.verdict
        D.ConstFoldInterface.verdict D.BranchOpFoldInterface.verdict D.RegionBranchOpInterface.verdict) };
}

// The check of an interface. Those of branches and terminators have none.
fn check<D: Dialect>(
    interface: Interface,
    alloc: Global,
    op: Ptr<Operation>,
    ctx: &Context,
) -> Result<(), OptError>
    requires { IsLive ctx.now.tree op }
    ensures { ⟦<D as HasVerification>⟧.verdict interface ctx.now.tree op result }
{
    match interface {
        Interface::SideEffects => <D as SideEffects>::verify(alloc, op, ctx),
        Interface::BlockArgRemoval => <D as BlockArgRemoval>::verify(alloc, op, ctx),
        Interface::ConstFold => <D as ConstFoldInterface>::verify(alloc, op, ctx),
        Interface::BranchFold => <D as BranchOpFoldInterface>::verify(alloc, op, ctx),
        Interface::RegionBranch => <D as RegionBranchOpInterface>::verify(alloc, op, ctx),
        Interface::Branch | Interface::Terminator => Ok(()),
    }
}

// The check of one interface, where the operation implements it.
fn verify_one<D: Dialect>(
    interface: Interface,
    alloc: Global,
    op: Ptr<Operation>,
    ctx: &Context,
) -> Result<(), OptError>
    requires { IsLive ctx.now.tree op }
    ensures ok { OnOk result (PassesOne D.has_interface ⟦<D as HasVerification>⟧.verdict ctx.now.tree op interface) }
    ensures err { IfErr result (λ e. FailsOne D.has_interface ⟦<D as HasVerification>⟧.verdict
        ctx.now.tree op interface e) }
{
    if D::implements(op, ctx, interface) {
        check::<D>(interface, alloc, op, ctx)
    } else {
        Ok(())
    }
}

// The checks of an operation.
fn verify_each<D: Dialect>(alloc: Global, op: Ptr<Operation>, ctx: &Context) -> Result<(), OptError>
    requires { IsLive ctx.now.tree op }
    ensures ok { OnOk result (Passes D.has_interface ⟦<D as HasVerification>⟧.verdict ctx.now.tree op) }
    ensures err { IfErr result (λ e. Fails D.has_interface ⟦<D as HasVerification>⟧.verdict ctx.now.tree op e) }
{
    verify_one::<D>(Interface::SideEffects, alloc, op, ctx)?;
    verify_one::<D>(Interface::BlockArgRemoval, alloc, op, ctx)?;
    verify_one::<D>(Interface::ConstFold, alloc, op, ctx)?;
    verify_one::<D>(Interface::BranchFold, alloc, op, ctx)?;
    verify_one::<D>(Interface::RegionBranch, alloc, op, ctx)
}

/// Checks `op` and then each operation inside it, in pre-order; of each one those of the interfaces that it
/// implements are called, side effects first, then removal of block arguments, folding by constants, folding
/// of branches and regions that name operands. Only reads.
///
/// Asks that the operation is live (`is_live` tests it). Errors: the first fault that a check finds, or allocation
/// failure. Cost: one step for each operation, block and region, and what the checks cost.
pub fn verify_operation<D: Dialect>(
    alloc: Global,
    op: Ptr<Operation>,
    ctx: &Context,
) -> Result<(), OptError>
    requires { IsLive ctx.now.tree op }
    ensures { ⟦<D as HasVerification>⟧.verifies ctx.now.tree op result }
{
    ctx.well_formed();
    let mut at = Some(op);
    while let Some(inner) = at {
        verify_each::<D>(alloc, inner, ctx)?;
        at = inner.next_in_preorder(op, ctx);
    }
    Ok(())
}
