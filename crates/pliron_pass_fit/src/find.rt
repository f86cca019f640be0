//! Whether an operation is fit to run.
//!
//! The check for dominance comes last, so it may rely on edges and uses.
ghost use Rattle.std.specs.Prelude.{◌≡◌, ◌↔◌, ◌⊎◌, ◌∷◌, ◌++◌, ℕ, List, [], None, OnOk, IfOk, IfErr, IfSome, IsOkUnless, IsTrue};
ghost use Rattle.pliron_core.specs.Tree.{In, IsLive, IsWithin, successors_of};
ghost use Rattle.pliron_core.specs.Walks.{preorder};
ghost use Rattle.pliron_laws.specs.Answers.{HeadPasses};
ghost use Rattle.pliron_theory.specs.Keeps.{IsFit};
ghost use Rattle.pliron_pass_fit.specs.Chosen.{AreChosen};
ghost use Rattle.pliron_pass_fit.specs.Violation.{IsViolation};
ghost use Rattle.pliron_pass_fit.specs.Checks.{IsStop, IsSoundAt};
ghost use Rattle.pliron_pass_fit.specs.Plain.{IsPlainlyFit};

use crate::contents::contents_of;
use crate::dominated::check_dominance;
use crate::operations::check_operation;
use crate::violation::{CheckStop, Violation};
use indexmap::IndexSet;
use pliron_core::{Context, Operation, Ptr};
use pliron_laws::{Dialect, OptError};
use std::alloc::Global;

// What is asked of the root and all that is inside it, but for dominance of uses.
fn check_operations<D: Dialect>(
    alloc: Global,
    root: Ptr<Operation>,
    ops: &[Ptr<Operation>],
    contents: &IndexSet<Ptr<Operation>>,
    ctx: &Context,
) -> Result<(), CheckStop>
    requires live { IsLive ctx.now.tree root }
    requires ops { ops.now ≡ preorder ctx.now.tree root }
    requires contents { contents.now.keys ≡ preorder ctx.now.tree root }
    ensures ok { OnOk result ((k : ℕ) → IsWithin ctx.now.tree root k → IsSoundAt D.meaning ctx.now.tree root k) }
    ensures err { IfErr result (λ e. IsStop D.meaning ctx.now.tree root e) }
{
    ctx.well_formed();
    for op in ops {
        check_operation::<D>(alloc, root, contents, *op, ctx)?;
    }
    Ok(())
}

// The root is fit to run, but for dominance of uses.
fn check_plainly<D: Dialect>(
    alloc: Global,
    root: Ptr<Operation>,
    contents: &IndexSet<Ptr<Operation>>,
    ctx: &Context,
) -> Result<(), CheckStop>
    requires live { IsLive ctx.now.tree root }
    requires contents { contents.now.keys ≡ preorder ctx.now.tree root }
    ensures ok { OnOk result (IsPlainlyFit D.meaning ctx.now.tree root) }
    ensures err { IfErr result (λ e. IsStop D.meaning ctx.now.tree root e) }
{
    ctx.well_formed();
    if !D::may_be_root(root, ctx) {
        return Err(CheckStop::Found(Violation::NotRoot));
    }
    if root.num_successor(ctx) != 0 {
        return Err(CheckStop::Found(Violation::HasSuccessors));
    }
    check_operations::<D>(alloc, root, contents.as_slice(), contents, ctx)?;
    Ok(())
}

// The root is fit to run.
fn check_fit<D: Dialect>(
    alloc: Global,
    root: Ptr<Operation>,
    contents: &IndexSet<Ptr<Operation>>,
    ctx: &Context,
) -> Result<(), CheckStop>
    requires live { IsLive ctx.now.tree root }
    requires contents { contents.now.keys ≡ preorder ctx.now.tree root }
    ensures ok { OnOk result (IsFit D.meaning ctx.now.tree root) }
    ensures err { IfErr result (λ e. IsStop D.meaning ctx.now.tree root e) }
{
    ctx.well_formed();
    check_plainly::<D>(alloc, root, contents, ctx)?;
    let inside = &contents.as_slice()[1..];
    check_dominance::<D>(alloc, root, inside, contents, ctx)?;
    Ok(())
}

/// One thing that keeps the operation from being fit to run, with its place; `None` exactly if it is fit: runs
/// may begin there, it has no successors, what is inside it uses nothing from outside, nothing outside uses
/// what is defined inside it, the tree is well linked there, all regions have dominance, definitions dominate uses,
/// edges forward what their targets take, terminators are last in their blocks, and results of what has successors
/// have no use. Where several things are wrong, which one is reported is open.
///
/// Asks that the operation is live (`is_live` tests it). Errors: allocation failure. Cost: one step for each
/// operation, block, region, operand, result, argument and edge inside it; a few table look-ups for each operand
/// there and each use of what is defined there, however deep they are; and the dominator tree of each region in
/// which a value is used in another block than its own, with a query of it for each such use.
pub fn find_violation<D: Dialect>(
    alloc: Global,
    root: Ptr<Operation>,
    ctx: &Context,
) -> Result<Option<Violation>, OptError>
    requires { IsLive ctx.now.tree root }
    ensures none { IfOk result (λ r. (r ≡ None) ↔ IsFit D.meaning ctx.now.tree root) }
    ensures some { IfOk result (λ r. IfSome r (λ violation. IsViolation D.meaning ctx.now.tree root violation)) }
    ensures memory { IsOkUnless result OptError.Memory }
{
    ctx.well_formed();
    let contents = contents_of(alloc, root, ctx)?;
    match check_fit::<D>(alloc, root, &contents, ctx) {
        Ok(()) => Ok(None),
        Err(CheckStop::Found(violation)) => Ok(Some(violation)),
        Err(CheckStop::Fault(fault)) => Err(fault),
    }
}

/// Whether the operation is fit to run: after each pass it does as it did before, where it is still live.
///
/// Asks that the operation is live (`is_live` tests it). Errors: allocation failure. Cost: that of `find_violation`.
pub fn is_fit<D: Dialect>(
    alloc: Global,
    root: Ptr<Operation>,
    ctx: &Context,
) -> Result<bool, OptError>
    requires { IsLive ctx.now.tree root }
    ensures fit { IfOk result (λ r. IsTrue r ↔ IsFit D.meaning ctx.now.tree root) }
    ensures memory { IsOkUnless result OptError.Memory }
{
    let violation = find_violation::<D>(alloc, root, ctx)?;
    Ok(violation.is_none())
}

// The operation is appended to the list, if it is live and fit to run.
fn add_if_fit<D: Dialect>(
    alloc: Global,
    root: Ptr<Operation>,
    found: &mut Vec<Ptr<Operation>>,
    ctx: &Context,
) -> Result<(), OptError>
    ensures added { OnOk result ((roots : List ℕ) → AreChosen (IsFit D.meaning ctx.now.tree) roots found.old.items
        → AreChosen (IsFit D.meaning ctx.now.tree) (roots ++ root ∷ []) found.new.items) }
    ensures memory { IsOkUnless result OptError.Memory }
{
    if !root.is_live(ctx) {
        return Ok(());
    }
    let fit = is_fit::<D>(alloc, root, ctx)?;
    if !fit {
        return Ok(());
    }
    found.push(root)?;
    Ok(())
}

/// Those of the operations that are live and fit to run, in their order.
///
/// Errors: allocation failure. Cost: that of `is_fit` for each.
pub fn fit_roots<D: Dialect>(
    alloc: Global,
    roots: &[Ptr<Operation>],
    ctx: &Context,
) -> Result<Vec<Ptr<Operation>>, OptError>
    ensures fit { IfOk result (λ found. AreChosen (IsFit D.meaning ctx.now.tree) roots.now found.items) }
    ensures memory { IsOkUnless result OptError.Memory }
{
    let mut found = Vec::new(alloc);
    for root in roots {
        add_if_fit::<D>(alloc, *root, &mut found, ctx)?;
    }
    Ok(found)
}
