//! What is inside operations at which no run begins, one by one.
ghost use Rattle.std.specs.Prelude.{◌≡◌, ◌↔◌, None, IfOk, IfSome, OnOk, IsTrue};
ghost use Rattle.pliron_core.specs.Tree.{IsLive};
ghost use Rattle.pliron_theory.specs.Keeps.{IsFit};
ghost use Rattle.pliron_pass_fit.specs.Violation.{IsViolation};
ghost use Rattle.pliron_show_commands.specs.Faults.{AreFaults};
ghost use Rattle.pliron_show_commands.specs.Parts.{AreFitParts, IsContainer, IsFirstPart, IsFitByParts, IsInContainer, IsReportedPart, IsAtFault};

use pliron_core::{Contents, Context, Operation, Ptr};
use pliron_laws::{Dialect, OptError};
use pliron_pass_fit::{Violation, find_violation, find_violations};
use std::alloc::Global;

/// Whether the operation has a region in which definitions need not come before uses, as a `mod` has, so that what is
/// directly inside runs by itself. Asks that it is live. Cost: linear in its regions.
pub(crate) fn is_container(op: Ptr<Operation>, ctx: &Context) -> bool
    requires { IsLive ctx.now.tree op }
    ensures { IsTrue result ↔ IsContainer ctx.now.tree op }
{
    for i in 0..op.num_region(ctx) {
        if !op.get_region(ctx, i).has_ssa_dominance(ctx) {
            return true;
        }
    }
    false
}

// Whether the operation is directly inside a container.
fn is_in_container(op: Ptr<Operation>, ctx: &Context) -> bool
    requires { IsLive ctx.now.tree op }
    ensures { IsTrue result ↔ IsInContainer ctx.now.tree op }
{
    match op.get_parent_op(ctx) {
        Some(holder) => is_container(holder, ctx),
        None => false,
    }
}

// Whether runs begin at the operation by itself, since it is in a container.
fn is_part(op: Ptr<Operation>, ctx: &Context) -> bool
    requires { IsLive ctx.now.tree op }
    ensures { IsTrue result ↔ IsReportedPart ctx.now.tree op }
{
    is_in_container(op, ctx) && op.num_region(ctx) != 0 && !is_container(op, ctx)
}

// What keeps the operation, if it is a part, from being fit to run. Errors: allocation failure.
fn part_violation<D: Dialect>(
    alloc: Global,
    op: Ptr<Operation>,
    ctx: &Context,
) -> Result<Option<Violation>, OptError>
    requires { IsLive ctx.now.tree op }
    ensures none { IfOk result (λ r. (r ≡ None) ↔ (IsReportedPart ctx.now.tree op → IsFit D.meaning ctx.now.tree op)) }
    ensures some { IfOk result (λ r. IfSome r (λ violation. IsViolation D.meaning ctx.now.tree op violation)) }
    ensures part { IfOk result (λ r. IfSome r (λ violation. IsReportedPart ctx.now.tree op)) }
{
    if is_part(op, ctx) {
        find_violation::<D>(alloc, op, ctx)
    } else {
        Ok(None)
    }
}

// The first part inside the operation, in the order of the text, that isn't fit to run, with what keeps it from that.
// Errors: allocation failure.
#[tactic(auto, using(crate::proofs::PartLemmas::search_begins, crate::proofs::PartLemmas::search_live, crate::proofs::PartLemmas::search_continues, crate::proofs::PartLemmas::search_found, crate::proofs::PartLemmas::search_ends))]
fn first_unfit_part<D: Dialect>(
    alloc: Global,
    root: Ptr<Operation>,
    ctx: &Context,
) -> Result<Option<(Ptr<Operation>, Violation)>, OptError>
    requires { IsLive ctx.now.tree root }
    ensures none { IfOk result (λ found. (found ≡ None) ↔ AreFitParts D.meaning ctx.now.tree root) }
    ensures first { IfOk result (λ found. IfSome found (λ it. IsFirstPart D.meaning ctx.now.tree root it.0)) }
    ensures some { IfOk result (λ found. IfSome found (λ it. IsViolation D.meaning ctx.now.tree it.0 it.1)) }
{
    ctx.contents_agree();
    ctx.well_formed();
    for op in Contents::new(root, ctx) {
        if let Some(violation) = part_violation::<D>(alloc, op, ctx)? {
            return Ok(Some((op, violation)));
        }
    }
    Ok(None)
}

/// The operation that isn't fit to run and why: the given one, or, for a container, the first unfit part inside; `None`
/// exactly if the operation is fit by its parts. Asks that it is live. Errors:
/// allocation failure. Cost: linear in what is inside, and that of `find_violation` for each part.
#[tactic(auto, using(crate::proofs::PartLemmas::fit_whole, crate::proofs::PartLemmas::fit_parts, crate::proofs::PartLemmas::reported_itself, crate::proofs::PartLemmas::reported_inside))]
pub(crate) fn first_unfit<D: Dialect>(
    alloc: Global,
    root: Ptr<Operation>,
    ctx: &Context,
) -> Result<Option<(Ptr<Operation>, Violation)>, OptError>
    requires { IsLive ctx.now.tree root }
    ensures none { IfOk result (λ found. (found ≡ None) ↔ IsFitByParts D.meaning ctx.now.tree root) }
    ensures fault { IfOk result (λ found. IfSome found (λ it. IsAtFault D.meaning ctx.now.tree root it.0)) }
    ensures some { IfOk result (λ found. IfSome found (λ it. IsViolation D.meaning ctx.now.tree it.0 it.1)) }
{
    if is_container(root, ctx) {
        return first_unfit_part::<D>(alloc, root, ctx);
    }
    match find_violation::<D>(alloc, root, ctx)? {
        Some(violation) => Ok(Some((root, violation))),
        None => Ok(None),
    }
}

/// Something that keeps an operation from being fit to run.
#[derive(Clone, Copy)]
pub(crate) struct PartViolation {
    /// The operation: the one that is checked, or a part inside it.
    pub part: Ptr<Operation>,
    pub violation: Violation,
}

// Adds all that keeps the operation from being fit to run. Errors: allocation failure.
fn add_violations<D: Dialect>(
    alloc: Global,
    part: Ptr<Operation>,
    found: &mut Vec<PartViolation>,
    ctx: &Context,
) -> Result<(), OptError>
    requires live { IsLive ctx.now.tree part }
    requires found { AreFaults D.meaning ctx.now.tree found.old.items }
    ensures { OnOk result (AreFaults D.meaning ctx.now.tree found.new.items) }
{
    let violations = find_violations::<D>(alloc, part, ctx)?;
    for violation in &violations {
        found.push(PartViolation {
            part,
            violation: *violation,
        })?;
    }
    Ok(())
}

/// All that keeps the operation from being fit to run or, for a container, each part inside it. Asks that it is live.
/// Errors: allocation failure. Cost: linear in what is inside, and that of `find_violations` for each part.
pub(crate) fn all_unfit<D: Dialect>(
    alloc: Global,
    root: Ptr<Operation>,
    ctx: &Context,
) -> Result<Vec<PartViolation>, OptError>
    requires { IsLive ctx.now.tree root }
    ensures { IfOk result (λ found. AreFaults D.meaning ctx.now.tree found.items) }
{
    let mut found = Vec::new(alloc);
    if !is_container(root, ctx) {
        add_violations::<D>(alloc, root, &mut found, ctx)?;
        return Ok(found);
    }
    for op in Contents::new(root, ctx) {
        if op.is_live(ctx) && is_part(op, ctx) {
            add_violations::<D>(alloc, op, &mut found, ctx)?;
        }
    }
    Ok(found)
}
