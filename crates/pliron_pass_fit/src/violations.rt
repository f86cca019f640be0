//! All that keeps an operation from being fit to run.
ghost use Rattle.std.specs.Prelude.{◌≡◌, ◌↔◌, ℕ, [], IfOk, IfSome, OnOk, IsOkUnless};
ghost use Rattle.indexmap.specs.IndexMap.{get};
ghost use Rattle.pliron_core.specs.Tree.{In, IsLive, IsInside, IsWithin, operands_of};
ghost use Rattle.pliron_core.specs.Changes.{IsDefinedInside};
ghost use Rattle.pliron_core.specs.Walks.{preorder, contents as inner};
ghost use Rattle.pliron_laws.specs.Linked.{EdgesLast};
ghost use Rattle.pliron_laws.specs.Tree.{is_one_key};
ghost use Rattle.pliron_theory.specs.Keeps.{IsFit};
ghost use Rattle.pliron_pass_fit.specs.Found.{AreViolations};
ghost use Rattle.pliron_pass_fit.specs.Nesting.{IsWay};
ghost use Rattle.pliron_pass_fit.specs.Uses.{GiveRegions};
ghost use Rattle.pliron_pass_fit.specs.Violation.{IsViolation};

use crate::contents::{contents_of, is_defined_inside};
use crate::dominated::{DominatorTrees, is_dominated, way_from};
use crate::find::find_violation;
use crate::nesting::lead_to;
use crate::operations::ends_if_terminator;
use crate::violation::Violation;
use indexmap::{IndexMap, IndexSet};
use pliron_core::{Context, Operation, Ptr};
use pliron_laws::edges::ends_block;
use pliron_laws::{Dialect, OptError, edges_last, is_admitted};
use std::alloc::Global;

/// A part of an operation with which something may be wrong, but for dominance of uses.
#[derive(Clone, Copy)]
enum Aspect {
    /// What it has: its head and its counts.
    Counts,
    /// The region at this index.
    Region(usize),
    /// Where it is in its block, and where its edges lead.
    Place,
    /// The result at this index.
    Result(usize),
    /// The operand at this index.
    Operand(usize),
    /// The edge at this index.
    Edge(usize),
}

// The parts of the operation, which is the root or is inside it.
fn aspects_of(
    alloc: Global,
    root: Ptr<Operation>,
    op: Ptr<Operation>,
    ctx: &Context,
) -> Result<Vec<Aspect>, OptError>
    requires { IsLive ctx.now.tree op }
    ensures { IsOkUnless result OptError.Memory }
{
    let mut aspects = Vec::new(alloc);
    aspects.push(Aspect::Counts)?;
    for i in 0..op.num_region(ctx) {
        aspects.push(Aspect::Region(i))?;
    }
    if op == root {
        return Ok(aspects);
    }
    aspects.push(Aspect::Place)?;
    for i in 0..op.num_result(ctx) {
        aspects.push(Aspect::Result(i))?;
    }
    for i in 0..op.num_operand(ctx) {
        aspects.push(Aspect::Operand(i))?;
    }
    for i in 0..op.num_successor(ctx) {
        aspects.push(Aspect::Edge(i))?;
    }
    Ok(aspects)
}

// The violation that the dialect has no operation with these counts.
fn counts_violation<D: Dialect>(
    root: Ptr<Operation>,
    op: Ptr<Operation>,
    ctx: &Context,
) -> Option<Violation>
    requires live { IsLive ctx.now.tree op }
    requires within { IsWithin ctx.now.tree root op }
    ensures { IfSome result (λ found. IsViolation D.meaning ctx.now.tree root found) }
{
    if is_admitted::<D>(op, ctx) {
        return None;
    }
    Some(Violation::NotAdmitted(op))
}

// The violation that definitions need not come before uses in the region at this index.
fn region_violation<D: Dialect>(
    root: Ptr<Operation>,
    op: Ptr<Operation>,
    index: usize,
    ctx: &Context,
) -> Option<Violation>
    requires live { IsLive ctx.now.tree op }
    requires within { IsWithin ctx.now.tree root op }
    ensures { IfSome result (λ found. IsViolation D.meaning ctx.now.tree root found) }
{
    if index >= op.num_region(ctx) {
        return None;
    }
    let region = op.get_region(ctx, index);
    if region.has_ssa_dominance(ctx) {
        return None;
    }
    Some(Violation::NoDominance(region))
}

// The violation of where the operation is, or where its edges lead.
fn place_violation<D: Dialect>(
    root: Ptr<Operation>,
    op: Ptr<Operation>,
    ctx: &Context,
) -> Option<Violation>
    requires live { IsLive ctx.now.tree op }
    requires inside { IsInside ctx.now.tree root op }
    ensures { IfSome result (λ found. IsViolation D.meaning ctx.now.tree root found) }
{
    if !ends_block(ctx, op) {
        return Some(Violation::EdgeNotLast(op));
    }
    if !ends_if_terminator::<D>(op, ctx) {
        return Some(Violation::TerminatorNotLast(op));
    }
    None
}

// The violation that the result at this index, of an operation with successors, is used.
fn result_violation<D: Dialect>(
    root: Ptr<Operation>,
    op: Ptr<Operation>,
    index: usize,
    ctx: &Context,
) -> Option<Violation>
    requires live { IsLive ctx.now.tree op }
    requires inside { IsInside ctx.now.tree root op }
    ensures { IfSome result (λ found. IsViolation D.meaning ctx.now.tree root found) }
{
    ctx.well_formed();
    if op.num_successor(ctx) == 0 {
        return None;
    }
    if index >= op.num_result(ctx) {
        return None;
    }
    if op.get_result(ctx, index).num_use(ctx) == 0 {
        return None;
    }
    Some(Violation::ResultUsed(op, index))
}

// The violation that the operand at this index is defined outside the root.
fn operand_violation<D: Dialect>(
    root: Ptr<Operation>,
    contents: &IndexSet<Ptr<Operation>>,
    op: Ptr<Operation>,
    index: usize,
    ctx: &Context,
) -> Option<Violation>
    requires contents { contents.now.keys ≡ preorder ctx.now.tree root }
    requires live { IsLive ctx.now.tree op }
    requires inside { IsInside ctx.now.tree root op }
    ensures { IfSome result (λ found. IsViolation D.meaning ctx.now.tree root found) }
{
    if index >= op.num_operand(ctx) {
        return None;
    }
    if is_defined_inside(root, contents, op.get_operand(ctx, index), ctx) {
        return None;
    }
    Some(Violation::ForeignValue(op, index))
}

// The violation that the edge at this index forwards another number of values than its target has arguments.
fn edge_violation<D: Dialect>(
    alloc: Global,
    root: Ptr<Operation>,
    op: Ptr<Operation>,
    index: usize,
    ctx: &Context,
) -> Result<Option<Violation>, OptError>
    requires live { IsLive ctx.now.tree op }
    requires inside { IsInside ctx.now.tree root op }
    ensures violation { IfOk result (λ r. IfSome r (λ found. IsViolation D.meaning ctx.now.tree root found)) }
    ensures memory { IsOkUnless result OptError.Memory }
{
    if !D::is_branch(op, ctx) {
        return Ok(None);
    }
    if index >= op.num_successor(ctx) {
        return Ok(None);
    }
    let values = D::successor_operands(alloc, op, ctx, index)?;
    if values.len() == op.get_successor(ctx, index).num_argument(ctx) {
        return Ok(None);
    }
    Ok(Some(Violation::UnequalEdge(op, index)))
}

// What is wrong with this part of an operation inside the root.
fn inside_violation<D: Dialect>(
    alloc: Global,
    root: Ptr<Operation>,
    contents: &IndexSet<Ptr<Operation>>,
    op: Ptr<Operation>,
    aspect: Aspect,
    ctx: &Context,
) -> Result<Option<Violation>, OptError>
    requires contents { contents.now.keys ≡ preorder ctx.now.tree root }
    requires live { IsLive ctx.now.tree op }
    requires inside { IsInside ctx.now.tree root op }
    ensures violation { IfOk result (λ r. IfSome r (λ found. IsViolation D.meaning ctx.now.tree root found)) }
    ensures memory { IsOkUnless result OptError.Memory }
{
    match aspect {
        Aspect::Counts | Aspect::Region(_) => Ok(None),
        Aspect::Place => Ok(place_violation::<D>(root, op, ctx)),
        Aspect::Result(index) => Ok(result_violation::<D>(root, op, index, ctx)),
        Aspect::Operand(index) => Ok(operand_violation::<D>(root, contents, op, index, ctx)),
        Aspect::Edge(index) => edge_violation::<D>(alloc, root, op, index, ctx),
    }
}

// What is wrong with this part of the root or of an operation inside it.
fn aspect_violation<D: Dialect>(
    alloc: Global,
    root: Ptr<Operation>,
    contents: &IndexSet<Ptr<Operation>>,
    op: Ptr<Operation>,
    aspect: Aspect,
    ctx: &Context,
) -> Result<Option<Violation>, OptError>
    requires contents { contents.now.keys ≡ preorder ctx.now.tree root }
    requires live { IsLive ctx.now.tree op }
    requires within { IsWithin ctx.now.tree root op }
    ensures violation { IfOk result (λ r. IfSome r (λ found. IsViolation D.meaning ctx.now.tree root found)) }
    ensures memory { IsOkUnless result OptError.Memory }
{
    ctx.well_formed();
    match aspect {
        Aspect::Counts => Ok(counts_violation::<D>(root, op, ctx)),
        Aspect::Region(index) => Ok(region_violation::<D>(root, op, index, ctx)),
        _ => {
            if op == root {
                return Ok(None);
            }
            inside_violation::<D>(alloc, root, contents, op, aspect, ctx)
        }
    }
}

// Adds what was found, if something was.
fn add_found<D: Dialect>(
    root: Ptr<Operation>,
    wrong: Option<Violation>,
    found: &mut Vec<Violation>,
    ctx: &Context,
) -> Result<(), OptError>
    requires violation { IfSome wrong (λ violation. IsViolation D.meaning ctx.now.tree root violation) }
    requires found { AreViolations D.meaning ctx.now.tree root found.old.items }
    ensures found { OnOk result (AreViolations D.meaning ctx.now.tree root found.new.items) }
    ensures memory { IsOkUnless result OptError.Memory }
{
    let Some(violation) = wrong else {
        return Ok(());
    };
    found.push(violation)?;
    Ok(())
}

// Adds what is wrong with the operation, but for dominance of uses.
fn add_violations<D: Dialect>(
    alloc: Global,
    root: Ptr<Operation>,
    contents: &IndexSet<Ptr<Operation>>,
    op: Ptr<Operation>,
    found: &mut Vec<Violation>,
    ctx: &Context,
) -> Result<(), OptError>
    requires contents { contents.now.keys ≡ preorder ctx.now.tree root }
    requires live { IsLive ctx.now.tree op }
    requires within { IsWithin ctx.now.tree root op }
    requires found { AreViolations D.meaning ctx.now.tree root found.old.items }
    ensures found { OnOk result (AreViolations D.meaning ctx.now.tree root found.new.items) }
    ensures memory { IsOkUnless result OptError.Memory }
{
    let aspects = aspects_of(alloc, root, op, ctx)?;
    for aspect in &aspects {
        let wrong = aspect_violation::<D>(alloc, root, contents, op, *aspect, ctx)?;
        add_found::<D>(root, wrong, found, ctx)?;
    }
    Ok(())
}

// The violation that no run may begin at the root.
fn start_violation<D: Dialect>(root: Ptr<Operation>, ctx: &Context) -> Option<Violation>
    requires { IsLive ctx.now.tree root }
    ensures { IfSome result (λ found. IsViolation D.meaning ctx.now.tree root found) }
{
    if D::may_be_root(root, ctx) {
        return None;
    }
    Some(Violation::NotRoot)
}

// The violation that the root has successors.
fn successors_violation<D: Dialect>(root: Ptr<Operation>, ctx: &Context) -> Option<Violation>
    requires { IsLive ctx.now.tree root }
    ensures { IfSome result (λ found. IsViolation D.meaning ctx.now.tree root found) }
{
    if root.num_successor(ctx) == 0 {
        return None;
    }
    Some(Violation::HasSuccessors)
}

// Adds what is wrong with the root and all that is inside it, but for dominance of uses.
fn add_all_violations<D: Dialect>(
    alloc: Global,
    root: Ptr<Operation>,
    ops: &[Ptr<Operation>],
    contents: &IndexSet<Ptr<Operation>>,
    found: &mut Vec<Violation>,
    ctx: &Context,
) -> Result<(), OptError>
    requires live { IsLive ctx.now.tree root }
    requires ops { ops.now ≡ preorder ctx.now.tree root }
    requires contents { contents.now.keys ≡ preorder ctx.now.tree root }
    requires found { AreViolations D.meaning ctx.now.tree root found.old.items }
    ensures found { OnOk result (AreViolations D.meaning ctx.now.tree root found.new.items) }
    ensures memory { IsOkUnless result OptError.Memory }
{
    ctx.well_formed();
    for op in ops {
        add_violations::<D>(alloc, root, contents, *op, found, ctx)?;
    }
    Ok(())
}

// What is wrong with the root and all that is inside it, but for dominance of uses.
fn plain_violations<D: Dialect>(
    alloc: Global,
    root: Ptr<Operation>,
    contents: &IndexSet<Ptr<Operation>>,
    ctx: &Context,
) -> Result<Vec<Violation>, OptError>
    requires live { IsLive ctx.now.tree root }
    requires contents { contents.now.keys ≡ preorder ctx.now.tree root }
    ensures found { IfOk result (λ found. AreViolations D.meaning ctx.now.tree root found.items) }
    ensures memory { IsOkUnless result OptError.Memory }
{
    let mut found = Vec::new(alloc);
    add_found::<D>(root, start_violation::<D>(root, ctx), &mut found, ctx)?;
    add_found::<D>(root, successors_violation::<D>(root, ctx), &mut found, ctx)?;
    let ops = contents.as_slice();
    add_all_violations::<D>(alloc, root, ops, contents, &mut found, ctx)?;
    Ok(found)
}

/// An operand of an operation, by its index.
#[derive(Clone, Copy)]
struct OperandPlace {
    op: Ptr<Operation>,
    index: usize,
}

// The violation that the definition of this operand doesn't dominate the operation, which the way leads to.
fn use_violation<D: Dialect>(
    root: Ptr<Operation>,
    place: OperandPlace,
    contents: &IndexSet<Ptr<Operation>>,
    way: &IndexSet<Ptr<Operation>>,
    trees: &mut DominatorTrees,
    ctx: &Context,
) -> Result<Option<Violation>, OptError>
    requires live { IsLive ctx.now.tree place.op }
    requires inside { IsInside ctx.now.tree root place.op }
    requires contents { contents.now.keys ≡ preorder ctx.now.tree root }
    requires edges { EdgesLast ctx.now.tree root }
    requires way { IsWay ctx.now.tree root place.op way.now.keys }
    requires gives { GiveRegions ctx.now.tree (λ r. get is_one_key trees.old.of_regions r) }
    ensures violation { IfOk result (λ r. IfSome r (λ found. IsViolation D.meaning ctx.now.tree root found)) }
    ensures gives { OnOk result (GiveRegions ctx.now.tree (λ r. get is_one_key trees.new.of_regions r)) }
    ensures memory { IsOkUnless result OptError.Memory }
{
    let OperandPlace { op, index } = place;
    if index >= op.num_operand(ctx) {
        return Ok(None);
    }
    let value = op.get_operand(ctx, index);
    if !is_defined_inside(root, contents, value, ctx) {
        return Ok(None);
    }
    let dominated = is_dominated(value, contents, way, trees, ctx)?;
    if dominated {
        return Ok(None);
    }
    Ok(Some(Violation::NotDominated(op, index)))
}

/// What is found wrong, and the dominator trees by which more is found.
#[derive(Drop)]
struct UseSearch {
    trees: DominatorTrees,
    found: Vec<Violation>,
}

// Adds each operand of the operation, which the way leads to, whose definition doesn't dominate the operation.
fn add_undominated<D: Dialect>(
    root: Ptr<Operation>,
    op: Ptr<Operation>,
    contents: &IndexSet<Ptr<Operation>>,
    way: &IndexSet<Ptr<Operation>>,
    search: &mut UseSearch,
    ctx: &Context,
) -> Result<(), OptError>
    requires live { IsLive ctx.now.tree op }
    requires inside { IsInside ctx.now.tree root op }
    requires contents { contents.now.keys ≡ preorder ctx.now.tree root }
    requires edges { EdgesLast ctx.now.tree root }
    requires way { IsWay ctx.now.tree root op way.now.keys }
    requires gives { GiveRegions ctx.now.tree (λ r. get is_one_key search.old.trees.of_regions r) }
    requires found { AreViolations D.meaning ctx.now.tree root search.old.found.items }
    ensures gives { OnOk result (GiveRegions ctx.now.tree (λ r. get is_one_key search.new.trees.of_regions r)) }
    ensures found { OnOk result (AreViolations D.meaning ctx.now.tree root search.new.found.items) }
    ensures memory { IsOkUnless result OptError.Memory }
{
    for index in 0..op.num_operand(ctx) {
        let place = OperandPlace { op, index };
        let wrong = use_violation::<D>(root, place, contents, way, &mut search.trees, ctx)?;
        add_found::<D>(root, wrong, &mut search.found, ctx)?;
    }
    Ok(())
}

// The same with each operand of what is inside the root whose definition doesn't dominate its user.
fn with_undominated<D: Dialect>(
    alloc: Global,
    root: Ptr<Operation>,
    inside: &[Ptr<Operation>],
    contents: &IndexSet<Ptr<Operation>>,
    found: Vec<Violation>,
    ctx: &Context,
) -> Result<Vec<Violation>, OptError>
    requires live { IsLive ctx.now.tree root }
    requires inside { inside.now ≡ inner ctx.now.tree root }
    requires contents { contents.now.keys ≡ preorder ctx.now.tree root }
    requires edges { EdgesLast ctx.now.tree root }
    requires found { AreViolations D.meaning ctx.now.tree root found.items }
    ensures found { IfOk result (λ found. AreViolations D.meaning ctx.now.tree root found.items) }
    ensures memory { IsOkUnless result OptError.Memory }
{
    ctx.well_formed();
    let mut way = way_from(alloc, root)?;
    let trees = DominatorTrees {
        alloc,
        of_regions: IndexMap::new(alloc),
    };
    let mut search = UseSearch { trees, found };
    for op in inside {
        lead_to(&mut way, *op, ctx)?;
        add_undominated::<D>(root, *op, contents, &way, &mut search, ctx)?;
    }
    Ok(search.found)
}

// Each violation of the operation, but for uses outside it, and where an edge doesn't end its block for dominance.
fn all_violations<D: Dialect>(
    alloc: Global,
    root: Ptr<Operation>,
    ctx: &Context,
) -> Result<Vec<Violation>, OptError>
    requires { IsLive ctx.now.tree root }
    ensures found { IfOk result (λ found. AreViolations D.meaning ctx.now.tree root found.items) }
    ensures memory { IsOkUnless result OptError.Memory }
{
    ctx.well_formed();
    let contents = contents_of(alloc, root, ctx)?;
    let found = plain_violations::<D>(alloc, root, &contents, ctx)?;
    if !edges_last(root, ctx) {
        return Ok(found);
    }
    let inside = &contents.as_slice()[1..];
    with_undominated::<D>(alloc, root, inside, &contents, found, ctx)
}

/// All that keeps the operation from being fit to run, with places; nothing exactly if it is fit. Of an operation of
/// which an edge doesn't end its block, or leads to another region, it isn't told that definitions don't dominate uses;
/// of a use outside the operation only where nothing else is wrong.
///
/// Asks that the operation is live (`is_live` tests it). Errors: allocation failure. Cost: twice that of
/// `find_violation`.
pub fn find_violations<D: Dialect>(
    alloc: Global,
    root: Ptr<Operation>,
    ctx: &Context,
) -> Result<Vec<Violation>, OptError>
    requires { IsLive ctx.now.tree root }
    ensures fit { IfOk result (λ found. (found.items ≡ []) ↔ IsFit D.meaning ctx.now.tree root) }
    ensures found { IfOk result (λ found. AreViolations D.meaning ctx.now.tree root found.items) }
    ensures memory { IsOkUnless result OptError.Memory }
{
    let Some(first) = find_violation::<D>(alloc, root, ctx)? else {
        return Ok(Vec::new(alloc));
    };
    let mut found = all_violations::<D>(alloc, root, ctx)?;
    if !found.is_empty() {
        return Ok(found);
    }
    found.push(first)?;
    Ok(found)
}
