//! Reading a module.
ghost use Rattle.std.specs.Prelude.{IfOk};
ghost use Rattle.pliron_core.specs.Tree.{IsLive};
ghost use Rattle.pliron_laws.specs.Linked.{IsWellLinked};
ghost use Rattle.pliron_text_mlir_reader.specs.Additions.{AddsTaken};

use crate::build::build;
use crate::{ParsedModule, parse_text};
use pliron_core::{Contents, Context, Operation, Ptr};
use pliron_laws::{Dialect, is_admitted, is_well_linked};
use pliron_text_mlir_syntax::{Expectation, Fault, Sheet};
use std::alloc::Global;

/// A module: its operation, and what the text says beside the tree.
#[derive(Drop)]
pub struct Module {
    pub root: Ptr<Operation>,
    pub sheet: Sheet,
}

/// Reads a text in the generic form and builds its operation, which is in no block and is well linked.
///
/// Functions that can't be served, since they have more than 64 regions in one another or tags of blocks, are kept as
/// they are written. Errors: the place where the text leaves the grammar, uses what isn't defined or has an operation
/// with successors that isn't the last of its block, and what was expected; allocation failure. A part of the text may
/// be live then. Cost: linear in the text, but for uses in regions inside the one that defines their value, which cost
/// a step for each region between.
pub fn read_module<D: Dialect>(
    alloc: Global,
    text: &[u8],
    ctx: &mut Context,
) -> Result<Module, Fault>
    ensures liveness { IfOk result (λ read. IsLive ctx.new.tree read.root) }
    ensures linked { IfOk result (λ read. IsWellLinked D.meaning ctx.new.tree read.root) }
    ensures heads { AddsTaken ctx.old.tree ctx.new.tree }
{
    let parsed = parse_text(alloc, text)?;
    build_module::<D>(alloc, parsed, ctx)
}

// The module of a text that was parsed.
fn build_module<D: Dialect>(
    alloc: Global,
    mut parsed: ParsedModule,
    ctx: &mut Context,
) -> Result<Module, Fault>
    ensures liveness { IfOk result (λ read. IsLive ctx.new.tree read.root) }
    ensures linked { IfOk result (λ read. IsWellLinked D.meaning ctx.new.tree read.root) }
    ensures heads { AddsTaken ctx.old.tree ctx.new.tree }
{
    match build_linked::<D>(alloc, &mut parsed, ctx) {
        Ok(root) => Ok(Module {
            root,
            sheet: parsed.sheet,
        }),
        Err(fault) => Err(fault),
    }
}

// Its operation, where that is well linked.
fn build_linked<D: Dialect>(
    alloc: Global,
    parsed: &mut ParsedModule,
    ctx: &mut Context,
) -> Result<Ptr<Operation>, Fault>
    ensures liveness { IfOk result (λ root. IsLive ctx.new.tree root) }
    ensures linked { IfOk result (λ root. IsWellLinked D.meaning ctx.new.tree root) }
    ensures heads { AddsTaken ctx.old.tree ctx.new.tree }
{
    let root = build(
        alloc,
        &parsed.syntax,
        &mut parsed.heads,
        &mut parsed.sheet,
        ctx,
    )?;
    if is_well_linked::<D>(root, ctx) {
        Ok(root)
    } else {
        Err(fault_of_tree::<D>(root, &parsed.sheet, ctx))
    }
}

// What the operation breaks of what is asked of well-linked trees, if anything.
fn violation_of<D: Dialect>(op: Ptr<Operation>, ctx: &Context) -> Option<Expectation> {
    if !op.is_live(ctx) {
        return None;
    }
    if !is_admitted::<D>(op, ctx) {
        Some(Expectation::Admitted)
    } else if op.num_successor(ctx) > 0 && op.get_next(ctx).is_some() {
        Some(Expectation::LastOfBlock)
    } else {
        None
    }
}

// The first operation that isn't admitted, or has successors and isn't the last of its block.
fn fault_of_tree<D: Dialect>(root: Ptr<Operation>, sheet: &Sheet, ctx: &Context) -> Fault
    requires { IsLive ctx.now.tree root }
{
    if let Some(expected) = violation_of::<D>(root, ctx) {
        return Fault::Expected(0, expected);
    }
    for op in Contents::new(root, ctx) {
        if let Some(expected) = violation_of::<D>(op, ctx) {
            return Fault::Expected(sheet.place_of(op.key()).unwrap_or(0), expected);
        }
    }
    Fault::Expected(0, Expectation::LastOfBlock)
}
