//! Paths to regions.
//!
//! A path has numbers with dots between them: the first is a region of the text's operation, the second an operation
//! directly in it, counted over its blocks, the third a region of that one, and so on. So it has an odd count of
//! numbers, each counted from 0.
ghost use Rattle.std.specs.Prelude.{IfOk, IfSome};
ghost use Rattle.pliron_core.specs.Tree.{IsRegion};

use pliron_core::{Context, Operation, Ptr, Region};
use pliron_laws::reads::{all_operations, push_layout};
use std::alloc::{AllocError, Global};

// The operation with this number directly in the region, if it has so many.
fn operation_in(
    alloc: Global,
    ctx: &Context,
    region: Ptr<Region>,
    number: usize,
) -> Result<Option<Ptr<Operation>>, AllocError>
    requires { IsRegion ctx.now.tree region }
{
    let mut blocks = Vec::new(alloc);
    push_layout(region, ctx, &mut blocks)?;
    let mut before = number;
    for block in &blocks {
        if block.is_live(ctx) {
            let operations = all_operations(alloc, *block, ctx)?;
            if let Some(op) = operations.get(before) {
                return Ok(Some(*op));
            }
            before = before.saturating_sub(operations.len());
        }
    }
    Ok(None)
}

// The region of the operation at this index, if it is live and has so many.
fn region_of(ctx: &Context, op: Ptr<Operation>, index: usize) -> Option<Ptr<Region>>
    ensures { IfSome result (λ region. IsRegion ctx.now.tree region) }
{
    if op.is_live(ctx) && index < op.num_region(ctx) {
        Some(op.get_region(ctx, index))
    } else {
        None
    }
}

/// What a path leads to so far.
#[derive(Clone, Copy)]
enum PathStep {
    Operation(Ptr<Operation>),
    Region(Ptr<Region>),
}

// What is one number further.
fn further(
    alloc: Global,
    ctx: &Context,
    step: PathStep,
    number: usize,
) -> Result<Option<PathStep>, AllocError> {
    Ok(match step {
        PathStep::Operation(op) => region_of(ctx, op, number).map(|region| PathStep::Region(
            region,
        )),
        PathStep::Region(region) if region.is_live(ctx) => {
            operation_in(alloc, ctx, region, number)?.map(|op| PathStep::Operation(op))
        }
        PathStep::Region(_) => None,
    })
}

/// The region at the end of a path from an operation, if there is one. Errors: allocation failure. Cost: linear in the
/// path and in the regions on it.
pub fn region_at(
    alloc: Global,
    ctx: &Context,
    root: Ptr<Operation>,
    path: &str,
) -> Result<Option<Ptr<Region>>, AllocError>
    ensures { IfOk result (λ found. IfSome found (λ region. IsRegion ctx.now.tree region)) }
{
    let mut step = PathStep::Operation(root);
    for word in path.split('.') {
        let Ok(number) = word.parse::<usize>() else {
            return Ok(None);
        };
        let Some(next) = further(alloc, ctx, step, number)? else {
            return Ok(None);
        };
        step = next;
    }
    match step {
        PathStep::Region(region) if region.is_live(ctx) => Ok(Some(region)),
        _ => Ok(None),
    }
}
