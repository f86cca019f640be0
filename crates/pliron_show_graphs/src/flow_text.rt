//! The control flow of a text's region.
ghost use Rattle.std.specs.Prelude.{◌≡◌, IfOk, IsTrue};
ghost use Rattle.pliron_core.specs.Tree.{IsRegion};
ghost use Rattle.pliron_core.specs.Writes.{no_tree};
ghost use Rattle.pliron_graph_traversal.specs.Regions.{IsLawfulRegion};
ghost use Rattle.pliron_show_graphs.specs.Drawn.{IsDrawing};

use crate::flow_picture::{FlowOptions, flow_picture};
use crate::region_path::region_at;
use pliron_core::{Context, Ptr, Region};
use pliron_laws::{OptError, edges_last};
use pliron_show::ShownNotation;
use std::alloc::Global;

/// The result of drawing a text.
#[derive(Drop)]
pub enum Drawing {
    /// The picture, in the dot language.
    Drawn(Vec<u8>),
    /// The text is outside the notation.
    Unreadable,
    /// No region has the path.
    NoRegion,
}

// Whether the graph of the region may be read. Asks that it is live (`is_live` tests it). Cost: that of `edges_last`.
pub(crate) fn may_be_read(ctx: &Context, region: Ptr<Region>) -> bool
    requires { IsRegion ctx.now.tree region }
    ensures { IsTrue result → IsLawfulRegion ctx.now.tree region }
{
    ctx.well_formed();
    edges_last(region.get_parent_op(ctx), ctx)
}

// The picture of the region that is asked for, in this empty context.
fn flow_in<N: ShownNotation>(
    alloc: Global,
    text: &[u8],
    options: &FlowOptions,
    ctx: &mut Context,
) -> Result<Drawing, OptError>
    requires { ctx.old.tree ≡ no_tree }
    ensures { IfOk result (IsDrawing N.reads text.now) }
{
    let Some(root) = N::read(alloc, text, ctx)? else {
        return Ok(Drawing::Unreadable);
    };
    let Some(region) = region_at(alloc, ctx, root, options.region)? else {
        return Ok(Drawing::NoRegion);
    };
    if !may_be_read(ctx, region) {
        return Ok(Drawing::NoRegion);
    }
    let picture = flow_picture::<N>(alloc, text, ctx, region, options)?;
    Ok(Drawing::Drawn(picture))
}

/// The picture of a region of a text's operation in the dot language. It has the blocks with their operations; the
/// edges with forwarded values, and with true and false at a two-way branch; two lines around the entry; and unreached
/// blocks in grey. Where asked for, also a dotted edge from each immediate dominator, blocks by their heads alone, the
/// regions inside in frames, and a title.
///
/// Errors: allocation failure. Cost: reading, and that of `graph_rows`.
pub fn text_flow<N: ShownNotation>(
    alloc: Global,
    text: &[u8],
    options: &FlowOptions,
) -> Result<Drawing, OptError>
    ensures { IfOk result (IsDrawing N.reads text.now) }
{
    let mut ctx = Context::new(alloc);
    flow_in::<N>(alloc, text, options, &mut ctx)
}
