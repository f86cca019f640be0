//! How many parts an operation has.
ghost use Rattle.std.specs.Prelude.{◌≡◌, Some, map, length, slice_index_or, IfOk};
ghost use Rattle.pliron_core.specs.Tree.{IsLive, IsRegion, regions_of, successors_of};
ghost use Rattle.pliron_laws.specs.Tree.{Operation as OperationRecord, op_at, shape_of, entry_block, block_at, count_arguments};
ghost use Rattle.std.specs.Option.{option_map};
ghost use Rattle.pliron_laws.specs.Answers.{ReadsShape};
ghost use Rattle.pliron_dialect.specs.Roles.{role_at, allows_at, meaning_by};
ghost use Rattle.pliron_role_runs.specs.RoleRuns.{shape_by};

use pliron_core::{Context, Operation, Ptr, Region};
use pliron_dialect::{ByRoles, Roles};
use pliron_laws::Dialect;
use std::alloc::{AllocError, Global};

/// What a move may depend on beside head, memo and input.
#[derive(Debug, Drop)]
pub struct Counts {
    pub operands: usize,
    pub results: usize,
    pub successors: usize,
    /// How many arguments the entry block of each region has.
    pub entry_arguments: Vec<usize>,
    /// How many arguments each successor has; nothing of a branch.
    pub target_arguments: Option<Vec<usize>>,
}

impl Counts {
    /// How many arguments the entry block of the region with this index has, 0 if there is none. Cost: constant.
    pub fn entry_argument(&self, region: usize) -> usize
        ensures { result ≡ slice_index_or self.now.entry_arguments.items region 0 }
    {
        if region < self.entry_arguments.len() {
            self.entry_arguments[region]
        } else {
            0
        }
    }
}

// How many arguments the entry block of the region has, 0 if there is none.
fn num_region_argument(ctx: &Context, region: Ptr<Region>) -> usize
    requires { IsRegion ctx.now.tree region }
    ensures { result ≡ count_arguments (entry_block ctx.now.tree region) }
{
    match region.get_head(ctx) {
        Some(block) => block.num_argument(ctx),
        None => 0,
    }
}

// How many arguments the entry block of each region has.
fn all_entry_arguments(
    alloc: Global,
    op: Ptr<Operation>,
    ctx: &Context,
) -> Result<Vec<usize>, AllocError>
    requires { IsLive ctx.now.tree op }
    ensures { IfOk result (λ counts. counts.items ≡ map (λ r. count_arguments (entry_block ctx.now.tree r))
        (regions_of ctx.now.tree op)) }
{
    let mut counts = Vec::new(alloc);
    for i in 0..op.num_region(ctx) {
        counts.push(num_region_argument(ctx, op.get_region(ctx, i)))?;
    }
    Ok(counts)
}

// How many arguments each successor has.
fn all_target_arguments(
    alloc: Global,
    op: Ptr<Operation>,
    ctx: &Context,
) -> Result<Vec<usize>, AllocError>
    requires { IsLive ctx.now.tree op }
    ensures { IfOk result (λ counts. counts.items ≡ map (λ b. count_arguments (block_at ctx.now.tree b))
        (successors_of ctx.now.tree op)) }
{
    let mut counts = Vec::new(alloc);
    for i in 0..op.num_successor(ctx) {
        counts.push(op.get_successor(ctx, i).num_argument(ctx))?;
    }
    Ok(counts)
}

// The same, but nothing of a branch.
fn target_arguments_at<K: Roles>(
    alloc: Global,
    op: Ptr<Operation>,
    ctx: &Context,
) -> Result<Option<Vec<usize>>, AllocError>
    requires { IsLive ctx.now.tree op }
    ensures { IfOk result (λ counts. ReadsShape (meaning_by K.tables.value (role_at K.tables) (allows_at K.tables))
        (λ s. s.target_arguments) ctx.now.tree op (option_map (λ each. each.items) counts)) }
{
    if ByRoles::<K>::is_branch(op, ctx) {
        Ok(None)
    } else {
        Ok(Some(all_target_arguments(alloc, op, ctx)?))
    }
}

/// The counts of an operation. Asks that it is live (`is_live` tests it). Errors: allocation failure. Cost: the number
/// of its regions and successors.
pub fn counts_at<K: Roles>(
    alloc: Global,
    op: Ptr<Operation>,
    ctx: &Context,
) -> Result<Counts, AllocError>
    requires { IsLive ctx.now.tree op }
    ensures { IfOk result (λ counts. (o : OperationRecord) → op_at ctx.now.tree op ≡ Some o → shape_by o.head counts ≡
        shape_of (meaning_by K.tables.value (role_at K.tables) (allows_at K.tables)) ctx.now.tree o) }
{
    let entry_arguments = all_entry_arguments(alloc, op, ctx)?;
    let target_arguments = target_arguments_at::<K>(alloc, op, ctx)?;
    Ok(Counts {
        operands: op.num_operand(ctx),
        results: op.num_result(ctx),
        successors: op.num_successor(ctx),
        entry_arguments,
        target_arguments,
    })
}
