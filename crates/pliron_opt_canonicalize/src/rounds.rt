//! Sweeps, and rounds behind each over what its folds may make fold.
ghost use Rattle.std.specs.Prelude.{◌≡◌, ◌↔◌, ◌≤◌, List, IfOk, OnOk, OnErr, IsOkUnless, length};
ghost use Rattle.pliron_core.specs.Tree.{IsLive};
ghost use Rattle.pliron_core.specs.declared.attrs.IRStatus.TheVariants.{Unchanged as IsUnchanged};
ghost use Rattle.pliron_laws.specs.Linked.{IsWellLinked};
ghost use Rattle.pliron_opt_canonicalize.specs.Counts.{foldable_count};
ghost use Rattle.pliron_opt_canonicalize.specs.Folds.{Fold, FoldInTurn, AreFolded, HasFolds, ReportsFolds};
ghost use Rattle.pliron_opt_canonicalize.specs.Sites.{AreListed, IsAmong, site_of};
ghost use Rattle.pliron_opt_canonicalize.specs.Steps.{IsFoldingOnWay, AreDone, AreDonePartly};

use crate::moved_uses::MovedUses;
use crate::sites::Site;
use crate::sweep::{fold_value, is_change, sweep, value_count};
use indexmap::IndexSet;
use pliron_core::{Context, IRStatus, Operation, Ptr, Rewriter};
use pliron_laws::{Dialect, OptError, Room};
use pliron_rewrite_operands::HasOperandFolding;
use std::alloc::Global;

// Values to be visited, each by the place of its site and its index there.
type ValuesToVisit = IndexSet<(usize, usize)>;

// The sites, of which each has its place.
fn places_of(alloc: Global, sites: &[Site]) -> Result<IndexSet<Site>, OptError>
    ensures memory { IsOkUnless result OptError.Memory }
{
    let mut places = IndexSet::with_capacity(alloc, sites.len())?;
    for site in sites {
        places.insert(*site)?;
    }
    Ok(places)
}

// The value at the site with this index is visited, if that is a site.
fn add_value(
    site: &Site,
    index: usize,
    places: &IndexSet<Site>,
    round: &mut ValuesToVisit,
) -> Result<(), OptError>
    ensures memory { IsOkUnless result OptError.Memory }
{
    if let Some(place) = places.get_index_of(site) {
        round.insert((place, index))?;
    }
    Ok(())
}

// The argument to which the operation forwards the operand at this place is visited, if the operation is a branch.
fn add_argument<D: Dialect>(
    user: Ptr<Operation>,
    operand: usize,
    ctx: &Context,
    places: &IndexSet<Site>,
    round: &mut ValuesToVisit,
) -> Result<(), OptError>
    requires { IsLive ctx.now.tree user }
    ensures memory { IsOkUnless result OptError.Memory }
{
    if !D::is_branch(user, ctx) {
        return Ok(());
    }
    let Some((edge, index)) = D::forwarded_from(user, ctx, operand) else {
        return Ok(());
    };
    if edge >= user.num_successor(ctx) {
        return Ok(());
    }
    let site = Site::Arguments(user.get_successor(ctx, edge));
    add_value(&site, index, places, round)
}

// Where the operand of the operation at this place was replaced, what may fold is visited: the operation's results,
// and the argument to which the operand is forwarded.
fn add_user<D: Dialect>(
    user: Ptr<Operation>,
    operand: usize,
    ctx: &Context,
    places: &IndexSet<Site>,
    round: &mut ValuesToVisit,
) -> Result<(), OptError>
    requires { IsLive ctx.now.tree user }
    ensures memory { IsOkUnless result OptError.Memory }
{
    for index in 0..user.num_result(ctx) {
        add_value(&Site::Results(user), index, places, round)?;
    }
    add_argument::<D>(user, operand, ctx, places, round)
}

// What the moved uses may make fold, each value once. The uses are taken.
fn next_round<D: Dialect>(
    moved: &mut MovedUses,
    places: &IndexSet<Site>,
    ctx: &Context,
) -> Result<ValuesToVisit, OptError>
    ensures memory { IsOkUnless result OptError.Memory }
{
    let mut round = IndexSet::new(moved.alloc);
    let uses = moved.take_all();
    for (user, operand) in &uses {
        if user.is_live(ctx) {
            add_user::<D>(*user, *operand, ctx, places, &mut round)?;
        }
    }
    Ok(round)
}

// The value at the site of this place with this index folds, if there is one and it is used.
fn fold_at<D: Dialect, R: Rewriter + Room>(
    moved: &mut MovedUses,
    root: Ptr<Operation>,
    sites: &[Site],
    at: (usize, usize),
    ctx: &mut Context,
    rewriter: &mut R,
) -> Result<IRStatus, OptError>
    requires live { IsLive ctx.old.tree root }
    requires linked { IsWellLinked D.meaning ctx.old.tree root }
    requires listed { AreListed ctx.old.tree root sites.now }
    ensures ok { IfOk result (λ status. AreDone ⟦<D as HasOperandFolding>⟧.operand_folding ctx.old.tree ctx.new.tree
        root (λ f. ⊥) status) }
    ensures refused { OnErr result (AreDonePartly ⟦<D as HasOperandFolding>⟧.operand_folding ctx.old.tree ctx.new.tree
        root) }
    ensures memory { IsOkUnless result OptError.Memory }
{
    ctx.well_formed();
    let (place, index) = at;
    if place >= sites.len() {
        return Ok(IRStatus::Unchanged);
    }
    let site = &sites[place];
    if index >= value_count(site, ctx) {
        return Ok(IRStatus::Unchanged);
    }
    fold_value::<D, R>(moved, root, site, index, ctx, rewriter)
}

// The values of the round fold, one after the other.
fn fold_round<D: Dialect, R: Rewriter + Room>(
    moved: &mut MovedUses,
    root: Ptr<Operation>,
    sites: &[Site],
    round: &[(usize, usize)],
    ctx: &mut Context,
    rewriter: &mut R,
) -> Result<IRStatus, OptError>
    requires live { IsLive ctx.old.tree root }
    requires linked { IsWellLinked D.meaning ctx.old.tree root }
    requires listed { AreListed ctx.old.tree root sites.now }
    ensures ok { IfOk result (λ status. AreDone ⟦<D as HasOperandFolding>⟧.operand_folding ctx.old.tree ctx.new.tree
        root (λ f. ⊥) status) }
    ensures refused { OnErr result (AreDonePartly ⟦<D as HasOperandFolding>⟧.operand_folding ctx.old.tree ctx.new.tree
        root) }
    ensures memory { IsOkUnless result OptError.Memory }
{
    ctx.well_formed();
    let mut status = IRStatus::Unchanged;
    for i in 0..round.len() {
        let folded = fold_at::<D, R>(moved, root, sites, round[i], ctx, rewriter)?;
        status |= folded;
    }
    Ok(status)
}

// Round after round over what the moved uses may make fold, until none of that does.
fn fold_rounds<D: Dialect, R: Rewriter + Room>(
    moved: &mut MovedUses,
    root: Ptr<Operation>,
    sites: &[Site],
    ctx: &mut Context,
    rewriter: &mut R,
) -> Result<IRStatus, OptError>
    requires live { IsLive ctx.old.tree root }
    requires linked { IsWellLinked D.meaning ctx.old.tree root }
    requires listed { AreListed ctx.old.tree root sites.now }
    ensures ok { IfOk result (λ status. AreDone ⟦<D as HasOperandFolding>⟧.operand_folding ctx.old.tree ctx.new.tree
        root (λ f. ⊥) status) }
    ensures refused { OnErr result (AreDonePartly ⟦<D as HasOperandFolding>⟧.operand_folding ctx.old.tree ctx.new.tree
        root) }
    ensures memory { IsOkUnless result OptError.Memory }
{
    ctx.well_formed();
    let mut status = IRStatus::Unchanged;
    let places = places_of(moved.alloc, sites)?;
    'rounds: for _ in 0..usize::MAX {
        let round = next_round::<D>(moved, &places, ctx)?;
        if round.is_empty() {
            return Ok(status);
        }
        let folded = fold_round::<D, R>(moved, root, sites, round.as_slice(), ctx, rewriter)?;
        status |= folded;
    }
    Ok(status)
}

/// One sweep over these sites, and if something folded, what that may make fold, until none of it does.
///
/// Asks that the root is live and is well linked, and that the sites are seen in it. Errors: allocation failure, after
/// some whole folds. Cost: that of the sweep, and for each use that is moved that of visiting the results of its
/// operation, or the argument to which that forwards it.
pub fn sweep_in_rounds<D: Dialect, R: Rewriter + Room>(
    moved: &mut MovedUses,
    root: Ptr<Operation>,
    sites: &[Site],
    ctx: &mut Context,
    rewriter: &mut R,
) -> Result<IRStatus, OptError>
    requires live { IsLive ctx.old.tree root }
    requires linked { IsWellLinked D.meaning ctx.old.tree root }
    requires listed { AreListed ctx.old.tree root sites.now }
    ensures ok { IfOk result (λ status. AreDone ⟦<D as HasOperandFolding>⟧.operand_folding ctx.old.tree ctx.new.tree
        root (λ f. IsAmong sites.now (length sites.now) (site_of f)) status) }
    ensures refused { OnErr result (AreDonePartly ⟦<D as HasOperandFolding>⟧.operand_folding ctx.old.tree ctx.new.tree
        root) }
    ensures memory { IsOkUnless result OptError.Memory }
{
    let swept = sweep::<D, R>(moved, root, sites, ctx, rewriter)?;
    if !is_change(swept) {
        return Ok(swept);
    }
    fold_rounds::<D, R>(moved, root, sites, ctx, rewriter)?;
    Ok(IRStatus::Changed)
}

/// Folds what is at these sites until nothing there folds.
///
/// Asks that the root is live and is well linked, and that each block that is seen in it is one of these, and each
/// operation that has operands. Errors: allocation failure, after some whole folds. Cost: that of as many sweeps in
/// rounds as lessen the count of values that may fold, and one more: of two, where the dialect reports for each operand
/// of a branch where it is forwarded to.
pub fn fold_all<D: Dialect, R: Rewriter + Room>(
    alloc: Global,
    root: Ptr<Operation>,
    sites: &[Site],
    ctx: &mut Context,
    rewriter: &mut R,
) -> Result<IRStatus, OptError>
    requires live { IsLive ctx.old.tree root }
    requires linked { IsWellLinked D.meaning ctx.old.tree root }
    requires listed { AreListed ctx.old.tree root sites.now }
    ensures way { IsFoldingOnWay D.meaning ctx.old.tree ctx.new.tree root }
    ensures folded { (fs : List Fold) × AreFolded ⟦<D as HasOperandFolding>⟧.operand_folding root fs ctx.old.tree
        ctx.new.tree × OnOk result (FoldInTurn ⟦<D as HasOperandFolding>⟧.operand_folding root fs ctx.old.tree
        ctx.new.tree) }
    ensures none { IfOk result (λ a. HasFolds ⟦<D as HasOperandFolding>⟧.operand_folding ctx.new.tree root → ⊥) }
    ensures status { IfOk result (λ a. ReportsFolds ⟦<D as HasOperandFolding>⟧.operand_folding ctx.old.tree root a) }
    ensures accurate { IfOk result (λ a. (a ≡ IsUnchanged) ↔ (ctx.new.tree ≡ ctx.old.tree)) }
    ensures fewer { IfOk result (λ a. foldable_count ctx.new.tree ≤ foldable_count ctx.old.tree) }
    ensures memory { IsOkUnless result OptError.Memory }
{
    ctx.well_formed();
    let mut status = IRStatus::Unchanged;
    let mut folds_again = true;
    let mut moved = MovedUses::new(alloc);
    while folds_again {
        let swept = sweep_in_rounds::<D, R>(&mut moved, root, sites, ctx, rewriter)?;
        folds_again = is_change(swept);
        status |= swept;
    }
    ctx.well_formed();
    Ok(status)
}
