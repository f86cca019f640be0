//! Functions that nothing names are erased.
ghost use Rattle.std.specs.Prelude.{◌≡◌, None, All, IfOk, OnErr, OnOk, length, IsOkUnless};
ghost use Rattle.pliron_core.specs.Tree.{IsLive, parent_of};
ghost use Rattle.pliron_core.specs.Invariant.{IsTree};
ghost use Rattle.pliron_core.specs.Erased.{IsSelfContained, after_erasing};
ghost use Rattle.pliron_core.specs.Walks.{children};
ghost use Rattle.pliron_graph_calls.specs.FunctionNames.{AreNamedFunctions};
ghost use Rattle.pliron_opt_symbols.specs.Kept.{symbol_reads, AreUnkept, AreUnkeptInModule};
ghost use Rattle.pliron_opt_symbols.specs.Rows.{AreAtOnePlace, AreUnlisted, IsReachedOrGone};
ghost use Rattle.pliron_opt_symbols.specs.Erasing.{erased_in_turn, AreErasableFunctions, KeepsRunsInside};

use crate::policy::SymbolPolicy;
use crate::rows::{node_of, symbol_rows};
use crate::traced::are_traced;
use pliron_core::{Context, Operation, Ptr, Rewriter};
use pliron_dialect_calls::InliningDialect;
use pliron_graph_calls::FunctionTable;
use pliron_graph_traversal::{AdjacencyList, DFSTraversal};
use pliron_laws::{OptError, Room};
use std::alloc::Global;

// The function is among these that go, if its node isn't reached.
fn push_if_unreached(
    function: Ptr<Operation>,
    place: usize,
    search: &DFSTraversal<u32>,
    gone: &mut Vec<Ptr<Operation>>,
) -> Result<(), OptError>
    ensures gone { OnOk result (IsReachedOrGone search.now.pre place function gone.old.items gone.new.items) }
    ensures memory { IsOkUnless result OptError.Memory }
{
    if search.is_reached(&node_of(place)?) {
        return Ok(());
    }
    gone.push(function)?;
    Ok(())
}

// The functions whose nodes aren't reached.
fn unreached_functions(
    alloc: Global,
    functions: &[Ptr<Operation>],
    search: &DFSTraversal<u32>,
) -> Result<Vec<Ptr<Operation>>, OptError>
    requires { AreAtOnePlace functions.now }
    ensures gone { IfOk result (λ gone. AreUnlisted functions.now search.now.pre (length functions.now) gone.items) }
    ensures memory { IsOkUnless result OptError.Memory }
{
    let mut gone = Vec::new(alloc);
    for place in 0..functions.len() {
        push_if_unreached(functions[place], place, search, &mut gone)?;
    }
    Ok(gone)
}

// The functions of the table that aren't kept.
fn unkept_among<D: InliningDialect, P: SymbolPolicy<D>>(
    alloc: Global,
    holder: Ptr<Operation>,
    table: &FunctionTable,
    policy: &P,
    ctx: &Context,
) -> Result<Vec<Ptr<Operation>>, OptError>
    requires live { IsLive ctx.now.tree holder }
    requires functions { AreNamedFunctions D.convention ctx.now.tree (children ctx.now.tree holder) table.now }
    requires all_live { All (λ f. IsLive ctx.now.tree f) table.now.functions }
    ensures unkept { IfOk result (λ gone. AreUnkept D.convention (symbol_reads D.callee (P.is_private policy.now)
        (P.is_traced policy.now)) ctx.now.tree holder gone.items) }
    ensures erasable { IfOk result (λ gone. AreErasableFunctions ctx.now.tree holder gone.items) }
    ensures memory { IsOkUnless result OptError.Memory }
{
    ctx.well_formed();
    let rows = symbol_rows::<D, P>(alloc, holder, table, policy, ctx)?;
    let Some(graph) = AdjacencyList::new(alloc, rows)? else {
        return Err(OptError::Memory);
    };
    let search = DFSTraversal::new(alloc, &(), &graph)?;
    let gone = unreached_functions(alloc, table.functions(), &search)?;
    Ok(gone)
}

// The functions directly in the operation, which is in no block, that aren't kept, where they can call nothing but
// callees.
fn unkept_in_free<D: InliningDialect, P: SymbolPolicy<D>>(
    alloc: Global,
    holder: Ptr<Operation>,
    policy: &P,
    ctx: &Context,
) -> Result<Vec<Ptr<Operation>>, OptError>
    requires live { IsLive ctx.now.tree holder }
    requires free { parent_of ctx.now.tree holder ≡ None }
    ensures unkept { IfOk result (λ gone. AreUnkeptInModule D.convention (symbol_reads D.callee
        (P.is_private policy.now) (P.is_traced policy.now)) ctx.now.tree holder gone.items) }
    ensures erasable { IfOk result (λ gone. AreErasableFunctions ctx.now.tree holder gone.items) }
    ensures memory { IsOkUnless result OptError.Memory }
{
    ctx.well_formed();
    let Some(table) = FunctionTable::of::<D>(alloc, holder, ctx)? else {
        return Ok(Vec::new(alloc));
    };
    if !are_traced::<D, P>(alloc, table.functions(), policy, ctx)? {
        return Ok(Vec::new(alloc));
    }
    let gone = unkept_among::<D, P>(alloc, holder, &table, policy, ctx)?;
    Ok(gone)
}

// The functions directly in the operation that aren't kept, where it is a module all of whose functions can call
// nothing but callees.
fn unkept_functions<D: InliningDialect, P: SymbolPolicy<D>>(
    alloc: Global,
    holder: Ptr<Operation>,
    policy: &P,
    ctx: &Context,
) -> Result<Vec<Ptr<Operation>>, OptError>
    requires { IsLive ctx.now.tree holder }
    ensures unkept { IfOk result (λ gone. AreUnkeptInModule D.convention (symbol_reads D.callee
        (P.is_private policy.now) (P.is_traced policy.now)) ctx.now.tree holder gone.items) }
    ensures erasable { IfOk result (λ gone. AreErasableFunctions ctx.now.tree holder gone.items) }
    ensures memory { IsOkUnless result OptError.Memory }
{
    match holder.get_parent_block(ctx) {
        Some(_) => Ok(Vec::new(alloc)),
        None => unkept_in_free::<D, P>(alloc, holder, policy, ctx),
    }
}

// Erases the function with its contents.
fn erase_function<R: Rewriter>(function: Ptr<Operation>, ctx: &mut Context, rewriter: &mut R)
    requires live { IsLive ctx.old.tree function }
    requires contained { IsSelfContained ctx.old.tree function }
    ensures erased { ctx.new.tree ≡ after_erasing ctx.old.tree function }
    ensures tree { IsTree ctx.new.tree }
    ensures point { R.point rewriter.new ≡ R.point rewriter.old }
{
    rewriter.erase_operation(ctx, function);
    ctx.well_formed();
}

/// Erases the functions of a module that nothing names. Those that stay are the least set which has whatever is directly
/// in the operation and is no private function, or one of which something outside uses anything, and the functions that
/// are called by name within what the set has, at any depth. So two private functions that call each other go if nothing
/// else calls them.
///
/// Nothing goes where the operation is in a block, where two functions directly in it have one name, or where an
/// operation within a function may call another function than its callee. It answers the functions that went.
///
/// Whatever it answers, runs of all roots but such with the operation's own head are kept. So are linked runs in each
/// program that has the module, where the names by which other modules and the world call stand for what is left.
///
/// Asks that the operation is live (`is_live` tests it). Errors: allocation failure, which changes nothing, also where
/// there are more functions than numbers of 32 bits. Cost: linear in the module, and for each use of a value or a block
/// of a private function as many steps as the user is deep.
pub fn symbol_dce<D: InliningDialect, P: SymbolPolicy<D>, R: Rewriter + Room>(
    alloc: Global,
    holder: Ptr<Operation>,
    policy: &P,
    ctx: &mut Context,
    rewriter: &mut R,
) -> Result<Vec<Ptr<Operation>>, OptError>
    requires { IsLive ctx.old.tree holder }
    ensures gone { IfOk result (λ gone. AreUnkeptInModule D.convention (symbol_reads D.callee
        (P.is_private policy.now) (P.is_traced policy.now)) ctx.old.tree holder gone.items) }
    ensures erased { IfOk result (λ gone. ctx.new.tree ≡ erased_in_turn ctx.old.tree gone.items) }
    ensures refused { OnErr result (ctx.new ≡ ctx.old) }
    ensures kept { KeepsRunsInside D.meaning D.convention ctx.old.tree ctx.new.tree holder }
    ensures liveness { IsLive ctx.new.tree holder }
    ensures memory { IsOkUnless result OptError.Memory }
    ensures point { R.point rewriter.new ≡ R.point rewriter.old }
{
    ctx.well_formed();
    let gone = unkept_functions::<D, P>(alloc, holder, policy, ctx)?;
    if gone.is_empty() {
        return Ok(gone);
    }
    rewriter.room(alloc, gone.len())?;
    for function in &gone {
        erase_function(*function, ctx, rewriter);
    }
    Ok(gone)
}
