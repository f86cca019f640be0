//! What calls what in a module, as a graph: node 0 is all that is kept anyway, and the others are the functions.
ghost use Rattle.std.specs.Prelude.{◌≡◌, ◌↔◌, ◌⊎◌, ℕ, suc, map, All, Contains, IfOk, OnOk, IsOkUnless, IsTrue, length};
ghost use Rattle.pliron_core.specs.Tree.{IsLive};
ghost use Rattle.pliron_core.specs.Walks.{children};
ghost use Rattle.pliron_graph_calls.specs.Names.{names_of};
ghost use Rattle.pliron_graph_calls.specs.Namesakes.{HasNamesakes};
ghost use Rattle.pliron_graph_calls.specs.FunctionNames.{AreNamedFunctions};
ghost use Rattle.pliron_opt_symbols.specs.Kept.{symbol_reads};
ghost use Rattle.pliron_opt_symbols.specs.Rows.{IsCalleeNode, IsNodeCalledIn, IsNodeCalledBeside, IsAlone, IsStayingNode, AreSorted, Gets, MayGet, OfOne, AreCallRows};

use crate::policy::SymbolPolicy;
use crate::within::{all_directly_in, all_within};
use pliron_core::{Context, Operation, Ptr};
use pliron_dialect_calls::InliningDialect;
use pliron_graph_calls::FunctionTable;
use pliron_laws::OptError;
use std::alloc::Global;

// The node of the function at this place. Errors: it has no number of 32 bits.
pub(crate) fn node_of(place: usize) -> Result<u32, OptError>
    ensures node { IfOk result (λ node. node ≡ suc place) }
    ensures memory { IsOkUnless result OptError.Memory }
{
    match u32::try_from(place.saturating_add(1)) {
        Ok(node) => Ok(node),
        Err(_) => Err(OptError::Memory),
    }
}

// Adds the node of the function that the operation calls, if it is one of the table.
fn push_callee<D: InliningDialect>(
    table: &FunctionTable,
    op: Ptr<Operation>,
    ctx: &Context,
    row: &mut Vec<u32>,
) -> Result<(), OptError>
    requires live { IsLive ctx.now.tree op }
    requires no_namesakes { HasNamesakes (names_of table.now.names) → ⊥ }
    ensures row { OnOk result (Gets row.old.items row.new.items (IsCalleeNode D.callee ctx.now.tree
        (names_of table.now.names) op)) }
    ensures memory { IsOkUnless result OptError.Memory }
{
    let Some(name) = D::callee_name(op, ctx) else {
        return Ok(());
    };
    let Some(place) = table.find(name)? else {
        return Ok(());
    };
    row.push(node_of(place)?)?;
    Ok(())
}

// Adds those of the functions that are called within the operation.
fn push_callees_in<D: InliningDialect>(
    alloc: Global,
    table: &FunctionTable,
    op: Ptr<Operation>,
    ctx: &Context,
    row: &mut Vec<u32>,
) -> Result<(), OptError>
    requires live { IsLive ctx.now.tree op }
    requires no_namesakes { HasNamesakes (names_of table.now.names) → ⊥ }
    ensures row { OnOk result (Gets row.old.items row.new.items (IsNodeCalledIn D.callee ctx.now.tree
        (names_of table.now.names) op)) }
    ensures memory { IsOkUnless result OptError.Memory }
{
    let ops = all_within(alloc, op, ctx)?;
    for inner in &ops {
        push_callee::<D>(table, *inner, ctx, row)?;
    }
    Ok(())
}

// The nodes of the functions that are called in this one.
fn callee_row<D: InliningDialect>(
    alloc: Global,
    table: &FunctionTable,
    function: Ptr<Operation>,
    ctx: &Context,
) -> Result<Vec<u32>, OptError>
    requires live { IsLive ctx.now.tree function }
    requires no_namesakes { HasNamesakes (names_of table.now.names) → ⊥ }
    ensures row { IfOk result (λ row. (v : ℕ) → Contains row.items v ↔ IsNodeCalledIn D.callee ctx.now.tree
        (names_of table.now.names) function v) }
    ensures memory { IsOkUnless result OptError.Memory }
{
    let mut row = Vec::new(alloc);
    push_callees_in::<D>(alloc, table, function, ctx, &mut row)?;
    Ok(row)
}

// Adds those of the functions that are called in the operation, where it is no function.
fn push_callees_of_other<D: InliningDialect>(
    alloc: Global,
    table: &FunctionTable,
    op: Ptr<Operation>,
    ctx: &Context,
    row: &mut Vec<u32>,
) -> Result<(), OptError>
    requires live { IsLive ctx.now.tree op }
    requires no_namesakes { HasNamesakes (names_of table.now.names) → ⊥ }
    ensures row { OnOk result (Gets row.old.items row.new.items (IsNodeCalledBeside D.convention D.callee ctx.now.tree
        (names_of table.now.names) op)) }
    ensures memory { IsOkUnless result OptError.Memory }
{
    match D::symbol_name(op, ctx) {
        Some(_) => return Ok(()),
        None => push_callees_in::<D>(alloc, table, op, ctx, row)?,
    }
    Ok(())
}

// Adds those of the functions that are called in what is no function.
fn push_callees_beside<D: InliningDialect>(
    alloc: Global,
    table: &FunctionTable,
    holder: Ptr<Operation>,
    ctx: &Context,
    row: &mut Vec<u32>,
) -> Result<(), OptError>
    requires live { IsLive ctx.now.tree holder }
    requires no_namesakes { HasNamesakes (names_of table.now.names) → ⊥ }
    ensures row { OnOk result (Gets row.old.items row.new.items (OfOne (children ctx.now.tree holder)
        (IsNodeCalledBeside D.convention D.callee ctx.now.tree (names_of table.now.names)))) }
    ensures memory { IsOkUnless result OptError.Memory }
{
    let items = all_directly_in(alloc, holder, ctx)?;
    for item in &items {
        push_callees_of_other::<D>(alloc, table, *item, ctx, row)?;
    }
    Ok(())
}

// Whether the function is private, and nothing outside uses anything of it.
fn is_alone<D: InliningDialect, P: SymbolPolicy<D>>(
    function: Ptr<Operation>,
    policy: &P,
    ctx: &Context,
) -> bool
    requires { IsLive ctx.now.tree function }
    ensures { IsTrue result ↔ IsAlone (symbol_reads D.callee (P.is_private policy.now) (P.is_traced policy.now))
        ctx.now.tree function }
{
    if policy.is_private(function, ctx) {
        function.is_self_contained(ctx)
    } else {
        false
    }
}

// Adds the node of the function, which is at this place, if it isn't such.
fn push_if_staying<D: InliningDialect, P: SymbolPolicy<D>>(
    function: Ptr<Operation>,
    place: usize,
    policy: &P,
    ctx: &Context,
    row: &mut Vec<u32>,
) -> Result<(), OptError>
    requires { IsLive ctx.now.tree function }
    ensures row { OnOk result (MayGet (IsAlone (symbol_reads D.callee (P.is_private policy.now)
        (P.is_traced policy.now)) ctx.now.tree function) place row.old.items row.new.items) }
    ensures memory { IsOkUnless result OptError.Memory }
{
    if is_alone::<D, P>(function, policy, ctx) {
        return Ok(());
    }
    row.push(node_of(place)?)?;
    Ok(())
}

// Adds the nodes of the functions that aren't such.
fn push_staying<D: InliningDialect, P: SymbolPolicy<D>>(
    table: &FunctionTable,
    policy: &P,
    ctx: &Context,
    row: &mut Vec<u32>,
) -> Result<(), OptError>
    requires { All (λ f. IsLive ctx.now.tree f) table.now.functions }
    ensures row { OnOk result (Gets row.old.items row.new.items (IsStayingNode (symbol_reads D.callee
        (P.is_private policy.now) (P.is_traced policy.now)) ctx.now.tree table.now.functions)) }
    ensures sorted { OnOk result (AreSorted (symbol_reads D.callee (P.is_private policy.now)
        (P.is_traced policy.now)) ctx.now.tree table.now.functions (length table.now.functions) row.new.items) }
    ensures memory { IsOkUnless result OptError.Memory }
{
    let functions = table.functions();
    for place in 0..functions.len() {
        push_if_staying::<D, P>(functions[place], place, policy, ctx, row)?;
    }
    Ok(())
}

// The nodes of what is kept anyway.
fn kept_row<D: InliningDialect, P: SymbolPolicy<D>>(
    alloc: Global,
    holder: Ptr<Operation>,
    table: &FunctionTable,
    policy: &P,
    ctx: &Context,
) -> Result<Vec<u32>, OptError>
    requires live { IsLive ctx.now.tree holder }
    requires no_namesakes { HasNamesakes (names_of table.now.names) → ⊥ }
    requires all_live { All (λ f. IsLive ctx.now.tree f) table.now.functions }
    ensures row { IfOk result (λ row. (v : ℕ) → Contains row.items v ↔ (OfOne (children ctx.now.tree holder)
        (IsNodeCalledBeside D.convention D.callee ctx.now.tree (names_of table.now.names)) v
        ⊎ IsStayingNode (symbol_reads D.callee (P.is_private policy.now) (P.is_traced policy.now)) ctx.now.tree
        table.now.functions v)) }
    ensures sorted { IfOk result (λ row. AreSorted (symbol_reads D.callee (P.is_private policy.now)
        (P.is_traced policy.now)) ctx.now.tree table.now.functions (length table.now.functions) row.items) }
    ensures memory { IsOkUnless result OptError.Memory }
{
    let mut row = Vec::new(alloc);
    push_callees_beside::<D>(alloc, table, holder, ctx, &mut row)?;
    push_staying::<D, P>(table, policy, ctx, &mut row)?;
    Ok(row)
}

// What each node leads to.
pub(crate) fn symbol_rows<D: InliningDialect, P: SymbolPolicy<D>>(
    alloc: Global,
    holder: Ptr<Operation>,
    table: &FunctionTable,
    policy: &P,
    ctx: &Context,
) -> Result<Vec<Vec<u32>>, OptError>
    requires live { IsLive ctx.now.tree holder }
    requires functions { AreNamedFunctions D.convention ctx.now.tree (children ctx.now.tree holder) table.now }
    requires all_live { All (λ f. IsLive ctx.now.tree f) table.now.functions }
    ensures rows { IfOk result (λ rows. AreCallRows D.convention (symbol_reads D.callee (P.is_private policy.now)
        (P.is_traced policy.now)) ctx.now.tree holder table.now.functions (names_of table.now.names)
        (map (λ r. r.items) rows.items)) }
    ensures memory { IsOkUnless result OptError.Memory }
{
    let mut rows = Vec::new(alloc);
    rows.push(kept_row::<D, P>(alloc, holder, table, policy, ctx)?)?;
    for function in table.functions() {
        rows.push(callee_row::<D>(alloc, table, *function, ctx)?)?;
    }
    Ok(rows)
}
