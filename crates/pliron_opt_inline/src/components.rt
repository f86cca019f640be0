//! Which functions call one another.
ghost use Rattle.std.specs.Prelude.{◌≡◌, ℕ, All, IfOk, IsOkUnless, map};
ghost use Rattle.pliron_core.specs.Tree.{IsLive};
ghost use Rattle.pliron_graph_calls.specs.Names.{names_of};
ghost use Rattle.pliron_opt_inline.specs.CallGraph.{AreCallees, AreCalleeRows, AreCallComponents};

use pliron_core::{Context, Operation, Ptr};
use pliron_dialect_calls::InliningDialect;
use pliron_graph_calls::FunctionTable;
use pliron_graph_components::{Scc, sccs_in_topological_order};
use pliron_graph_traversal::AdjacencyList;
use pliron_laws::OptError;
use std::alloc::Global;

// The places of what the function calls.
fn callees_of<D: InliningDialect>(
    alloc: Global,
    table: &FunctionTable,
    function: Ptr<Operation>,
    ctx: &Context,
) -> Result<Vec<u32>, OptError>
    requires { IsLive ctx.now.tree function }
    ensures callees { IfOk result (λ places. AreCallees D.callee ctx.now.tree (names_of table.now.names) function
        places.items) }
    ensures memory { IsOkUnless result OptError.Memory }
{
    let sites = table.call_sites::<D>(alloc, function, ctx)?;
    let mut places = Vec::new(alloc);
    for site in &sites {
        let Ok(place) = u32::try_from(site.callee) else {
            return Err(OptError::Memory);
        };
        places.push(place)?;
    }
    Ok(places)
}

// The places of what each function calls.
fn callee_rows<D: InliningDialect>(
    alloc: Global,
    table: &FunctionTable,
    ctx: &Context,
) -> Result<Vec<Vec<u32>>, OptError>
    requires { All (λ f. IsLive ctx.now.tree f) table.now.functions }
    ensures rows { IfOk result (λ rows. AreCalleeRows D.callee ctx.now.tree (names_of table.now.names)
        table.now.functions (map (λ r. r.items) rows.items)) }
    ensures memory { IsOkUnless result OptError.Memory }
{
    let mut rows = Vec::new(alloc);
    for function in table.functions() {
        rows.push(callees_of::<D>(alloc, table, *function, ctx)?)?;
    }
    Ok(rows)
}

/// The strongly connected components of the graph of calls: its nodes are the places of the functions of the table, with an
/// edge to each function that is called by name directly inside. Two functions share a component exactly if each calls the
/// other, over others or at once. Callers come before what they call, in other components (`edge_between_components`), so
/// inlining goes through the list from its end.
///
/// Asks that the functions are live. Errors: allocation failure, also for more functions than there are numbers of 32 bits.
/// Cost: linear in the operations directly inside the functions and in the names that they call, and a sort of each
/// component. Source: that of `sccs_in_topological_order`.
pub fn call_components<D: InliningDialect>(
    alloc: Global,
    table: &FunctionTable,
    ctx: &Context,
) -> Result<Vec<Scc<u32>>, OptError>
    requires { All (λ f. IsLive ctx.now.tree f) table.now.functions }
    ensures components { IfOk result (λ found. AreCallComponents D.callee ctx.now.tree (names_of table.now.names)
        table.now.functions found.items) }
    ensures memory { IsOkUnless result OptError.Memory }
{
    let rows = callee_rows::<D>(alloc, table, ctx)?;
    let Some(graph) = AdjacencyList::new(alloc, rows)? else {
        return Err(OptError::Memory);
    };
    sccs_in_topological_order(alloc, &(), &graph)
}
