//! Depth-first search from one root, with a stack.
ghost use Rattle.std.specs.Prelude.{◌≡◌, ◌∷◌, ◌++◌, [], false, Contains, OnOk, IsOkUnless};
ghost use Rattle.std.specs.List.{list_any};
ghost use Rattle.pliron_graph_traversal.specs.Internal.Forest.{Grew};
ghost use Rattle.pliron_graph_traversal.specs.Internal.Steps.{IsWalkStep};

use crate::{ControlFlowGraph, ListedSet};
use pliron_laws::OptError;
use std::alloc::Global;

// Takes the next successor of a node that was taken from the stack, or leaves the node where all its successors
// are done.
fn step<C, G: ControlFlowGraph<C>, S: ListedSet<G::Node>>(
    ctx: &C,
    graph: &G,
    top: (G::Node, usize),
    seen: &mut S,
    post: &mut Vec<G::Node>,
    stack: &mut Vec<(G::Node, usize)>,
) -> Result<(), OptError>
    requires lawful { G.is_lawful graph.now ctx.now }
    requires member { Contains (G.graph graph.now ctx.now).nodes top.0 }
    ensures step { OnOk result (IsWalkStep G.Node.eq (G.graph graph.now ctx.now) (stack.old.items ++ top ∷ [])
        (S.listed seen.old) post.old.items stack.new.items (S.listed seen.new) post.new.items) }
    ensures memory { IsOkUnless result OptError.Memory }
{
    let (node, i) = top;
    if i < graph.num_successors(ctx, &node) {
        stack.push((node, i + 1))?;
        let next = graph.get_successor(ctx, &node, i);
        if seen.insert(next)? {
            stack.push((next, 0))?;
        }
    } else {
        post.push(node)?;
    }
    Ok(())
}

/// Searches from `root`: adds what it finds to `seen` as it comes to it, and to `post` as it leaves it. The
/// nodes that it passes by are those of `seen`.
///
/// Asks that the graph may be read in the context and has the root, which was not seen. Errors: allocation
/// failure. Cost: a look-up in `seen` for each edge from a node that is found. Source: R. Tarjan, Depth-first
/// search and linear graph algorithms, 1972.
pub fn walk<C, G: ControlFlowGraph<C>, S: ListedSet<G::Node>>(
    alloc: Global,
    ctx: &C,
    graph: &G,
    root: G::Node,
    seen: &mut S,
    post: &mut Vec<G::Node>,
) -> Result<(), OptError>
    requires lawful { G.is_lawful graph.now ctx.now }
    requires member { Contains (G.graph graph.now ctx.now).nodes root }
    requires unseen { list_any (G.Node.eq root) (S.listed seen.old) ≡ false }
    ensures grew { OnOk result (Grew G.Node.eq (G.graph graph.now ctx.now) (root ∷ []) (S.listed seen.old)
        post.old.items (S.listed seen.new) post.new.items) }
    ensures memory { IsOkUnless result OptError.Memory }
{
    let mut stack = Vec::new(alloc);
    walk_over(ctx, graph, root, seen, post, &mut stack)
}

/// The same as [`walk`], by a stack that the caller keeps from one walk to the next, and that is empty after.
/// The stack has each node on the way from the root with the index of its next successor.
///
/// Asks what [`walk`] asks, and that the stack is empty. Errors: as [`walk`]. Cost: as [`walk`].
pub fn walk_over<C, G: ControlFlowGraph<C>, S: ListedSet<G::Node>>(
    ctx: &C,
    graph: &G,
    root: G::Node,
    seen: &mut S,
    post: &mut Vec<G::Node>,
    stack: &mut Vec<(G::Node, usize)>,
) -> Result<(), OptError>
    requires lawful { G.is_lawful graph.now ctx.now }
    requires member { Contains (G.graph graph.now ctx.now).nodes root }
    requires unseen { list_any (G.Node.eq root) (S.listed seen.old) ≡ false }
    requires empty { stack.old.items ≡ [] }
    ensures grew { OnOk result (Grew G.Node.eq (G.graph graph.now ctx.now) (root ∷ []) (S.listed seen.old)
        post.old.items (S.listed seen.new) post.new.items) }
    ensures empty { OnOk result (stack.new.items ≡ []) }
    ensures memory { IsOkUnless result OptError.Memory }
{
    seen.insert(root)?;
    stack.push((root, 0))?;
    while let Some(top) = stack.pop() {
        step(ctx, graph, top, seen, post, stack)?;
    }
    Ok(())
}
