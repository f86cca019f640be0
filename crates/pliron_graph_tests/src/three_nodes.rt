//! All graphs of three nodes with rising successors: numberings against a recursive search, components against
//! mutual reach and a search by lowest numbers, all in tables that `tools/expected` makes.
ghost use Rattle.pliron_graph_traversal.specs.Adjacency.{AreInverse};

use crate::cases::{graph_of, rows_of};
use crate::component_table::COMPONENTS;
use crate::numbering_table::NUMBERINGS;
use crate::texts::{push, push_labels};
use pliron_graph_components::{
    AdjacencyList, DFSTraversal, OrderIter, Scc, post_order_by_component, sccs_in_topological_order,
};
use std::alloc::Global;
use std::process::Abort;

/// The lists of successors.
static SETS: &str = ";0;1;0 1;2;0 2;1 2;0 1 2";

fn push_order(rt: &impl Abort, alloc: Global, nodes: OrderIter<'_, u32>, text: &mut String) {
    for node in nodes {
        push_labels(rt, alloc, &(), &[node], "", text);
    }
    push(rt, text, ":");
}

// The walks, each closed by a point.
fn push_walks(rt: &impl Abort, alloc: Global, walks: &[Vec<u32>], text: &mut String) {
    for walk in walks {
        push_labels(rt, alloc, &(), walk, "", text);
        push(rt, text, ".");
    }
}

// The nodes that node 0 reaches in both orders, each closed by a colon, and the walks.
fn push_numbering(rt: &impl Abort, alloc: Global, graph: &AdjacencyList, text: &mut String)
    requires { AreInverse graph.now }
{
    let search = DFSTraversal::new(alloc, &(), graph).expect(rt, "memory");
    push_order(rt, alloc, search.pre_order(), text);
    push_order(rt, alloc, search.post_order(), text);
    let walks = post_order_by_component(alloc, &(), graph).expect(rt, "memory");
    push_walks(rt, alloc, &walks, text);
}

// The components, each closed by a point, after a star where it is cyclic.
fn push_components(rt: &impl Abort, alloc: Global, components: &[Scc<u32>], text: &mut String) {
    for component in components {
        push_labels(rt, alloc, &(), &component.nodes, "", text);
        push(rt, text, if component.is_cyclic { "*." } else { "." });
    }
}

/// What a table is of.
#[derive(Clone, Copy)]
enum Table {
    Numberings,
    Components,
}

fn push_item(rt: &impl Abort, alloc: Global, table: Table, rows: &str, text: &mut String) {
    let graph = graph_of(rt, alloc, rows_of(rt, alloc, rows));
    match table {
        Table::Numberings => push_numbering(rt, alloc, &graph, text),
        Table::Components => {
            let components = sccs_in_topological_order(alloc, &(), &graph).expect(rt, "memory");
            push_components(rt, alloc, &components, text);
        }
    }
}

// The line for this pair of lists of successors of the nodes 0 and 1, which is its name, with an item for each list of
// node 2.
fn line_of(rt: &impl Abort, alloc: Global, table: Table, pair: &str) -> String {
    let mut line = String::new(alloc);
    push(rt, &mut line, pair);
    push(rt, &mut line, " --");
    for third in SETS.split(';') {
        push(rt, &mut line, " ");
        let rows = format!(in alloc; "{pair};{third};").expect(rt, "memory");
        push_item(rt, alloc, table, &rows, &mut line);
    }
    line
}

fn check_line(rt: &impl Abort, alloc: Global, table: Table, pair: &str, want: &str) {
    let line = line_of(rt, alloc, table, pair);
    assert_eq!(rt; line.as_str(), want);
}

fn check_table(rt: &impl Abort, alloc: Global, table: Table, lines: &str) {
    let mut wanted = lines.lines();
    for first in SETS.split(';') {
        for second in SETS.split(';') {
            let pair = format!(in alloc; "{first};{second}").expect(rt, "memory");
            check_line(
                rt,
                alloc,
                table,
                &pair,
                wanted.next().expect(rt, "a line for each pair"),
            );
        }
    }
}

#[test]
fn graphs_of_three_nodes(rt: HostRuntime) {
    check_table(&rt, rt.alloc(), Table::Numberings, NUMBERINGS);
    check_table(&rt, rt.alloc(), Table::Components, COMPONENTS);
}
