//! Deep and wide graphs of 20,000 nodes.
use crate::cases::{case_of, check_answer, graph_of};
use pliron_graph_dominance::DominatorTree;
use std::alloc::Global;
use std::process::Abort;

static COUNT: u32 = 20_000;

// The second successor of a node of a shape, whose first one is the next node.
fn second_of(shape: &str, node: u32, next: u32) -> Option<u32> {
    match shape {
        "exits" => Some(COUNT - 1),
        "backs" => Some(node.saturating_sub(1)),
        "skips" if next < COUNT - 1 => Some(next.saturating_add(1)),
        _ => None,
    }
}

fn row_of(rt: &impl Abort, alloc: Global, shape: &str, node: u32) -> Vec<u32> {
    let mut row = Vec::new(alloc);
    let next = node.saturating_add(1);
    if next < COUNT {
        row.push(next).expect(rt, "memory");
        if let Some(second) = second_of(shape, node, next) {
            row.push(second).expect(rt, "memory");
        }
    }
    row
}

fn shape_of(rt: &impl Abort, alloc: Global, shape: &str) -> DominatorTree<u32> {
    let mut rows = Vec::new(alloc);
    for node in 0..COUNT {
        rows.push(row_of(rt, alloc, shape, node))
            .expect(rt, "memory");
    }
    let graph = graph_of(rt, alloc, rows);
    DominatorTree::new(alloc, &(), &graph).expect(rt, "memory")
}

fn child_count(tree: &DominatorTree<u32>, node: u32) -> u32 {
    let mut count = 0_u32;
    if tree.is_reached(&node) {
        for _ in tree.children(&node) {
            count = count.saturating_add(1);
        }
    }
    count
}

fn dominator_count(tree: &DominatorTree<u32>, node: u32) -> u32 {
    let mut count = 0_u32;
    if tree.is_reached(&node) {
        for _ in tree.dominators(&node) {
            count = count.saturating_add(1);
        }
    }
    count
}

// What is said of node 10,000 and of the last.
fn said_of(rt: &impl Abort, alloc: Global, tree: &DominatorTree<u32>) -> String {
    let (middle, last) = (10_000_u32, COUNT - 1);
    assert!(rt; tree.is_reached(&middle));
    assert!(rt; tree.is_reached(&last));
    let above = tree.immediate_dominator(&middle);
    let above_last = tree.immediate_dominator(&last);
    let common = tree.nearest_common_dominator(&middle, &last);
    let children = child_count(tree, 0);
    let dominators = dominator_count(tree, last);
    format!(in alloc; "{above:?} {above_last:?} {common} {children} {dominators}").expect(
        rt, "memory",
    )
}

/// Shapes; the immediate dominators of node 10,000 and of the last, their nearest common one, how many children the
/// entry has, and how many dominators the last.
static SHAPES: &str = "\
a chain -- chain => Some(9999) Some(19998) 10000 1 20000
a chain with exits -- exits => Some(9999) Some(0) 0 2 2
a ladder of back edges -- backs => Some(9999) Some(19998) 10000 1 20000
edges over the next -- skips => Some(0) Some(0) 0 19999 2";

fn check_shape(rt: &impl Abort, alloc: Global, line: &str) {
    let case = case_of(rt, line);
    let tree = shape_of(rt, alloc, case.asked);
    check_answer(rt, &case, &said_of(rt, alloc, &tree));
}

#[test]
fn large_shapes(rt: HostRuntime) {
    for line in SHAPES.lines() {
        check_shape(&rt, rt.alloc(), line);
    }
}
