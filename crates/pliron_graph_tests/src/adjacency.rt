//! Worked graphs by adjacency lists, and their reverse. The answers were worked out by hand or by a recursive
//! search in another language.
use crate::cases::{case_of, check_answer, graph_of, question_of, rows_of};
use crate::dominance::{lists, worked};
use crate::texts::answer;
use pliron_graph_components::AdjacencyList;
use std::alloc::Global;
use std::process::Abort;

static GRAPHS: &str = "\
orders, nested loops -- orders: 1 5;2 4;3 6;4 2;5 1;;3; => [5 4 3 6 2 1 0] / [0 1 2 6 3 4 5] / 5 4 3 6 2 1 0 / 0 1 \
    2 6 3 4 5
orders, a loop and an unreached node -- orders: 1 2;3;4;;2;3; => [3 1 4 2 0][5] / [0 2 4 1 3][5] / 3 1 4 2 0 5 / 0 \
    2 4 1 3 5
orders, an edge to the first node -- orders: ;0; => [0][1] / [0][1] / 0 1 / 0 1
orders, no nodes -- orders:  =>  /  /  /
orders, a diamond in a loop -- orders: 1 2;3;3;0 3; => [3 1 2 0] / [0 2 1 3] / 3 1 2 0 / 0 2 1 3
orders, parallel edges -- orders: 1 1 0 1;0 1 2 2;; => [2 1 0] / [0 1 2] / 2 1 0 / 0 1 2
orders, a chain -- orders: 1;2;; => [2 1 0] / [0 1 2] / 2 1 0 / 0 1 2
orders, a diamond -- orders: 1 2;3;3;; => [3 1 2 0] / [0 2 1 3] / 3 1 2 0 / 0 2 1 3
orders, a ring and a node -- orders: 1;2;0;; => [2 1 0][3] / [0 1 2][3] / 2 1 0 3 / 0 1 2 3
orders, three parts -- orders: 1;;3;;; => [1 0][3 2][4] / [0 1][2 3][4] / 1 0 3 2 4 / 0 1 2 3 4
orders, a ring that leads to a ring -- orders: 2;0 3;0 4;1;; => [4 2 0][3 1] / [0 2 4][1 3] / 4 2 0 3 1 / 0 2 4 1 3
searches, nested loops -- searches: 1 5;2 4;3 6;4 2;5 1;;3; => 0 1 2 3 4 5 6 / 5 4 3 6 2 1 0 / 0 1 2 6 3 4 5 / \
    0=0/6/0 1=1/5/1 2=2/4/2 3=3/2/4 4=4/1/5 5=5/0/6 6=6/3/3
searches, a loop and an unreached node -- searches: 1 2;3;4;;2;3; => 0 1 3 2 4 / 3 1 4 2 0 / 0 2 4 1 3 / 0=0/4/0 \
    1=1/1/3 2=3/3/1 3=2/0/4 4=4/2/2 5=-
searches, an edge to the first node -- searches: ;0; => 0 / 0 / 0 / 0=0/0/0 1=-
searches, no nodes -- searches:  =>  /  /  /
searches, a diamond in a loop -- searches: 1 2;3;3;0 3; => 0 1 3 2 / 3 1 2 0 / 0 2 1 3 / 0=0/3/0 1=1/1/2 2=3/2/1 \
    3=2/0/3
searches, parallel edges -- searches: 1 1 0 1;0 1 2 2;; => 0 1 2 / 2 1 0 / 0 1 2 / 0=0/2/0 1=1/1/1 2=2/0/2
searches, a ring that leads to a ring -- searches: 2;0 3;0 4;1;; => 0 2 4 / 4 2 0 / 0 2 4 / 0=0/2/0 1=- 2=1/1/1 \
    3=- 4=2/0/2
edges, nested loops -- edges: 1 5;2 4;3 6;4 2;5 1;;3; => 0>1:Forward 0>5:Forward 1>2:Forward 1>4:Forward \
    2>3:Forward 2>6:Forward 3>4:Forward 3>2:Back 4>5:Forward 4>1:Back 6>3:Cross
edges, a loop and an unreached node -- edges: 1 2;3;4;;2;3; => 0>1:Forward 0>2:Forward 1>3:Forward 2>4:Forward \
    4>2:Back
edges, an edge to the first node -- edges: ;0; =>
edges, no nodes -- edges:  =>
edges, a diamond in a loop -- edges: 1 2;3;3;0 3; => 0>1:Forward 0>2:Forward 1>3:Forward 2>3:Cross 3>0:Back 3>3:Back
edges, parallel edges -- edges: 1 1 0 1;0 1 2 2;; => 0>1:Forward 0>1:Forward 0>0:Back 0>1:Forward 1>0:Back \
    1>1:Back 1>2:Forward 1>2:Forward
edges, a ring that leads to a ring -- edges: 2;0 3;0 4;1;; => 0>2:Forward 2>0:Back 2>4:Forward
components, nested loops -- components: 1 5;2 4;3 6;4 2;5 1;;3; => [0] [6 4 3 2 1]* [5]
components, a loop and an unreached node -- components: 1 2;3;4;;2;3; => [5] [0] [4 2]* [1] [3]
components, an edge to the first node -- components: ;0; => [1] [0]
components, a chain and a ring -- components: 1;;3;2; => [3 2]* [0] [1]
components, no nodes -- components:  =>
components, a chain -- components: 1;2;; => [0] [1] [2]
components, a ring with an exit -- components: 1;2 3;1;; => [0] [2 1]* [3]
components, a node that leads to itself -- components: 1;1 2;; => [0] [1]* [2]
components, a ring in a ring -- components: 1;2;3;1 2 4;; => [0] [3 2 1]* [4]
components, a ring that leads to a ring -- components: 2;0 3;0 4;1;; => [3 1]* [2 0]* [4]
neighbours, parallel edges and loops -- neighbours: 1 1 0;1 0; => 0 1>0>1 1 0, 0 1>1>1 0
neighbours, a loop and an unreached node -- neighbours: 1 2;3;4;;2;3; => >0>1 2, 0>1>3, 0 4>2>4, 1 5>3>, 2>4>2, >5>3
indices, parallel edges and loops -- indices: 1 1 0;1 0; => 0 1>0>1 1 0, 0 1>1>1 0
entry, parallel edges and loops -- entry: 1 1 0;1 0; => 0
entry, no nodes -- entry:  => none";

static REVERSED: &str = "\
reverse pre-sentinels, a loop and an unreached node -- reverse pre-sentinels: 1 2;3;4;;2;3; => 4 3
reverse pre-sentinels, nested loops -- reverse pre-sentinels: 1 5;2 4;3 6;4 2;5 1;;3; => 5
reverse pre-sentinels, an edge to the first node -- reverse pre-sentinels: ;0; => 0
reverse pre-sentinels, no nodes -- reverse pre-sentinels:  =>
reverse pre-sentinels, nodes that lead to themselves -- reverse pre-sentinels: 0;1; => 1 0
reverse pre-sentinels, a ring that leads to a ring -- reverse pre-sentinels: 2;0 3;0 4;1;; => 4
reverse neighbours, a loop and an unreached node -- reverse neighbours: 1 2;3;4;;2;3; => >sentinel>4 3, 1 2>0>, \
    3>1>0, 4>2>0 4, sentinel>3>1 5, 2 sentinel>4>2, 3>5>
reverse neighbours, nested loops -- reverse neighbours: 1 5;2 4;3 6;4 2;5 1;;3; => >sentinel>5, 1 5>0>, 2 4>1>0 4, \
    3 6>2>1 3, 4 2>3>2 6, 5 1>4>1 3, sentinel>5>0 4, 3>6>2
reverse neighbours, an edge to the first node -- reverse neighbours: ;0; => >sentinel>0, sentinel>0>1, 0>1>
reverse neighbours, no nodes -- reverse neighbours:  => >sentinel>
reverse indices, a loop and an unreached node -- reverse indices: 1 2;3;4;;2;3; => >sentinel>4 3, 1 2>0>, 3>1>0, \
    4>2>0 4, sentinel>3>1 5, 2 sentinel>4>2, 3>5>
reverse entry, a loop and an unreached node -- reverse entry: 1 2;3;4;;2;3; => sentinel
reverse entry, no nodes -- reverse entry:  => sentinel
reverse orders, a loop and an unreached node -- reverse orders: 1 2;3;4;;2;3; => [0 2 4 1 5 3 sentinel] / \
    [sentinel 3 5 1 4 2 0] / 0 2 4 1 5 3 sentinel / sentinel 3 5 1 4 2 0
reverse searches, a loop and an unreached node -- reverse searches: 1 2;3;4;;2;3; => sentinel 4 2 0 3 1 5 / 0 2 4 \
    1 5 3 sentinel / sentinel 3 5 1 4 2 0 / sentinel=0/6/0 0=3/0/6 1=5/3/3 2=2/1/5 3=4/5/1 4=1/2/4 5=6/4/2
reverse edges, a loop and an unreached node -- reverse edges: 1 2;3;4;;2;3; => sentinel>4:Forward \
    sentinel>3:Forward 1>0:Cross 2>0:Forward 2>4:Back 3>1:Forward 3>5:Forward 4>2:Forward
reverse components, a loop and an unreached node -- reverse components: 1 2;3;4;;2;3; => [sentinel] [3] [5] [1] [2 \
    4]* [0]";

fn check_case(rt: &impl Abort, alloc: Global, line: &str) {
    let case = case_of(rt, line);
    let (what, rows) = question_of(rt, &case);
    let graph = graph_of(rt, alloc, rows_of(rt, alloc, rows));
    check_answer(rt, &case, &answer(rt, alloc, &(), &graph, what));
}

#[test]
fn worked_graphs(rt: HostRuntime) {
    for table in [
        GRAPHS,
        REVERSED,
        worked::FORWARDS,
        worked::BACKWARDS,
        lists::FORWARDS,
        lists::BACKWARDS,
    ] {
        for line in table.lines() {
            check_case(&rt, rt.alloc(), line);
        }
    }
}

#[test]
fn successor_without_a_row(rt: HostRuntime) {
    let rows = rows_of(&rt, rt.alloc(), "1;");
    let graph = AdjacencyList::new(rt.alloc(), rows).expect(&rt, "memory");
    assert!(rt; graph.is_none());
}
