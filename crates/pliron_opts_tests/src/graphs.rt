//! Texts of graphs.
use crate::texts::{Case, expect_run, owned, with_lines};
use pliron_driver::plir_run;
use std::alloc::Global;
use std::process::Abort;

// The program has written this of the graph, or that it is unreadable. `|` stands for the end of a line.
fn expect_graph(rt: &impl Abort, alloc: Global, name: &str, text: &str, written: Option<&str>) {
    let bytes = with_lines(rt, alloc, text);
    let case = Case {
        name,
        args: &["graph"],
        text: bytes.as_slice(),
        failing_read: 0,
        failing_write: 0,
    };
    match written {
        Some(written) => expect_run(rt, alloc, &case, 0, written, ""),
        None => expect_run(rt, alloc, &case, 2, "", "unreadable text|"),
    }
}

/// Names, graphs, and what is written of them.
static GRAPHS: &str = "\
nested loops -- 0: 1 5|1: 2 4|2: 3 6|3: 4 2|4: 5 1|5:|6: 3| => post-order: [5 4 3 6 2 1 0]|topological: [0 1 2 6 3 \
    4 5]|numbers: 0=0/6 1=1/5 2=2/4 3=3/2 4=4/1 5=5/0 6=6/3|edges: 0>1:Forward 0>5:Forward 1>2:Forward 1>4:Forward \
    2>3:Forward 2>6:Forward 3>4:Forward 3>2:Back 4>5:Forward 4>1:Back 6>3:Cross|components: [0] [6 4 3 2 1]* \
    [5]|pre-sentinels: 5|
a loop and an unreached node -- 0: 1 2|1: 3|2: 4|3:|4: 2|5: 3 => post-order: [3 1 4 2 0] [5]|topological: [0 2 4 1 \
    3] [5]|numbers: 0=0/4 1=1/1 3=2/0 2=3/3 4=4/2|edges: 0>1:Forward 0>2:Forward 1>3:Forward 2>4:Forward \
    4>2:Back|components: [5] [0] [4 2]* [1] [3]|pre-sentinels: 4 3|
an edge to the first node -- 0:|1: 0| => post-order: [0] [1]|topological: [0] [1]|numbers: \
    0=0/0|edges:|components: [1] [0]|pre-sentinels: 0|
no nodes --  => post-order:|topological:|numbers:|edges:|components:|pre-sentinels:|
parallel edges between the greatest label and 7 -- 7: 4294967295 7 4294967295|4294967295: 7| => post-order: \
    [4294967295 7]|topological: [7 4294967295]|numbers: 7=0/1 4294967295=1/0|edges: 7>4294967295:Forward 7>7:Back \
    7>4294967295:Forward 4294967295>7:Back|components: [4294967295 7]*|pre-sentinels: 4294967295|
a ring that leads to a ring -- 0: 2|1: 0 3|2: 0 4|3: 1|4:| => post-order: [4 2 0] [3 1]|topological: [0 2 4] [1 \
    3]|numbers: 0=0/2 2=1/1 4=2/0|edges: 0>2:Forward 2>0:Back 2>4:Forward|components: [3 1]* [2 0]* \
    [4]|pre-sentinels: 4|";

fn check_worked(rt: &impl Abort, alloc: Global, line: &str) {
    let (name, row) = line.split_once(" -- ").expect(rt, "a name");
    let (text, written) = row.split_once(" => ").expect(rt, "a case");
    expect_graph(rt, alloc, name, text, Some(written));
}

#[test]
fn worked_graphs(rt: HostRuntime) {
    for line in GRAPHS.lines() {
        check_worked(&rt, rt.alloc(), line);
    }
}

/// The last node of a long chain.
const LAST: u32 = 65_535;

// A chain of nodes from 0 on.
fn chain(rt: &impl Abort, alloc: Global) -> String {
    let mut text = String::new(alloc);
    for node in 0..LAST {
        let next = node.saturating_add(1);
        write!(text, "{node}: {next}|").expect(rt, "memory");
    }
    write!(text, "{LAST}:").expect(rt, "memory");
    text
}

// Adds both orders of the chain, which are one walk and its reverse.
fn push_orders(rt: &impl Abort, written: &mut String) {
    write!(written, "post-order: [{LAST}").expect(rt, "memory");
    for before in 0..LAST {
        let node = (LAST - 1).saturating_sub(before);
        write!(written, " {node}").expect(rt, "memory");
    }
    write!(written, "]|topological: [0").expect(rt, "memory");
    for before in 0..LAST {
        let node = before.saturating_add(1);
        write!(written, " {node}").expect(rt, "memory");
    }
    write!(written, "]|").expect(rt, "memory");
}

// Adds the numbers of the search, and the edges.
fn push_search(rt: &impl Abort, written: &mut String) {
    write!(written, "numbers:").expect(rt, "memory");
    for node in 0..65_536u32 {
        let post = LAST.saturating_sub(node);
        write!(written, " {node}={node}/{post}").expect(rt, "memory");
    }
    write!(written, "|edges:").expect(rt, "memory");
    for node in 0..LAST {
        let next = node.saturating_add(1);
        write!(written, " {node}>{next}:Forward").expect(rt, "memory");
    }
}

// Adds the components, each a node.
fn push_components(rt: &impl Abort, written: &mut String) {
    write!(written, "|components:").expect(rt, "memory");
    for node in 0..65_536u32 {
        write!(written, " [{node}]").expect(rt, "memory");
    }
    write!(written, "|pre-sentinels: {LAST}|").expect(rt, "memory");
}

// What is written of the text of a graph.
fn written_of(rt: &impl Abort, alloc: Global, text: &[u8]) -> Vec<u8> {
    let words = owned(rt, alloc, &["graph"]);
    let mut input = text;
    let mut output: Vec<u8> = Vec::new(alloc);
    let mut errors: Vec<u8> = Vec::new(alloc);
    let status = plir_run(alloc, &words, &mut input, &mut output, &mut errors);
    assert!(rt; status == 0);
    assert!(rt; errors.is_empty());
    output
}

#[test]
fn a_long_chain(rt: HostRuntime) {
    let alloc = rt.alloc();
    let text = chain(&rt, alloc);
    let bytes = with_lines(&rt, alloc, &text);
    let output = written_of(&rt, alloc, &bytes);
    let mut written = String::new(alloc);
    push_orders(&rt, &mut written);
    push_search(&rt, &mut written);
    push_components(&rt, &mut written);
    assert!(rt; output == with_lines(&rt, alloc, &written));
}

/// Names and texts that cannot be read.
static UNREADABLE: &str = "\
an empty line -- |
no colon -- 0
a blank before the colon -- 0 :
no blank behind the colon -- 0:1
a blank behind the colon alone -- 0:\x20
two blanks behind the colon -- 0:  0
a blank behind the last label -- 0: 0\x20
a label that has no line -- 0: 1
a label with two lines -- 0:|0:
two zeros before the colon -- 00:
two zeros behind the colon -- 0: 00
0 before a label -- 01:
a sign before the colon -- -0:
a plus sign before the colon -- +0:
a label above 32 bits -- 4294967296:
an empty line behind the first -- 0:||
a return at the end of a line -- 0:\r|
a blank before the label --  0:
a letter before the colon -- a:
a letter behind the colon -- 0: a
a semicolon -- 0;
a tab behind the colon -- 0:\t0
a label of the last line that has no line -- 0:|1: 2|";

fn check_unreadable(rt: &impl Abort, alloc: Global, line: &str) {
    let (name, text) = line.split_once(" -- ").expect(rt, "a name");
    expect_graph(rt, alloc, name, text, None);
}

#[test]
fn unreadable_graphs(rt: HostRuntime) {
    for line in UNREADABLE.lines() {
        check_unreadable(&rt, rt.alloc(), line);
    }
}
