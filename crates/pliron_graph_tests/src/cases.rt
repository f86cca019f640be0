//! How cases are read: a line `NAME -- ASKED => ANSWER`. A graph is the successors of its nodes 0, 1, 2, .., each list closed by a semicolon.
ghost use Rattle.pliron_graph_traversal.specs.Adjacency.{AreInverse};

use pliron_graph_components::AdjacencyList;
use std::alloc::Global;
use std::process::Abort;

/// A case of a table.
#[derive(Clone, Copy)]
pub struct Case<'t> {
    /// What a failure prints.
    pub name: &'t str,
    /// A graph, behind a word and a colon for what is asked of it where the table asks for more than one thing.
    pub asked: &'t str,
    /// The answer.
    pub want: &'t str,
}

/// The case of a line.
pub fn case_of<'t>(rt: &impl Abort, line: &'t str) -> Case<'t> {
    let (name, case) = line.split_once(" -- ").expect(rt, "a name");
    let (asked, answer) = case.split_once(" =>").expect(rt, "a case");
    Case {
        name,
        asked,
        want: answer.trim(),
    }
}

/// Fails with the name of the case where the answer is another than it wants.
pub fn check_answer(rt: &impl Abort, case: &Case, answer: &str) {
    assert_eq!(rt; answer.trim(), case.want, "{}", case.name);
}

/// What the case asks, and of which graph.
pub fn question_of<'t>(rt: &impl Abort, case: &Case<'t>) -> (&'t str, &'t str) {
    case.asked.split_once(": ").expect(rt, "a question")
}

// The numbers of a list.
fn row_of(rt: &impl Abort, alloc: Global, words: &str) -> Vec<u32> {
    let mut row = Vec::new(alloc);
    for word in words.split_ascii_whitespace() {
        let number = word.parse::<u32>().ok().expect(rt, "a number");
        row.push(number).expect(rt, "memory");
    }
    row
}

/// The lists of successors of a graph.
pub fn rows_of(rt: &impl Abort, alloc: Global, text: &str) -> Vec<Vec<u32>> {
    let mut rows = Vec::new(alloc);
    for words in text.split(';') {
        rows.push(row_of(rt, alloc, words)).expect(rt, "memory");
    }
    rows.pop();
    rows
}

/// The graph with these rows of successors.
pub fn graph_of(rt: &impl Abort, alloc: Global, rows: Vec<Vec<u32>>) -> AdjacencyList
    ensures { AreInverse result }
{
    let graph = AdjacencyList::new(alloc, rows).expect(rt, "memory");
    graph.expect(rt, "a row for each successor")
}
