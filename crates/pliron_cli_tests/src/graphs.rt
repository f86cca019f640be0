//! Graphs as pictures, worked by hand: the search takes successors by index, and components come in topological order.
use pliron_show_commands::{Source, draw_graph};
use std::alloc::Global;
use std::process::Abort;

/// Texts, where a bar stands for the end of a line, and the lines of their pictures but the first two and the last,
/// where a bar separates lines and `'` stands for a quote.
static PICTURES: &str = "\
3: => 3 [peripheries='2'];
1: 2|2: 1 3|3: 1|4: 3 => 4 [color='grey', fontcolor='grey'];|subgraph cluster0 {|1 [peripheries='2'];|2;|3;|}|1 -> 2 [color='black'];|2 -> 1 [color='red'];|2 -> 3 [color='black'];|3 -> 1 [color='red'];|4 -> 3 [color='grey', fontcolor='grey'];
1: 2 3|2: 4|3: 4|4: => 1 [peripheries='2'];|3;|2;|4;|1 -> 2 [color='black'];|1 -> 3 [color='black'];|2 -> 4 [color='black'];|3 -> 4 [color='blue'];
7: 7 8|8: => subgraph cluster0 {|7 [peripheries='2'];|}|8;|7 -> 7 [color='red'];|7 -> 8 [color='black'];";

// The text with an end of a line for each bar, and a quote for each `'`.
fn with_lines(rt: &impl Abort, alloc: Global, text: &str, begin: &str) -> String {
    let mut lines = String::new(alloc);
    for line in text.split('|') {
        lines.push_str(begin).expect(rt, "memory");
        for letter in line.chars() {
            let letter = if letter == '\'' { '"' } else { letter };
            lines.push(letter).expect(rt, "memory");
        }
        lines.push_str("\n").expect(rt, "memory");
    }
    lines
}

#[test]
fn graphs_are_drawn(rt: HostRuntime) {
    for case in PICTURES.lines() {
        let (text, lines) = case.split_once(" => ").expect(&rt, "a case");
        let text = with_lines(&rt, rt.alloc(), text, "");
        let source = Source {
            name: "text",
            text: text.as_bytes(),
        };
        let outcome = draw_graph(rt.alloc(), &source).expect(&rt, "memory");
        let mut wanted = String::from_str(
            rt.alloc(),
            "digraph numbers {\n  node [shape=\"circle\"];\n",
        )
        .expect(&rt, "memory");
        wanted
            .push_str(&with_lines(&rt, rt.alloc(), lines, "  "))
            .expect(&rt, "memory");
        wanted.push_str("}\n").expect(&rt, "memory");
        assert_eq!(rt;
            std::str::from_utf8(&outcome.output).unwrap_or(""),
            wanted.as_str()
        );
        assert_eq!(rt; outcome.status, 0);
    }
}

/// Texts that are no graphs, with line, column and what was expected there.
static FAULTS: &str = "\
1: 2 => 1:4 a node that has a line
1:|1: => 2:1 a node that has no line before
x => 1:1 a number of 32 bits without leading zeros
01: => 1:1 a number of 32 bits without leading zeros
1 2 => 1:2 `:`
1:2|2: => 1:3 one blank and a number, or the end of the line
1:  2|2: => 1:4 a number of 32 bits without leading zeros
1: 2|2: 4294967296 => 2:4 a number of 32 bits without leading zeros";

#[test]
fn other_texts_are_no_graphs(rt: HostRuntime) {
    for case in FAULTS.lines() {
        let (text, wanted) = case.split_once(" => ").expect(&rt, "a case");
        let (place, expected) = wanted.split_once(' ').expect(&rt, "a place");
        let text = with_lines(&rt, rt.alloc(), text, "");
        let source = Source {
            name: "text",
            text: text.as_bytes(),
        };
        let outcome = draw_graph(rt.alloc(), &source).expect(&rt, "memory");
        assert!(rt; outcome.output.is_empty());
        assert_eq!(rt; outcome.status, 2);
        let reported = outcome.report.as_str();
        assert!(rt; reported.starts_with("error: unreadable graph\n"));
        let second = reported.lines().nth(1).unwrap_or("");
        let found = second.split_once("--> text:").unwrap_or(("", "")).1;
        assert!(rt; found == place, "{case} => {reported}");
        assert!(rt; reported.contains(expected), "{case} => {reported}");
    }
}
