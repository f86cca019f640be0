//! The control flow of texts as pictures, worked by hand.
use pliron_show_commands::{BenchNotation, FlowOptions, Outcome, Source, draw_flow};
use std::alloc::Global;
use std::process::Abort;

/// What each picture of a flow begins with, and what it ends with.
static HEAD: &str =
    "digraph flow {\n  node [shape=\"box\", fontname=\"monospace\"];\n  edge [fontname=\"monospace\"];\n";

/// What one of blocks alone begins with.
static SMALL_HEAD: &str =
    "digraph flow {\n  node [shape=\"box\", fontname=\"monospace\", height=\"0.25\", \
    margin=\"0.06\"];\n  edge [fontname=\"monospace\"];\n";

static END: &str = "}\n";

fn draw_region(rt: &impl Abort, alloc: Global, region: &str, text: &str) -> Outcome {
    let source = Source {
        name: "text",
        text: text.as_bytes(),
    };
    let options = FlowOptions {
        region: region
            .trim_start_matches('!')
            .trim_start_matches('+')
            .trim_start_matches('-'),
        dominators: region.starts_with('!'),
        blocks_alone: region.starts_with('-'),
        nested: region.starts_with('+'),
        title: if region.starts_with('-') { "T" } else { "" },
    };
    draw_flow::<BenchNotation>(alloc, &source, &options).expect(rt, "memory")
}

// The picture: its head, and its lines in order, each behind a bar, where `'` stands for a quote and `/` for a
// backslash.
fn lines_of(rt: &impl Abort, alloc: Global, head: &str, lines: &str) -> String {
    let mut text = String::from_str(alloc, head).expect(rt, "memory");
    for line in lines.split('|') {
        text.push_str("  ").expect(rt, "memory");
        for letter in line.chars() {
            let letter = match letter {
                '\'' => '"',
                '/' => '\\',
                _ => letter,
            };
            text.push(letter).expect(rt, "memory");
        }
        let is_brace = line.ends_with('{') || line == "}";
        text.push_str(if is_brace { "\n" } else { ";\n" })
            .expect(rt, "memory");
    }
    text.push_str(END).expect(rt, "memory");
    text
}

/// Paths, behind `!` where dominators are drawn, behind `+` where the regions inside are, behind `-` where blocks are
/// drawn alone under a title; texts; and their pictures.
static PICTURES: &str = "\
0 => func { b0(): ret } => 0 [label='b0():/lret/l', peripheries='2']
0 => func { a(x): br  b( x ) ; b(y): ret  y } => 0 [label='a(x):/lbr b( x )/l', peripheries='2']|1 [label='b(y):/lret y/l']|0 -> 1 [label=' x ']
!0 => func { a(c): cbr c b(c) d(); b(y): br d(); d(): ret } => 0 [label='a(c):/lcbr c b(c) d()/l', \
    peripheries='2']|1 [label='b(y):/lbr d()/l']|2 [label='d():/lret/l']|0 -> 1 [label=' true: c ']|0 -> 2 \
    [label=' false ']|1 -> 2|0 -> 1 [style='dotted', color='blue', constraint='false']|0 -> 2 [style='dotted', \
    color='blue', constraint='false']
0 => func { a(): ret; lost(): x = const 1; br a() } => 0 [label='a():/lret/l', peripheries='2']|1 [label='lost():/lx = const 1/lbr a()/l', color='grey', fontcolor='grey']|1 -> 0 [color='grey', fontcolor='grey']
0 => mod { m(): func { f(): ret }; func { g(): ret } } => 0 [label='m():/lfunc { 0.0.0 }/lfunc { 0.1.0 }/l', peripheries='2']
0.1.0 => mod { m(): func { f(): ret }; func { g(): ret } } => 2 [label='g():/lret/l', peripheries='2']
-0 => func { a(x): br b(x); b(y): ret y } => graph [label='T', labelloc='t', fontname='monospace']|0 [label='a(x)', \
    peripheries='2']|1 [label='b(y)']|0 -> 1 [label=' x ']
+0 => mod { m(): func { f(): box { b(): ret }; ret }; func { g(): ret } } => 0 [label='m():/lfunc { 0.0.0 \
    }/lfunc { 0.1.0 }/l', peripheries='2']|subgraph cluster0 {|graph [label='0.0.0', labelloc='t', \
    fontname='monospace']|1 [label='f():/lbox { 0.0.0.0.0 }/lret/l', peripheries='2']|subgraph cluster1 {|graph \
    [label='0.0.0.0.0', labelloc='t', fontname='monospace']|2 [label='b():/lret/l', peripheries='2']|}|}|subgraph \
    cluster2 {|graph [label='0.1.0', labelloc='t', fontname='monospace']|3 [label='g():/lret/l', peripheries='2']|}";

#[test]
fn flows_are_drawn(rt: HostRuntime) {
    for case in PICTURES.lines() {
        let (region, rest) = case.split_once(" => ").expect(&rt, "a case");
        let (text, lines) = rest.split_once(" => ").expect(&rt, "a case");
        let outcome = draw_region(&rt, rt.alloc(), region, text);
        let head = if region.starts_with('-') {
            SMALL_HEAD
        } else {
            HEAD
        };
        let wanted = lines_of(&rt, rt.alloc(), head, lines);
        assert_eq!(rt;
            std::str::from_utf8(&outcome.output).unwrap_or(""),
            wanted.as_str(),
            "{}",
            outcome.report
        );
        assert_eq!(rt; outcome.status, 0);
    }
}

/// Paths and texts of which there is no picture, and what is reported.
static FAULTS: &str = "\
0 => func { b0(): ret => error: unreadable text
1 => func { b0(): ret } => error: no region `1`
0.0 => func { b0(): ret } => error: no region `0.0`
0.0.0 => func { b0(): ret } => error: no region `0.0.0`
0.x.0 => func { b0(): ret } => error: no region `0.x.0`";

#[test]
fn faults_are_reported(rt: HostRuntime) {
    for case in FAULTS.lines() {
        let (region, rest) = case.split_once(" => ").expect(&rt, "a case");
        let (text, reported) = rest.split_once(" => ").expect(&rt, "a case");
        let outcome = draw_region(&rt, rt.alloc(), region, text);
        assert!(rt; outcome.output.is_empty());
        assert_eq!(rt; outcome.status, 2);
        assert_eq!(rt; outcome.report.lines().next(), Some(reported));
    }
}
