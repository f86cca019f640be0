//! Where operations are in texts, in which `|` stands for the end of a line.
use crate::diagnostics::lines::with_lines;
use pliron_show_places::{operation_places, parts_of};
use std::alloc::Global;
use std::process::Abort;

fn expect_places(rt: &impl Abort, alloc: Global, text: &str, wanted: &str) {
    let lines = with_lines(alloc, text).expect(rt, "memory");
    let parts = parts_of(alloc, lines.as_bytes()).expect(rt, "memory");
    let places = operation_places(alloc, lines.as_bytes(), &parts).expect(rt, "memory");
    let mut reported = String::new(alloc);
    for place in &places {
        let place = *place;
        let (line, column, len) = (place.line, place.column, place.len);
        let one = format!(in alloc; "{line}:{column}+{len} ").expect(rt, "memory");
        reported.push_str(one.as_str()).expect(rt, "memory");
    }
    assert!(rt; reported.trim_end() == wanted, "{text} => {reported}");
}

/// Texts, and line, column and length of each operation.
static PLACES: &str = "\
func { b0(): ret } => 1:1+4 1:14+3
func {|b0(x):|  y = const 1;|  br b1 (y) ;|b1 (z):|  ret z|}| => 1:1+4 3:3+11 4:3+9 6:3+5
mod { b0(): func { b0(): ret }; func{b0():ret} } => 1:1+3 1:13+4 1:26+3 1:33+4 1:43+3
func { b0(): scope x { b0(v): scope { b0(): ret } ; ret v }; ret } => 1:1+4 1:14+7 1:31+5 1:45+3 1:53+5 1:62+3
mod { } => 1:1+3
||  func { b0(): | | c = const 1; ret } => 3:3+4 5:2+11 5:15+3";

#[test]
fn operations_have_places(rt: HostRuntime) {
    for case in PLACES.lines() {
        let (text, wanted) = case.split_once(" => ").expect(&rt, "a case");
        expect_places(&rt, rt.alloc(), text, wanted);
    }
}
