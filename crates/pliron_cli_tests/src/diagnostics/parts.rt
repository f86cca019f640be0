//! Comments, parts of texts by paths, and reports in the forms for editors, worked by hand. `|` stands for the end of a
//! line.
use crate::diagnostics::lines::with_lines;
use crate::lines::in_one_line;
use pliron_show_places::{
    MessageForm, blank_comments, in_form, isolate, operation_range, without_mark,
};
use std::alloc::Global;
use std::process::Abort;

/// Texts, and the same without their comments, where `.` stands for a blank.
static COMMENTS: &str = "\
ret x => ret.x
// all => ......
a; // b|c => a;.....|c
a // b // c|//d|e => a..........|...|e
a / b => a./.b
a /|/ b => a./|/.b
///|a => ...|a
a;// => a;..";

#[test]
fn comments_are_blanks(rt: HostRuntime) {
    for case in COMMENTS.lines() {
        let (text, wanted) = case.split_once(" => ").expect(&rt, "a case");
        let lines = with_lines(rt.alloc(), text).expect(&rt, "memory");
        let blank = blank_comments(rt.alloc(), lines.as_bytes()).expect(&rt, "memory");
        let found = in_one_line(rt.alloc(), &blank).expect(&rt, "memory");
        let mut dotted = String::new(rt.alloc());
        for letter in found.chars() {
            dotted
                .push(if letter == ' ' { '.' } else { letter })
                .expect(&rt, "memory");
        }
        assert!(rt; dotted.as_str() == wanted, "{text} => {dotted}");
    }
}

#[test]
fn a_mark_is_no_text(rt: HostRuntime) {
    assert!(rt; without_mark(b"\xef\xbb\xbfret") == b"ret".as_slice());
    assert!(rt; without_mark(b"ret") == b"ret".as_slice());
}

/// A text of two functions and what is in them.
static TWO: &str =
    "mod { m(): func { f(a): s = const 1; scope a { t(): ret }; ret s }; func { g(x): br h(x); h(y): ret y } }";

/// Paths, and what is at their ends.
static PARTS: &str = "\
0 => mod { m(): func { f(a): s = const 1; scope a { t(): ret }; ret s }; func { g(x): br h(x); h(y): ret y } }
0.0 => func { f(a): s = const 1; scope a { t(): ret }; ret s }
0.1 => func { g(x): br h(x); h(y): ret y }
0.1.0 => func { g(x): br h(x); h(y): ret y }
0.0.0.0 => s = const 1
0.0.0.1 => scope a { t(): ret }
0.0.0.1.0.0 => ret
0.0.0.2 => ret s
0.1.0.1 => ret y";

fn expect_part(rt: &impl Abort, alloc: Global, path: &str, wanted: &str) {
    let part = operation_range(TWO.as_bytes(), path).expect(rt, "a part");
    let whole = isolate(alloc, TWO.as_bytes(), part).expect(rt, "memory");
    let text = std::str::from_utf8(&whole).unwrap_or("");
    assert!(rt; text.len() == TWO.len(), "{path}");
    assert!(rt; text.trim() == wanted, "{path} => {text}");
    assert!(rt;
        text.len() - text.trim_start().len() == part.start,
        "{path} => {text}"
    );
}

#[test]
fn parts_are_at_paths(rt: HostRuntime) {
    for case in PARTS.lines() {
        let (path, wanted) = case.split_once(" => ").expect(&rt, "a case");
        expect_part(&rt, rt.alloc(), path, wanted);
    }
    for path in [
        "",
        "1",
        "0.2",
        "0.0.1",
        "0.0.0.3",
        "0.0.0.0.0.0",
        "0.x",
        "0..0",
    ] {
        assert!(rt; operation_range(TWO.as_bytes(), path).is_none(), "{path}");
    }
}

/// Reports, and the same in the short form and as JSON.
static FORMS: &str = "\
error: refused: memory was refused| => error: refused: memory was refused| => {'severity':'error','message':'refused: memory was refused'}|
error: unreadable text| --> in:2:19|  !|2 ! b0(): x|  !       ^^^ expected `;`| => in:2:19: error: unreadable text: expected `;`| => {'severity':'error','message':'unreadable text','file':'in','line':2,'column':19,'endLine':2,'endColumn':22,'label':'expected `;`'}|
warning: a| --> a:b:1:2|  !|1 ! x|  ! ^|help: h|note: n| --> a:b:3:4|  !|3 ! y|  ! ^| => a:b:1:2: warning: a|a:b:3:4: note: n| => {'severity':'warning','message':'a','file':'a:b','line':1,'column':2,'endLine':1,'endColumn':3,'help':'h'}|{'severity':'note','message':'n','file':'a:b','line':3,'column':4,'endLine':3,'endColumn':5}|
round  pass|    1  dce| => round  pass|    1  dce| => round  pass|    1  dce|";

// The text with an end of a line for each `|`, a bar for each `!`, and a quote for each `'`.
fn with_signs(rt: &impl Abort, alloc: Global, text: &str) -> String {
    let mut lines = String::new(alloc);
    for letter in text.chars() {
        let letter = match letter {
            '|' => '\n',
            '!' => '|',
            '\'' => '"',
            _ => letter,
        };
        lines.push(letter).expect(rt, "memory");
    }
    lines
}

#[test]
fn messages_have_forms(rt: HostRuntime) {
    for case in FORMS.lines() {
        let (report, rest) = case.split_once(" => ").expect(&rt, "a case");
        let (short, json) = rest.split_once(" => ").expect(&rt, "a case");
        let report = with_signs(&rt, rt.alloc(), report);
        for (form, wanted) in [(MessageForm::Short, short), (MessageForm::Json, json)] {
            let wanted = with_signs(&rt, rt.alloc(), wanted);
            let found = in_form(rt.alloc(), report.as_str(), form).expect(&rt, "memory");
            assert!(rt; found.as_str() == wanted.as_str(), "{case} => {found}");
        }
        let full = in_form(rt.alloc(), report.as_str(), MessageForm::Full).expect(&rt, "memory");
        assert!(rt; full.as_str() == report.as_str());
    }
}
