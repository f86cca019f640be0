//! Texts over several lines, in one: `|` stands for the end of a line.
use pliron_show_places::pretty;
use std::alloc::{AllocError, Global};
use std::process::Abort;

/// The text with an end of a line for each `|`.
pub fn with_lines(alloc: Global, text: &str) -> Result<String, AllocError> {
    let mut lines = String::new(alloc);
    for letter in text.chars() {
        lines.push(if letter == '|' { '\n' } else { letter })?;
    }
    Ok(lines)
}

fn expect_lines(rt: &impl Abort, alloc: Global, text: &str, lines: &str) {
    let wanted = with_lines(alloc, lines).expect(rt, "memory");
    let laid = pretty(alloc, text.as_bytes()).expect(rt, "memory");
    assert!(rt; laid.as_slice() == wanted.as_bytes());
}

/// Texts, and how they are laid out.
static LAYOUTS: &str = "\
func { b0(): ret } => func {|b0():|  ret|}
func { b0(v0): v1 = const 5; br b1(v1, v0); b1(v2, v3): ret v2 } => func {|b0(v0):|  v1 = const 5;|  br b1(v1, v0);|b1(v2, v3):|  ret v2|}
func { b0(): scope v0 { b0(): ret }; ret } => func {|b0():|  scope v0 {|  b0():|    ret|  };|  ret|}
mod { b0(): func { b0(): ret }; func { b0(): ret } } => mod {|b0():|  func {|  b0():|    ret|  };|  func {|  b0():|    ret|  }|}
mod { } => mod {|}
func { b0(): } => func {|b0():|}
  func  {  b0():ret  } => func {|b0():|  ret|}";

#[test]
fn texts_are_laid_out(rt: HostRuntime) {
    for case in LAYOUTS.lines() {
        let (text, lines) = case.split_once(" => ").expect(&rt, "a case");
        expect_lines(&rt, rt.alloc(), text, lines);
    }
}
