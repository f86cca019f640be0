//! Where a text isn't that of a graph.
ghost use Rattle.std.specs.Prelude.{IfOk, string_bytes};
ghost use Rattle.pliron_show_commands.specs.Reports.{FaultsGraph};

use pliron_show_places::{Source, SourceMark, mark_source};
use std::alloc::{AllocError, Global};
use std::collections::HashMap;

/// A place at which the text of a graph is wrong, and what was expected there.
#[derive(Clone, Copy, Debug, Drop, PartialEq, Eq)]
struct GraphFault {
    start: usize,
    len: usize,
    expected: &'static str,
}

/// A number in the text.
#[derive(Clone, Copy)]
struct Numeral {
    value: u32,
    start: usize,
    len: usize,
}

/// The numbers of a text of a graph: those of its nodes, and those of their successors.
#[derive(Drop)]
struct Numerals {
    nodes: Vec<Numeral>,
    successors: Vec<Numeral>,
}

// How many digits the text has from a place on.
fn digits_at(text: &[u8], start: usize) -> usize {
    let rest = text.get(start..).unwrap_or(b"");
    rest.iter()
        .position(|byte| !byte.is_ascii_digit())
        .unwrap_or(rest.len())
}

// The number at this place, without a leading zero unless it is 0.
fn numeral_at(text: &[u8], start: usize) -> Option<Numeral> {
    let len = digits_at(text, start);
    let digits = text.get(start..)?.get(..len)?;
    if len == 0 || (len > 1 && digits.first() == Some(&b'0')) {
        return None;
    }
    let mut value: u32 = 0;
    for digit in digits {
        let ones = u32::from(digit.wrapping_sub(b'0'));
        value = value.checked_mul(10)?.checked_add(ones)?;
    }
    Some(Numeral { value, start, len })
}

// The fault that this was expected there.
fn fault_at(text: &[u8], start: usize, expected: &'static str) -> GraphFault {
    let len = digits_at(text, start).max(1);
    GraphFault {
        start,
        len: len.min(text.len().saturating_sub(start)),
        expected,
    }
}

/// What a number may be.
static NUMBER: &str = "a number of 32 bits without leading zeros";

impl Numerals {
    // Takes in the line that begins there, and answers where it ends. Errors: what is wrong with it.
    fn take_line(
        &mut self,
        text: &[u8],
        start: usize,
    ) -> Result<Result<usize, GraphFault>, AllocError> {
        let Some(node) = numeral_at(text, start) else {
            return Ok(Err(fault_at(text, start, NUMBER)));
        };
        self.nodes.push(node)?;
        let mut at = start.saturating_add(node.len);
        if text.get(at) != Some(&b':') {
            return Ok(Err(fault_at(text, at, "`:`")));
        }
        at = at.saturating_add(1);
        // Each turn takes a successor.
        for _ in 0..text.len() {
            if text.get(at) != Some(&b' ') {
                break;
            }
            at = at.saturating_add(1);
            let Some(successor) = numeral_at(text, at) else {
                return Ok(Err(fault_at(text, at, NUMBER)));
            };
            self.successors.push(successor)?;
            at = at.saturating_add(successor.len);
        }
        match text.get(at) {
            None | Some(b'\n') => Ok(Ok(at.saturating_add(1))),
            Some(_) => Ok(Err(fault_at(
                text,
                at,
                "one blank and a number, or the end of the line",
            ))),
        }
    }

    // The first number that doesn't fit: a node that had a line before, or a successor that has none.
    fn first_violation(&self, alloc: Global) -> Result<Option<GraphFault>, AllocError> {
        let mut lines = HashMap::new(alloc);
        for node in &self.nodes {
            if lines.insert(node.value, node.start)?.is_some() {
                return Ok(Some(GraphFault {
                    start: node.start,
                    len: node.len,
                    expected: "a node that has no line before",
                }));
            }
        }
        for successor in &self.successors {
            if !lines.contains_key(&successor.value) {
                return Ok(Some(GraphFault {
                    start: successor.start,
                    len: successor.len,
                    expected: "a node that has a line",
                }));
            }
        }
        Ok(None)
    }
}

// The first place at which the text isn't that of a graph.
fn find_fault(alloc: Global, text: &[u8]) -> Result<Option<GraphFault>, AllocError> {
    let mut numerals = Numerals {
        nodes: Vec::new(alloc),
        successors: Vec::new(alloc),
    };
    let mut at = 0;
    // Each turn takes a line.
    for _ in 0..text.len() {
        if at >= text.len() {
            break;
        }
        match numerals.take_line(text, at)? {
            Ok(next) => at = next,
            Err(fault) => return Ok(Some(fault)),
        }
    }
    numerals.first_violation(alloc)
}

/// The message for a text that isn't that of a graph: the first place at which it is wrong, and what was expected
/// there. Errors: allocation failure. Cost: linear in the text.
pub fn graph_fault_message(alloc: Global, source: &Source) -> Result<String, AllocError>
    ensures { IfOk result (λ report. FaultsGraph (string_bytes report)) }
{
    let Some(fault) = find_fault(alloc, source.text)? else {
        return String::from_str(alloc, "error: unreadable graph\n");
    };
    let label = format!(in alloc; "expected {}", fault.expected)?;
    let mark = SourceMark {
        message: "unreadable graph",
        label: label.as_str(),
        name: source.name,
        start: fault.start,
        len: fault.len,
    };
    let mut reported = mark_source(alloc, source.text, &mark)?;
    reported.push_str(
        "help: write a line for each node, as `0: 1 2`: its number and its successors\n",
    )?;
    Ok(reported)
}
