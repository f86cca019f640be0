//! Graphs as texts, and how they are read.
ghost use Rattle.std.specs.Prelude.{◌≡◌, ◌<◌, ◌≤◌, IfOk, IfSome, length};
ghost use Rattle.pliron_graph_traversal.specs.Adjacency.{AreInverse};

use pliron_graph_traversal::AdjacencyList;
use pliron_laws::OptError;
use std::alloc::{AllocError, Global};
use std::collections::BTreeMap;

/// A graph whose nodes have numbers. The nodes are in the order of their lines.
#[derive(Drop)]
pub struct NumberedGraph {
    /// The number of each node.
    pub numbers: Vec<u32>,
    /// The edges between the nodes, by the places of these.
    pub edges: AdjacencyList,
}

impl NumberedGraph {
    /// The number of a node. Cost: constant.
    pub fn number(&self, node: u32) -> u32 {
        self.numbers.get(node as usize).copied().unwrap_or(node)
    }
}

/// A line of the notation: a node and its successors, all by their numbers.
#[derive(Drop)]
struct Line {
    node: u32,
    successors: Vec<u32>,
}

// The number that the text begins with, and what follows it. It has no leading zero but in 0.
fn number(text: &[u8]) -> Option<(u32, &[u8])>
    ensures { IfSome result (λ found. length found.1.now < length text.now) }
{
    let count = text
        .iter()
        .position(|byte| !byte.is_ascii_digit())
        .unwrap_or(text.len());
    if count == 0 || (count > 1 && text[0] == b'0') {
        return None;
    }
    let mut value: u32 = 0;
    for digit in &text[..count] {
        value = value.checked_mul(10)?.checked_add((*digit - b'0') as u32)?;
    }
    Some((value, &text[count..]))
}

// The numbers that the text begins with, each after one blank, and what follows them; `None` where a
// blank isn't followed by a number.
fn numbers(alloc: Global, text: &[u8]) -> Result<Option<(Vec<u32>, &[u8])>, AllocError>
    ensures { IfOk result (λ found. IfSome found (λ read. length read.1.now ≤ length text.now)) }
{
    let mut found = Vec::new(alloc);
    let mut rest = text;
    while let [b' ', after @ ..] = rest {
        let Some((value, after)) = number(after) else {
            return Ok(None);
        };
        found.push(value)?;
        rest = after;
    }
    Ok(Some((found, rest)))
}

// The line that the text begins with, and what follows it.
fn first_line(alloc: Global, text: &[u8]) -> Result<Option<(Line, &[u8])>, AllocError>
    ensures { IfOk result (λ found. IfSome found (λ read. length read.1.now < length text.now)) }
{
    let Some((node, [b':', rest @ ..])) = number(text) else {
        return Ok(None);
    };
    let Some((successors, rest)) = numbers(alloc, rest)? else {
        return Ok(None);
    };
    let rest = match rest {
        [] => rest,
        [b'\n', after @ ..] => after,
        _ => return Ok(None),
    };
    Ok(Some((Line { node, successors }, rest)))
}

// The lines of a text.
fn lines(alloc: Global, text: &[u8]) -> Result<Option<Vec<Line>>, AllocError> {
    let mut found = Vec::new(alloc);
    let mut rest = text;
    while !rest.is_empty() {
        let Some((read, after)) = first_line(alloc, rest)? else {
            return Ok(None);
        };
        found.push(read)?;
        rest = after;
    }
    Ok(Some(found))
}

// The place of each node; `None` where a node has two lines, or there are more than 32 bits can count.
fn places(alloc: Global, lines: &[Line]) -> Result<Option<BTreeMap<u32, u32>>, OptError> {
    let mut places = BTreeMap::new(alloc);
    let mut place: u32 = 0;
    for line in lines {
        if places.insert(line.node, place)?.is_some() {
            return Ok(None);
        }
        let Some(next) = place.checked_add(1) else {
            return Ok(None);
        };
        place = next;
    }
    Ok(Some(places))
}

// The places of these nodes; `None` where one has no line.
fn places_of(
    alloc: Global,
    places: &BTreeMap<u32, u32>,
    nodes: &[u32],
) -> Result<Option<Vec<u32>>, OptError> {
    let mut found = Vec::with_capacity(alloc, nodes.len())?;
    for node in nodes {
        let Some(place) = places.get(node) else {
            return Ok(None);
        };
        found.push(*place)?;
    }
    Ok(Some(found))
}

/// Reads a graph: a line for each node, with its number, a colon, and its successors, each after one
/// blank; `None` for any other text, one in which a node has two lines, and one in which a successor has
/// none.
///
/// Errors: allocation failure. Cost: linear, but for an ordered map of the numbers, which the input chooses.
pub fn read_graph(alloc: Global, text: &[u8]) -> Result<Option<NumberedGraph>, OptError>
    ensures lawful { IfOk result (λ found. IfSome found (λ graph. AreInverse graph.edges)) }
    ensures numbered { IfOk result (λ found. IfSome found (λ graph. length graph.numbers.items ≡ length
        graph.edges.succ)) }
{
    let Some(lines) = lines(alloc, text)? else {
        return Ok(None);
    };
    let Some(places) = places(alloc, &lines)? else {
        return Ok(None);
    };
    let mut numbers = Vec::with_capacity(alloc, lines.len())?;
    let mut successors = Vec::with_capacity(alloc, lines.len())?;
    for line in &lines {
        let Some(row) = places_of(alloc, &places, &line.successors)? else {
            return Ok(None);
        };
        numbers.push(line.node)?;
        successors.push(row)?;
    }
    let Some(edges) = AdjacencyList::new(alloc, successors)? else {
        return Ok(None);
    };
    Ok(Some(NumberedGraph { numbers, edges }))
}
