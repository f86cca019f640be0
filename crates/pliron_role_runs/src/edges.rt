//! The values that an edge of a branch passes.
ghost use Rattle.std.specs.Prelude.{◌≡◌, ◌+◌, ◌-◌, ◌≤◌, min, take, drop, length, map, IfOk};
ghost use Rattle.pliron_evaluator.specs.Evaluator.{datum_of_value};
ghost use Rattle.pliron_dialect.specs.Counted.{edge_counts_in, start_of, count_of, counts_by, two_counts, values_of_edge, first_edge_count, counted_attributes};

use crate::counts::Counts;
use crate::own_moves::behind_first;
use pliron_core::{AttrObj, Attrs, Head};
use pliron_dialect::Counting;
use pliron_dialect::counts::count_up_to;
use pliron_evaluator::evaluator::Datum;
use std::alloc::{AllocError, Global};

// The sum of the two, at most so many.
fn sum_up_to(a: usize, b: usize, most: usize) -> usize
    requires first { a ≤ most }
    requires second { b ≤ most }
    ensures { result ≡ min (a + b) most }
{
    if b <= most - a { a + b } else { most }
}

// How many operands the edge with this index forwards, of so many edges, at most so many.
fn count_at(attrs: &Attrs, edges: usize, i: usize, most: usize) -> usize
    ensures { result ≡ min (count_of (edge_counts_in edges attrs.now) i) most }
{
    if i >= edges {
        return 0;
    }
    if i >= attrs.len() {
        return 0;
    }
    count_up_to(attrs.get(i), most)
}

// How many operands the edges before this one forward, at most so many.
fn start_at(attrs: &Attrs, edges: usize, i: usize, most: usize) -> usize
    ensures { result ≡ min (start_of (edge_counts_in edges attrs.now) i) most }
{
    let mut start = 0;
    for j in 0..i {
        start = sum_up_to(start, count_at(attrs, edges, j, most), most);
    }
    start
}

// How many operands the first edge forwards, at most so many.
fn first_count(attrs: &Attrs, most: usize) -> usize
    ensures { result ≡ min (first_edge_count attrs.now) most }
{
    if attrs.is_empty() {
        0
    } else {
        count_up_to(attrs.get(0), most)
    }
}

// Of these values so many from this place on, as far as there are such.
fn values_in(first: usize, count: usize, values: &[Datum]) -> &[Datum]
    ensures { result.now ≡ take count (drop first values.now) }
{
    if first >= values.len() {
        return &values[..0];
    }
    let rest = &values[first..];
    if count < rest.len() {
        &rest[..count]
    } else {
        rest
    }
}

// Of these values those that one of two edges passes, where an attribute counts those of the first one.
fn values_of_two<'a>(
    attrs: &Attrs,
    operands: usize,
    edge: usize,
    values: &'a [Datum],
) -> &'a [Datum]
    ensures { result.now ≡ take (count_of (two_counts (first_edge_count attrs.now) (operands - 1)) edge)
        (drop (start_of (two_counts (first_edge_count attrs.now) (operands - 1)) edge) values.now) }
{
    let all = operands.saturating_sub(1);
    let first = first_count(attrs, all);
    if edge == 0 {
        values_in(0, first, values)
    } else if edge == 1 {
        values_in(first, all - first, values)
    } else {
        &values[..0]
    }
}

// Of these values those that an edge passes, where an attribute counts those of each edge.
fn values_of_each<'a>(attrs: &Attrs, edges: usize, edge: usize, values: &'a [Datum]) -> &'a [Datum]
    ensures { result.now ≡ take (count_of (edge_counts_in edges attrs.now) edge)
        (drop (start_of (edge_counts_in edges attrs.now) edge) values.now) }
{
    let start = start_at(attrs, edges, edge, values.len());
    let count = count_at(attrs, edges, edge, values.len());
    values_in(start, count, values)
}

/// The values that an edge of a branch passes, of so many edges and operands. Cost: the number of edges before it.
pub fn values_along<'a>(
    counting: Counting,
    attrs: &Attrs,
    counts: &Counts,
    edge: usize,
    input: &'a [Datum],
) -> &'a [Datum]
    ensures { map datum_of_value result.now ≡ values_of_edge (counts_by counting counts.now.successors
        counts.now.operands attrs.now) edge (map datum_of_value input.now) }
{
    let values = behind_first(input);
    match counting {
        Counting::OfFirst => values_of_two(attrs, counts.operands, edge, values),
        Counting::OfEach => values_of_each(attrs, counts.successors, edge, values),
    }
}

// Copies of the attributes from this place on.
fn attributes_from(alloc: Global, attrs: &Attrs, first: usize) -> Result<Vec<AttrObj>, AllocError>
    ensures { IfOk result (λ rest. rest.items ≡ drop first attrs.now) }
{
    let mut rest = Vec::new(alloc);
    for i in 0..attrs.len().saturating_sub(first) {
        match attrs.get(first + i).copy(alloc) {
            Ok(attr) => rest.push(attr)?,
            Err(_) => return Err(AllocError),
        }
    }
    Ok(rest)
}

/// The head of a branch with so many edges without the counts of its edges. Errors: allocation failure. Cost: that of
/// copies of the attributes.
pub fn head_without_counts(
    alloc: Global,
    counting: Counting,
    head: &Head,
    edges: usize,
) -> Result<Head, AllocError>
    ensures { IfOk result (λ other. other ≡ record head.now {
      attrs = drop (counted_attributes counting edges)
          head.now.attrs;
    }) }
{
    let counted = match counting {
        Counting::OfFirst => 1,
        Counting::OfEach => edges,
    };
    let rest = attributes_from(alloc, &head.attrs, counted)?;
    Ok(Head {
        kind: head.kind,
        ssa: head.ssa,
        attrs: Attrs::new(rest),
    })
}
