//! What invokes give: arguments of the blocks to which they go on.
ghost use Rattle.pliron_text_llvm_sheets.specs.Sheets.{KeepsSheet};

use crate::names::name_of;
use crate::plan::{FunctionSource, PlannedDefinition};
use crate::statements::statement_at;
use crate::stop::{KeptForPlan, PlanStop};
use pliron_text_llvm_sheets::{LlvmSheet, ValueNote, ValueOrigin};
use pliron_text_llvm_trees::{TreeEdge, TreeStatement};
use std::alloc::{AllocError, Global};
use std::cmp::Ordering;

/// The definition of this number, with its name. Errors: allocation failure. Cost: linear in the name.
#[tactic(auto, using(pliron_text_llvm_sheets::proofs::KeepingLemmas::sheet_steps))]
pub fn plan_definition(
    source: FunctionSource<'_>,
    number: usize,
    origin: ValueOrigin,
    sheet: &mut LlvmSheet,
) -> Result<PlannedDefinition, AllocError>
    ensures { KeepsSheet sheet.old sheet.new }
{
    let name = name_of(source.text, source.reading.definitions.get(number), sheet)?;
    Ok(PlannedDefinition {
        number,
        note: ValueNote { origin, name },
    })
}

// The block to which the first edge from the block leads, of edges in the order of the blocks from which they come.
fn first_target(edges: &[TreeEdge], block: usize) -> Option<usize> {
    let first = match edges.binary_search_by(|edge| {
        if edge.edge.from < block {
            Ordering::Less
        } else {
            Ordering::Greater
        }
    }) {
        Ok(at) => at,
        Err(at) => at,
    };
    match edges.get(first) {
        Some(edge) if edge.edge.from == block => Some(edge.edge.to),
        _ => None,
    }
}

// How many edges lead to each of so many blocks.
fn edges_into(alloc: Global, edges: &[TreeEdge], blocks: usize) -> Result<Vec<usize>, AllocError> {
    let mut counts: Vec<usize> = Vec::with_capacity(alloc, blocks)?;
    counts.resize(blocks, 0)?;
    for edge in edges {
        let to = edge.edge.to;
        if to < counts.len() {
            counts[to] = counts[to].saturating_add(1);
        }
    }
    Ok(counts)
}

// Notes that the invoke at this place gives the definition to the block, to which no other edge may lead.
fn note_given(
    place: usize,
    number: usize,
    target: Option<usize>,
    counts: &[usize],
    given: &mut [Option<usize>],
) -> Result<(), PlanStop> {
    match target {
        Some(block) if block < given.len() && counts.get(block) == Some(&1) => {
            given[block] = Some(number);
            Ok(())
        }
        _ => Err(PlanStop::Keep(place, KeptForPlan::Given)),
    }
}

// Notes what the statement gives to a block, if it ends its own and gives something.
fn note_statement(
    source: FunctionSource<'_>,
    statement: &TreeStatement,
    counts: &[usize],
    given: &mut [Option<usize>],
) -> Result<(), PlanStop> {
    let line = statement_at(source, statement.line)?;
    match statement.result {
        Some(number) if line.statement.row.is_terminator => {
            let target = first_target(&source.tree.edges, statement.block);
            note_given(line.span.start, number, target, counts, given)
        }
        _ => Ok(()),
    }
}

// Notes what the statements give to blocks.
fn note_statements(
    source: FunctionSource<'_>,
    counts: &[usize],
    given: &mut [Option<usize>],
) -> Result<(), PlanStop> {
    for statement in &source.tree.statements {
        note_statement(source, statement, counts, given)?;
    }
    Ok(())
}

/// For each block the number of the definition that an invoke gives to it: one that goes on there, where no other edge
/// leads.
///
/// Errors: another edge leads there, and so the function is kept as it is written; allocation failure. Cost: linear in the
/// function, and a search among the edges for each such invoke.
pub fn given_by_block(
    alloc: Global,
    source: FunctionSource<'_>,
) -> Result<Vec<Option<usize>>, PlanStop> {
    let blocks = source.reading.body.blocks.len();
    let counts = edges_into(alloc, &source.tree.edges, blocks)?;
    let mut given = Vec::with_capacity(alloc, blocks)?;
    given.resize(blocks, None)?;
    match note_statements(source, &counts, &mut given) {
        Ok(()) => Ok(given),
        Err(stop) => Err(stop),
    }
}
