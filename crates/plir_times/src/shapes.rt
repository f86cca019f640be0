//! Shapes of graphs.

use std::alloc::{AllocError, Global};

/// A shape, of any number of nodes.
#[derive(Clone, Copy)]
pub enum TimedShape {
    Isolated,
    Chain,
    Random,
    Nest,
    Loops,
    Dense,
    Star,
    Exits,
    Ladder,
    Skips,
}

impl TimedShape {
    /// The shape of this name. Cost: constant.
    pub fn from_name(name: &str) -> Option<TimedShape> {
        let shape = match name {
            "isolated" => TimedShape::Isolated,
            "chain" => TimedShape::Chain,
            "random" => TimedShape::Random,
            "nest" => TimedShape::Nest,
            "loops" => TimedShape::Loops,
            "dense" => TimedShape::Dense,
            "star" => TimedShape::Star,
            "exits" => TimedShape::Exits,
            "ladder" => TimedShape::Ladder,
            "skips" => TimedShape::Skips,
            _ => return None,
        };
        Some(shape)
    }

    // The successors of the node, of so many nodes.
    fn fill(
        self,
        node: usize,
        count: usize,
        seed: &mut u64,
        row: &mut Vec<u32>,
    ) -> Result<(), AllocError> {
        match self {
            TimedShape::Isolated => Ok(()),
            TimedShape::Chain => chain(node, count, row),
            TimedShape::Random => random(count, seed, row),
            TimedShape::Nest => nest(node, count, row),
            TimedShape::Loops => loops(node, count, row),
            TimedShape::Dense => dense(node, count, row),
            TimedShape::Star => star(node, count, row),
            TimedShape::Exits => exits(node, count, row),
            TimedShape::Ladder => ladder(node, count, row),
            TimedShape::Skips => skips(node, count, row),
        }
    }
}

// The number of a node, in 32 bits.
fn number_of(node: usize) -> u32 {
    u32::try_from(node).unwrap_or(0)
}

// The next node of a chain.
fn chain(node: usize, count: usize, row: &mut Vec<u32>) -> Result<(), AllocError> {
    if node.saturating_add(1) < count {
        row.push(number_of(node).wrapping_add(1))?;
    }
    Ok(())
}

// Four successors by chance.
fn random(count: usize, seed: &mut u64, row: &mut Vec<u32>) -> Result<(), AllocError> {
    for _ in 0..4 {
        *seed = seed
            .wrapping_mul(6364136223846793005)
            .wrapping_add(1442695040888963407);
        if count > 0 {
            row.push((((*seed) >> 33) % (count as u64)) as u32)?;
        }
    }
    Ok(())
}

// Nested loops: the first half of the nodes are headers, and the others close their loops.
fn nest(node: usize, count: usize, row: &mut Vec<u32>) -> Result<(), AllocError> {
    let half = count / 2;
    if node < half {
        row.push(number_of(node).wrapping_add(1))?;
        return Ok(());
    }
    let back = count
        .saturating_sub(1)
        .saturating_sub(node)
        .min(half.saturating_sub(1));
    row.push(number_of(back))?;
    chain(node, count, row)
}

// Loops of four nodes in a row.
fn loops(node: usize, count: usize, row: &mut Vec<u32>) -> Result<(), AllocError> {
    chain(node, count, row)?;
    if node % 4 == 3 {
        row.push(number_of(node.saturating_sub(3)))?;
    }
    Ok(())
}

// Each other node.
fn dense(node: usize, count: usize, row: &mut Vec<u32>) -> Result<(), AllocError> {
    for other in 0..count {
        if other != node {
            row.push(number_of(other))?;
        }
    }
    Ok(())
}

// From node 0 to each other, and back.
fn star(node: usize, count: usize, row: &mut Vec<u32>) -> Result<(), AllocError> {
    if node == 0 {
        return dense(node, count, row);
    }
    row.push(0)?;
    Ok(())
}

// A chain each of whose nodes leads to the last one too.
fn exits(node: usize, count: usize, row: &mut Vec<u32>) -> Result<(), AllocError> {
    chain(node, count, row)?;
    if node.saturating_add(2) < count {
        row.push(number_of(count.saturating_sub(1)))?;
    }
    Ok(())
}

// A chain each of whose nodes leads back to the one before.
fn ladder(node: usize, count: usize, row: &mut Vec<u32>) -> Result<(), AllocError> {
    chain(node, count, row)?;
    row.push(number_of(node.saturating_sub(1)))?;
    Ok(())
}

// A chain each of whose nodes leads to the one after the next too.
fn skips(node: usize, count: usize, row: &mut Vec<u32>) -> Result<(), AllocError> {
    chain(node, count, row)?;
    chain(node.saturating_add(1), count, row)
}

/// The successors of so many nodes. Errors: allocation failure. Cost: linear in nodes and edges.
pub fn rows_of(
    alloc: Global,
    shape: TimedShape,
    count: usize,
) -> Result<Vec<Vec<u32>>, AllocError> {
    let mut rows = Vec::new(alloc);
    let mut seed = 1u64;
    for node in 0..count {
        let mut row = Vec::new(alloc);
        shape.fill(node, count, &mut seed, &mut row)?;
        rows.push(row)?;
    }
    Ok(rows)
}
