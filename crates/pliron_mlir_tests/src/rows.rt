//! What LLVM and MLIR answer, a row a line: its name before ` -- `, what is asked, and behind ` => ` the answer.

pub mod casts;
pub mod compare;
pub mod division;
pub mod edges;
pub mod identities;
pub mod index;
pub mod logic;
pub mod pairs;
pub mod roundings;
pub mod rules;
pub mod shifts;
pub mod wrapping;

/// What the row asks, and the answer. Cost: linear in the row.
pub fn sides<'t>(row: &'t str) -> Option<(&'t str, &'t str)> {
    let (_, case) = row.split_once(" -- ")?;
    case.split_once(" => ")
}
