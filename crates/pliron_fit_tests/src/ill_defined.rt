//! Public calls that take a tree, on trees outside every premise but that they are well linked: uses before
//! definitions, of itself and across regions, edges that forward too few values or too many, regions without
//! blocks, roots inside roots. Each call answers, and what can be asked of its answer without knowing it is
//! asked.
#[cfg(test)]
mod around;
#[cfg(test)]
mod graphs;
#[cfg(test)]
mod left;
#[cfg(test)]
mod parts;
#[cfg(test)]
mod reading;
#[cfg(test)]
mod texts;
#[cfg(test)]
pub mod trees;
#[cfg(test)]
mod wholes;
