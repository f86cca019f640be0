//! Tests of `pliron_graph_dominance`: worked graphs, all small graphs against dominance by removal, shapes and
//! reverse graphs. It has no function of its own.
#[cfg(test)]
pub mod lists;
#[cfg(test)]
mod removal;
#[cfg(test)]
mod shapes;
#[cfg(test)]
pub mod trees;
#[cfg(test)]
pub mod worked;
