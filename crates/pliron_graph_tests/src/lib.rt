//! Tests of `pliron_graph_components` and `pliron_graph_dominance`: worked graphs, all graphs of three nodes against tables,
//! regions, reverse graphs and searches for ancestors. It has no function of its own.
//!
//! A case is a line: what is asked of a graph, the graph, ` => ` and the answer as text.
#![tactic(auto)]

#[cfg(test)]
mod adjacency;
#[cfg(test)]
mod around;
#[cfg(test)]
mod cases;
#[cfg(test)]
mod chains;
#[cfg(test)]
mod component_table;
#[cfg(test)]
mod dominance;
#[cfg(test)]
mod names;
#[cfg(test)]
mod numbering_table;
#[cfg(test)]
mod regions;
#[cfg(test)]
mod texts;
#[cfg(test)]
mod three_nodes;
