//! Tests of `pliron_core` by trees that are built by calls, read by every read and rewritten by every write.
//! They are in a crate of their own, so that the tree itself is proved once.
#![tactic(auto)]

#[cfg(test)]
mod arguments;
#[cfg(test)]
mod attributes;
#[cfg(test)]
mod counted;
#[cfg(test)]
mod deep;
#[cfg(test)]
mod edges;
#[cfg(test)]
mod insertions;
#[cfg(test)]
mod names;
#[cfg(test)]
mod reads;
#[cfg(test)]
mod removals;
#[cfg(test)]
mod room;
#[cfg(test)]
mod rows;
#[cfg(test)]
mod steps;
#[cfg(test)]
mod straight;
#[cfg(test)]
mod tables;
#[cfg(test)]
mod writes;
