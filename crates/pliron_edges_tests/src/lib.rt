//! Tests of edges that are moved over blocks that only jump, and of loops that are rotated. It has no function of its own.
#![tactic(auto)]

#[cfg(test)]
mod cases;
#[cfg(test)]
mod loops;
#[cfg(test)]
mod rotations;
#[cfg(test)]
mod tests;
