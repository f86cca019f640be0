//! Tests of the optimisations on texts: a module for each, and what these share. It has no function of its own.
#![tactic(auto)]

#[cfg(test)]
mod canonicalization;
#[cfg(test)]
mod common_subexpressions;
#[cfg(test)]
mod control_flow;
#[cfg(test)]
mod dead_code;
#[cfg(test)]
mod optimisation;
#[cfg(test)]
mod propagation;
#[cfg(test)]
mod runs;
#[cfg(test)]
mod texts;
