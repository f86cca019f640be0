//! Tests of calls that change a tree as inlining asks. It has no function of its own.
#![tactic(auto)]

#[cfg(test)]
mod copying;
#[cfg(test)]
mod splitting;
