//! Tests of `pliron_pass`: passes, analyses and a dialect of a caller, lines of passes over a small text, what
//! the cache, the count and the answers are then, first faults, the ready-made analyses, and what refused
//! memory leaves. It has no function of its own.
#![tactic(auto)]

#[cfg(test)]
mod bench;
#[cfg(test)]
mod cache;
#[cfg(test)]
mod changing;
#[cfg(test)]
mod expect;
#[cfg(test)]
mod facts;
#[cfg(test)]
mod faults;
#[cfg(test)]
mod guards;
#[cfg(test)]
mod lines;
#[cfg(test)]
mod passes;
#[cfg(test)]
mod pipeline;
#[cfg(test)]
mod refusals;
#[cfg(test)]
mod strict;
