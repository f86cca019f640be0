//! Tests of `pliron_test_cases` under the names that users take: what the bench dialect answers of small trees,
//! and which faults it finds. It has no function of its own.
#![tactic(auto)]

#[cfg(test)]
mod argument_values;
#[cfg(test)]
mod bench;
#[cfg(test)]
mod branches;
#[cfg(test)]
mod faults;
#[cfg(test)]
mod names;
#[cfg(test)]
mod notation;
#[cfg(test)]
mod questions;
#[cfg(test)]
mod rewrites;
#[cfg(test)]
mod runs;
#[cfg(test)]
mod tiny;
#[cfg(test)]
mod worked;
