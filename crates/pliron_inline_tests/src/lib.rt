//! Tests of `pliron_opt_inline`, over the small dialect by roles with calls.
#![tactic(auto)]

#[cfg(test)]
mod building;
#[cfg(test)]
mod callees;
#[cfg(test)]
mod components;
#[cfg(test)]
mod modules;
#[cfg(test)]
mod policy;
#[cfg(test)]
mod sizes;
