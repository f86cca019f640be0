//! Tests of `pliron_opt_symbols`, over the small dialect by roles with calls.
#![tactic(auto)]

#[cfg(test)]
mod building;
#[cfg(test)]
mod modules;
#[cfg(test)]
mod policy;
