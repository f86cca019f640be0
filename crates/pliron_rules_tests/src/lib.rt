//! Tests of `pliron_rewrite_rules`, `pliron_opt_combine` and `pliron_pass_linked`: views of operations of `Bench`,
//! what its rules make of texts, a worked program whose functions call one another, a pipeline on a module, and the laws
//! at their names.
#![tactic(auto)]

#[cfg(test)]
mod combining;
#[cfg(test)]
mod names;
#[cfg(test)]
mod pipeline;
#[cfg(test)]
mod views;
#[cfg(test)]
mod worked;
