//! Tests of what the commands of the command-line program do. It has no function of its own.
#![tactic(auto)]

#[cfg(test)]
mod broken;
#[cfg(test)]
mod changes;
#[cfg(test)]
mod compared;
#[cfg(test)]
mod diagnostics;
#[cfg(test)]
mod flows;
#[cfg(test)]
mod functions;
#[cfg(test)]
mod graphs;
#[cfg(test)]
mod json;
#[cfg(test)]
mod kinds;
#[cfg(test)]
mod lines;
#[cfg(test)]
mod modules;
#[cfg(test)]
mod optimised;
#[cfg(test)]
mod reasons;
#[cfg(test)]
mod reports;
#[cfg(test)]
mod unfit;
#[cfg(test)]
mod words;
