//! Tests of `pliron_dialect_calls`: a small dialect with calls, functions, returns and jumps, what is answered of heads, a program
//! of two modules before and after its call is inlined, and calls that are prepared for that.
#![tactic(auto)]

#[cfg(test)]
mod heads;
#[cfg(test)]
mod preparing;
#[cfg(test)]
mod program;
pub mod routine_kind;
mod tables;
mod words;
