//! Tests of the program: texts, graphs, arguments and streams that fail; of two dialects by roles, which are here; and
//! the code of the pages.
#![tactic(auto)]

#[cfg(test)]
mod arithmetic;
#[cfg(test)]
mod docs;
#[cfg(test)]
mod expect;
#[cfg(test)]
mod graphs;
#[cfg(test)]
mod guessed;
pub mod guessed_kind;
#[cfg(test)]
mod guesses;
#[cfg(test)]
mod looped;
pub mod looped_kind;
#[cfg(test)]
mod loops;
#[cfg(test)]
mod named;
#[cfg(test)]
mod streams;
#[cfg(test)]
mod texts;
