//! Texts of the bench notation, made at random, with lists of passes, and what is asked of the program's answer to each,
//! without knowing it.
//!
//! Texts are well defined by construction, or hostile, which are well linked but ill defined. It knows the program, the
//! notation and the evaluator, and nothing of how an optimisation works. It is for tests.
#![tactic(auto)]

mod answer;
mod calls;
mod dice;
mod lists;
mod names;
mod region_plan;
mod runs;
mod settled;
mod subject;
mod tally;
mod texts;
mod verdict;
mod writer;

pub use subject::{FuzzSubject, Kind};
pub use tally::Tally;
pub use verdict::{AnswerFault, Verdict, judge};
