//! Texts of dialects by roles, read into a tree and printed from one, and those of `Bench`: the bench notation.
//!
//! It knows the roles of kinds, how texts write them, and the tree; of runs it knows nothing.
#![tactic(auto)]

mod admission;
mod bench;
mod build;
pub mod cursor;
mod expected;
mod grammar;
pub mod labels;
mod parser;
mod printer;
mod reader;
mod steps;
mod stop;
mod syntax;
pub mod tokens;
mod word_table;

pub use bench::{find_text_fault, print_text, read_text};
pub use expected::{ExpectedItem, SyntaxFault};
pub use grammar::{Body, Count, Grammar, Tail};
pub use printer::{number_of, print_operation};
pub use reader::{TextFault, find_fault, read_operation};
pub use stop::Stop;
pub use tokens::Span;
pub use word_table::{Word, WordTable};
