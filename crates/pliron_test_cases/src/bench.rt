//! A small dialect, and its notation.
pub use pliron_dialect_bench::{Bench, BenchKind, laws};
pub use pliron_text::{print_text, read_text};
