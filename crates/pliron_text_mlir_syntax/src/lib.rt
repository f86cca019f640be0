//! What a text in MLIR's generic form is made of: a cursor over its bytes, raw text and numbers of attributes, names in
//! their regions, the syntax by numbers, and the sheet that keeps what a tree has no place for.
#![tactic(auto)]

mod cursor;
mod fault;
mod names;
mod numbers;
mod raw;
mod sheet;
mod syntax;
mod texts;

pub use cursor::{ByteRange, TextCursor, is_blank, is_word};
pub use fault::{Expectation, Fault};
pub use names::NameTable;
pub use numbers::{
    SignedNumber, array_of, bits_of, dense_of, number_of, trim_blanks, typed_number_of,
    width_of_type,
};
pub use pliron_text_positions::{LineAndColumn, position_of};
pub use sheet::{FormTexts, OperationForm, Sheet};
pub use syntax::{BlockSyntax, MAX_DEPTH, ModuleSyntax, OperationSyntax};
pub use texts::Texts;
