//! What a text in LLVM's textual IR is made of: tokens, brackets with all that is in them, and the parts of a module,
//! which are functions and the raw text between these.
#![tactic(auto)]

mod brackets;
mod fault;
mod forms;
mod functions;
mod lines;
mod parts;
mod tokens;

pub use brackets::token_tree_at;
pub use fault::{ExpectedSyntax, LlvmFault};
pub use forms::{Hole, HoleKind, are_holes, cut, fill, is_mark, num_mark};
pub use functions::{FunctionText, function_at};
pub use lines::{LineText, split_lines};
pub use parts::{ModulePart, join_parts, split_text};
pub use tokens::{
    Bracket, ByteSpan, LlvmToken, TokenKind, bytes_of, is_blank, is_word_byte, token_at,
};
