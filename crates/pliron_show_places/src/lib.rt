//! What users see of texts: texts over several lines, and marks under what is wrong.
//!
//! It knows the bench notation; of runs, passes, arguments, files and streams it knows nothing.
#![tactic(auto)]

mod comments;
mod fault;
mod fault_label;
mod isolated;
mod json;
mod kind_words;
mod layout;
mod message_form;
mod operand_parts;
mod operation_ranges;
mod source_mark;
mod text_parts;
mod text_tokens;

pub use comments::{blank_comments, without_mark};
pub use fault::{kind_fault, text_fault};
pub use isolated::{TextRange, isolate, operation_range};
pub use json::{JsonObject, push_json_string};
pub use layout::pretty;
pub use message_form::{MessageForm, in_form};
pub use operand_parts::{edge_range, operand_range};
pub use operation_ranges::{operation_places, place_of};
pub use pliron_text_positions::{LineAndColumn, position_of};
pub use source_mark::{Source, SourceMark, mark_source, mark_source_as, push_bytes};
pub use text_parts::{TextPart, TextParts, ValueName, forwarded_names, parts_of, push_on_one_line};
