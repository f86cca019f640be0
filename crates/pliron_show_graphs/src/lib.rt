//! Texts as pictures, and what passes did to them: the control flow of a region and numbered graphs in the dot language
//! of Graphviz, and a reason for each operation and argument that changed or was erased.
//!
//! It knows what people ask of notations, graphs with their searches and dominators, the dot language, and the calls of which
//! passes are made; of words, files, streams and statuses it knows nothing.
#![tactic(auto)]

pub mod dot;
mod explaining;
mod flow_picture;
mod flow_text;
mod graph_picture;
mod graph_row;
mod missed;
mod pass_list;
mod reasons;
mod region_path;
mod tree_state;

pub use explaining::explain_changes;
pub use flow_picture::FlowOptions;
pub use flow_text::{Drawing, text_flow};
pub use graph_picture::text_graph;
pub use graph_row::{GraphRow, graph_rows};
pub use pass_list::PassList;
