//! Notations as people see them: where their texts go wrong, where operations, blocks and values are in them, what an
//! edge is called, which constants operations make, how operations run, and how runs end.
//!
//! It knows notations and what marks are; of passes, arguments, files and streams it knows nothing.
#![tactic(auto)]

mod bench;
mod bench_traps;
mod definition_order;
mod json_run;
mod kinds;
mod lost_number;
mod part_names;
mod plain_data;
mod reading;
mod renaming;
mod run_report;
mod shown;
mod streamed_run;
mod trap_reason;

pub use definition_order::DefinitionOrder;
pub use part_names::{name_of_head, number_in_pack, push_value_name};
pub use reading::read_shown;
pub use run_report::{End, RunOptions, RunReport, end_of, evaluated_sight, run_text, sight_text};
pub use shown::{NameScopes, NameSource, NewNames, Runnable, ShownNotation};
pub use streamed_run::{EffectSink, run_text_streamed};
pub use trap_reason::{TrapReason, edge_counts};
