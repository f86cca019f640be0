//! The passes whose work is explained.

use pliron_pass_pipeline::PassName;

/// Passes that are run in turn.
#[derive(Drop)]
pub struct PassList {
    /// The most runs: a run that changes nothing is the last one.
    pub runs: usize,
    /// Whether they are run on each operation directly inside, and not on the operation itself.
    pub is_nested: bool,
    pub passes: Vec<PassName>,
    /// Whether what they left unchanged is reported, too, and why.
    pub reports_missed: bool,
    /// Whether each line is an object of JSON.
    pub is_json: bool,
}
