//! Passes made of optimisations, and pipelines of passes.
//!
//! It knows passes, the cache and the calls that optimise, and no dialect and no text.
#![tactic(auto)]

mod canonicalization;
mod combination;
mod common_subexpressions;
mod constants;
mod control_flow;
mod dead_code;
mod edge_threading;
mod optimisation;
mod pass_name;
mod pipeline;
mod step;

pub use canonicalization::{Canonicalization, CanonicalizePass};
pub use combination::{Combination, CombinePass, NoRules, max_rewrites};
pub use common_subexpressions::{CSEPass, CommonSubexpressions};
pub use constants::{Constants, SCCPPass};
pub use control_flow::{ControlFlow, SimplifyCFGPass};
pub use dead_code::{DCEPass, DeadCode};
pub use edge_threading::{EdgeThreading, ThreadEdgesPass};
pub use optimisation::{Effect, Optimisation, OptimisingPass};
pub use pass_name::PassName;
pub use pipeline::{Pipeline, Round, Step, pipelines_report_accurately};
pub use pliron_pass::run_pipeline;
pub use step::{PassPipeline, PassStep};
