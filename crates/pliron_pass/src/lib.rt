//! Passes over operations, guards, verification, and a cache of analyses.
//!
//! It builds on the theory of runs and the laws of dialects, and knows no optimisation, no dialect and
//! no graph.
#![tactic(auto)]

mod analyses;
mod bench_facts;
mod config;
mod either_pass;
mod guard;
mod headline;
mod kinds;
mod manager;
mod nested;
mod pass;
mod passes;
mod repeat;
mod result;
mod run;
mod verify;

pub use analyses::Analyses;
pub use bench_facts::{BenchFactKind, BenchFacts, count_inside};
pub use config::{PMConfig, PMData, PMState};
pub use either::Either;
pub use guard::{Guard, GuardedPass, OpGuard, OpInterfaceGuard, OpInterfacePass, OpPass};
pub use headline::run_pipeline;
pub use kinds::AnalysisKind;
pub use manager::AnalysisManager;
pub use nested::NestedOpsPass;
pub use pass::Pass;
pub use passes::Passes;
pub use pliron_laws::OptError;
pub use repeat::Repeat;
pub use result::PassResult;
pub use run::{ManagedPass, PassManager};
pub use verify::{HasVerification, verify_operation};
