//! Runs of dialects by roles, and what small dialects of 64-bit numbers take for their tables and moves.
#![tactic(auto)]

mod counts;
mod data;
mod edges;
pub mod entries;
mod identities;
mod interprets;
mod known;
pub mod numbers;
pub mod own_moves;
pub mod plain;
mod role_moves;
pub mod world_moves;

pub use counts::Counts;
pub use data::{all_copies, fitted_to};
pub use interprets::Interprets;
pub use known::{KnownRun, evaluate_known};
pub use role_moves::{RunByRoles, known_move};
