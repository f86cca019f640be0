//! Linked runs: what functions do that call one another, in all modules of a program.
//!
//! As in the theory of runs, a call here does nothing when it runs: its contract is a law, for every meaning.
//!
//! It knows the theory of runs and passes, and no dialect: a calling convention says which effects are calls.
#![tactic(auto)]

mod passes;

ghost use Rattle.pliron_pass_linked.specs.LinkedLaws.{LinkedKeepingLaws, LinkedRunsAgree, LinkedRunsAgreeOnInputs};

pub use passes::run_pipeline_in_program;

/// Where each function that is called by a name does the same by itself, whatever answers its calls, linked runs
/// do: with recursion, and with callbacks by the world.
pub fn linked_runs_agree()
    ensures { LinkedRunsAgree }
{}

/// The same where functions do so on some inputs alone, if runs on such inputs call on such inputs, and the world
/// calls back only what does the same on all.
pub fn linked_runs_agree_on_inputs()
    ensures { LinkedRunsAgreeOnInputs }
{}

/// "Linked runs are kept" is reflexive and transitive. It follows where runs are kept in each module, as by passes.
pub fn linked_runs_kept()
    ensures { LinkedKeepingLaws }
{}
