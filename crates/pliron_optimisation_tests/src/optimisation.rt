//! The optimisations, called alike, and how their answers are written.
use crate::control_flow::calls::{Call, call_through};
use pliron_core::{Context, IRStatus, Operation, Ptr};
use pliron_dialect_bench::Bench;
use pliron_laws::{OptError, is_well_linked};
use pliron_opt_canonicalize::{canonicalize, canonicalize_through};
use pliron_opt_cfg::simplify_cfg;
use pliron_opt_cse::{cse, cse_through};
use pliron_opt_dce::dce;
use pliron_opt_sccp::{sccp, sccp_through};
use pliron_test_cases::listener::CountingListener;
use std::alloc::Global;
use std::process::Abort;

/// What is called on an operation.
#[derive(Clone, Copy)]
pub enum Optimisation {
    Canonicalization,
    CommonSubexpressions,
    ControlFlow(Call),
    DeadCode,
    Propagation,
}

impl Optimisation {
    // What it answers.
    pub fn run(
        self,
        rt: &impl Abort,
        alloc: Global,
        ctx: &mut Context,
        root: Ptr<Operation>,
    ) -> Result<IRStatus, OptError> {
        assert!(rt; root.is_live(ctx));
        assert!(rt; is_well_linked::<Bench>(root, ctx));
        match self {
            Optimisation::Canonicalization => canonicalize::<Bench>(alloc, root, ctx),
            Optimisation::CommonSubexpressions => cse::<Bench>(alloc, root, ctx),
            Optimisation::ControlFlow(Call::Simplify) => simplify_cfg::<Bench>(alloc, root, ctx),
            Optimisation::ControlFlow(call) => {
                let mut rewriter = CountingListener::new();
                call_through(rt, alloc, root, ctx, call, &mut rewriter)
            }
            Optimisation::DeadCode => dce::<Bench>(alloc, root, ctx),
            Optimisation::Propagation => sccp::<Bench>(alloc, root, ctx),
        }
    }

    // The same, where each change is made through the rewriter. Dead code elimination runs without one.
    pub fn run_through(
        self,
        rt: &impl Abort,
        alloc: Global,
        ctx: &mut Context,
        root: Ptr<Operation>,
        rewriter: &mut CountingListener,
    ) -> Result<IRStatus, OptError> {
        assert!(rt; root.is_live(ctx));
        assert!(rt; is_well_linked::<Bench>(root, ctx));
        match self {
            Optimisation::Canonicalization => {
                canonicalize_through::<Bench, CountingListener>(alloc, root, ctx, rewriter)
            }
            Optimisation::CommonSubexpressions => {
                cse_through::<Bench, CountingListener>(alloc, root, ctx, rewriter)
            }
            Optimisation::ControlFlow(call) => call_through(rt, alloc, root, ctx, call, rewriter),
            Optimisation::DeadCode => dce::<Bench>(alloc, root, ctx),
            Optimisation::Propagation => sccp_through::<Bench, CountingListener>(
                alloc, root, ctx, rewriter,
            ),
        }
    }
}

// How an answer is written, as in cases.
pub fn letter(answer: Result<IRStatus, OptError>) -> &'static str {
    match answer {
        Ok(IRStatus::Changed) => "C",
        Ok(IRStatus::Unchanged) => "U",
        Err(OptError::LiveUse) => "R",
        Err(_) => "error",
    }
}
