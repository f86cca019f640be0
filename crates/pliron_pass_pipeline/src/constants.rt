//! Constant propagation as a pass.
ghost use Rattle.pliron_pass_pipeline.specs.Constants.{PropagatesConstants, sccp_name};

use crate::optimisation::{Effect, Optimisation, OptimisingPass};
use pliron_core::{Context, Operation, Ptr};
use pliron_laws::{Dialect, OptError};
use pliron_opt_sccp::sccp;
use pliron_theory::HasFolding;
use std::alloc::Global;
use std::marker::PhantomData;

/// Constant propagation of a dialect.
#[derive(Drop)]
pub struct Constants<D: Dialect> {
    of: PhantomData<D>,
}

impl<D: Dialect> Optimisation for Constants<D> {
    type D = D;

    ghost name = { sccp_name };

    ghost outcome = { λ t t' op r. PropagatesConstants ⟦<D as HasFolding>⟧.folding D.accepts D.constant_head
        D.ConstFoldInterface.outcome t t' op r };

    fn name() -> &'static str {
        "sccp"
    }

    fn optimise(alloc: Global, op: Ptr<Operation>, ctx: &mut Context) -> Result<Effect, OptError> {
        let status = sccp::<D>(alloc, op, ctx)?;
        Ok(Effect {
            status,
            keeps_edges: true,
        })
    }
}

/// Constant propagation as a pass, named `sccp`. It preserves the cached kinds of analyses that read edges
/// alone.
pub type SCCPPass<D, E> = OptimisingPass<Constants<D>, E>;
