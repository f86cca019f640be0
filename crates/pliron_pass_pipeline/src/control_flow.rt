//! The simplification of control flow as a pass.
ghost use Rattle.pliron_pass_pipeline.specs.ControlFlow.{SimplifiesControlFlow, simplify_cfg_name};

use crate::optimisation::{Effect, Optimisation, OptimisingPass};
use pliron_core::{Context, Operation, Ptr};
use pliron_laws::{Dialect, OptError};
use pliron_opt_cfg::simplify_cfg;
use std::alloc::Global;
use std::marker::PhantomData;

/// The simplification of control flow of a dialect.
#[derive(Drop)]
pub struct ControlFlow<D: Dialect> {
    of: PhantomData<D>,
}

impl<D: Dialect> Optimisation for ControlFlow<D> {
    type D = D;

    ghost name = { simplify_cfg_name };

    ghost outcome = { λ t t' op r. SimplifiesControlFlow D.meaning D.can_fold D.can_fold_branch D.constants
        D.BranchOpFoldInterface.outcome t t' op r };

    fn name() -> &'static str {
        "simplify-cfg"
    }

    fn optimise(alloc: Global, op: Ptr<Operation>, ctx: &mut Context) -> Result<Effect, OptError> {
        let status = simplify_cfg::<D>(alloc, op, ctx)?;
        Ok(Effect {
            status,
            keeps_edges: false,
        })
    }
}

/// The simplification of control flow as a pass, named `simplify-cfg`. It preserves nothing.
pub type SimplifyCFGPass<D, E> = OptimisingPass<ControlFlow<D>, E>;
