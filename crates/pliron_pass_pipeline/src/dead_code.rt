//! Dead code elimination as a pass.
ghost use Rattle.pliron_pass_pipeline.specs.DeadCode.{EliminatesDead, dce_name};

use crate::optimisation::{Effect, Optimisation, OptimisingPass};
use pliron_core::{Context, Operation, Ptr};
use pliron_laws::{Dialect, OptError};
use pliron_opt_dce::dce_with_regions;
use std::alloc::Global;
use std::marker::PhantomData;

/// Dead code elimination of a dialect.
#[derive(Drop)]
pub struct DeadCode<D: Dialect> {
    of: PhantomData<D>,
}

impl<D: Dialect> Optimisation for DeadCode<D> {
    type D = D;

    ghost name = { dce_name };

    ghost outcome = { λ t t' op r. EliminatesDead D.meaning D.shortened D.side_effects D.removable t t' op r };

    fn name() -> &'static str {
        "dce"
    }

    fn optimise(alloc: Global, op: Ptr<Operation>, ctx: &mut Context) -> Result<Effect, OptError> {
        let (status, took_regions) = dce_with_regions::<D>(alloc, op, ctx)?;
        Ok(Effect {
            status,
            keeps_edges: !took_regions,
        })
    }
}

/// Dead code elimination as a pass, named `dce`. It preserves the cached kinds of analyses that read edges
/// alone, unless an operation with regions was erased.
pub type DCEPass<D, E> = OptimisingPass<DeadCode<D>, E>;
