//! Common subexpression elimination as a pass.
ghost use Rattle.pliron_pass_pipeline.specs.CommonSubexpressions.{EliminatesRedundancy, cse_name};

use crate::optimisation::{Effect, Optimisation, OptimisingPass};
use pliron_core::{Context, Operation, Ptr};
use pliron_laws::{Dialect, OptError};
use pliron_opt_cse::cse;
use std::alloc::Global;
use std::marker::PhantomData;

/// Common subexpression elimination of a dialect.
#[derive(Drop)]
pub struct CommonSubexpressions<D: Dialect> {
    of: PhantomData<D>,
}

impl<D: Dialect> Optimisation for CommonSubexpressions<D> {
    type D = D;

    ghost name = { cse_name };

    ghost outcome = { λ t t' op r. EliminatesRedundancy D.side_effects t t' op r };

    fn name() -> &'static str {
        "cse"
    }

    fn optimise(alloc: Global, op: Ptr<Operation>, ctx: &mut Context) -> Result<Effect, OptError> {
        let status = cse::<D>(alloc, op, ctx)?;
        Ok(Effect {
            status,
            keeps_edges: true,
        })
    }
}

/// Common subexpression elimination as a pass, named `cse`. It preserves the cached kinds of analyses that read edges
/// alone.
pub type CSEPass<D, E> = OptimisingPass<CommonSubexpressions<D>, E>;
