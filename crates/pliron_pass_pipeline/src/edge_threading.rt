//! Edges led to the ends of their chains, as a pass.
ghost use Rattle.pliron_pass_pipeline.specs.EdgeThreading.{ThreadsEdges, thread_edges_name};

use crate::optimisation::{Effect, Optimisation, OptimisingPass};
use pliron_core::{Context, Operation, Ptr};
use pliron_dialect_edges::BranchesAtOnce;
use pliron_laws::{Dialect, OptError};
use pliron_opt_edges::thread_edges;
use std::alloc::Global;
use std::marker::PhantomData;

/// Edges of a dialect, led past blocks that only jump.
#[derive(Drop)]
pub struct EdgeThreading<D: Dialect + BranchesAtOnce> {
    of: PhantomData<D>,
}

impl<D: Dialect + BranchesAtOnce> Optimisation for EdgeThreading<D> {
    type D = D;

    ghost name = { thread_edges_name };

    ghost outcome = { λ t t' op r. ThreadsEdges D.meaning.is_branch t t' op r };

    fn name() -> &'static str {
        "thread-edges"
    }

    fn optimise(alloc: Global, op: Ptr<Operation>, ctx: &mut Context) -> Result<Effect, OptError> {
        let status = thread_edges::<D>(alloc, op, ctx)?;
        Ok(Effect {
            status,
            keeps_edges: false,
        })
    }
}

/// Edges led to the ends of their chains, as a pass named `thread-edges`. It preserves nothing where it changes the tree.
pub type ThreadEdgesPass<D, E> = OptimisingPass<EdgeThreading<D>, E>;
