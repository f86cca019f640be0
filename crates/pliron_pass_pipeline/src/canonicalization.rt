//! Canonicalization as a pass.
ghost use Rattle.pliron_pass_pipeline.specs.Canonicalized.{Canonicalizes, canonicalize_name};

use crate::optimisation::{Effect, Optimisation, OptimisingPass};
use pliron_core::{Context, Operation, Ptr};
use pliron_laws::{Dialect, OptError};
use pliron_opt_canonicalize::canonicalize;
use pliron_rewrite_operands::HasOperandFolding;
use std::alloc::Global;
use std::marker::PhantomData;

/// Canonicalization of a dialect.
#[derive(Drop)]
pub struct Canonicalization<D: Dialect> {
    of: PhantomData<D>,
}

impl<D: Dialect> Optimisation for Canonicalization<D> {
    type D = D;

    ghost name = { canonicalize_name };

    ghost outcome = { λ t t' op r. Canonicalizes ⟦<D as HasOperandFolding>⟧.operand_folding t t' op r };

    fn name() -> &'static str {
        "canonicalize"
    }

    fn optimise(alloc: Global, op: Ptr<Operation>, ctx: &mut Context) -> Result<Effect, OptError> {
        let status = canonicalize::<D>(alloc, op, ctx)?;
        Ok(Effect {
            status,
            keeps_edges: true,
        })
    }
}

/// Canonicalization as a pass, named `canonicalize`. It preserves the cached kinds of analyses that read edges alone.
pub type CanonicalizePass<D, E> = OptimisingPass<Canonicalization<D>, E>;
