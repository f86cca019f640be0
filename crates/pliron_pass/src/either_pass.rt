//! One of two passes.
ghost use Rattle.either.specs.Either.{either};
ghost use Rattle.pliron_pass.specs.OneOf.{RunsSame};

use crate::analyses::Analyses;
use crate::kinds::AnalysisKind;
use crate::manager::AnalysisManager;
use crate::pass::Pass;
use crate::result::PassResult;
use either::Either;
use pliron_core::{Context, Operation, Ptr};
use pliron_laws::{Dialect, OptError};
use std::alloc::Global;

/// One of two passes of one dialect and one kind of analyses, for a list of different ones. An `Either` in
/// an `Either` is one of three. It has the name of the pass that is there, and is a manager where that is.
impl<D: Dialect, E: Analyses + Drop, P: Pass<D = D, E = E>, Q: Pass<D = D, E = E>> Pass
    for Either<P, Q> {
    type D = D;

    type E = E;

    ghost is_pass_manager = { either P.is_pass_manager Q.is_pass_manager };

    ghost name = { either P.name Q.name };

    ghost outcome = { RunsSame P.outcome Q.outcome };

    fn name(&self) -> &str {
        match self {
            Either::Left(pass) => pass.name(),
            Either::Right(pass) => pass.name(),
        }
    }

    fn run(
        &mut self,
        alloc: Global,
        op: Ptr<Operation>,
        ctx: &mut Context,
        analyses: &mut AnalysisManager<E>,
    ) -> Result<PassResult<<E as AnalysisKind>::Kind>, OptError> {
        match self {
            Either::Left(pass) => pass.run(alloc, op, ctx, analyses),
            Either::Right(pass) => pass.run(alloc, op, ctx, analyses),
        }
    }

    fn is_pass_manager(&self) -> bool {
        match self {
            Either::Left(pass) => pass.is_pass_manager(),
            Either::Right(pass) => pass.is_pass_manager(),
        }
    }
}
