//! One of the passes here.
ghost use Rattle.std.specs.Prelude.{◌≡◌, false, IfSome, IfNone};
ghost use Rattle.pliron_pass_pipeline.specs.AccurateSteps.{optimisation_same};
ghost use Rattle.pliron_pass_pipeline.specs.Optimising.{RunsOptimisation};
ghost use Rattle.pliron_pass_pipeline.specs.PassNames.{IsNoPass};
ghost use Rattle.pliron_pass_pipeline.specs.PassSteps.{of_step, step_name};

use crate::canonicalization::{Canonicalization, CanonicalizePass};
use crate::combination::{Combination, CombinePass, NoRules};
use crate::common_subexpressions::{CSEPass, CommonSubexpressions};
use crate::constants::{Constants, SCCPPass};
use crate::control_flow::{ControlFlow, SimplifyCFGPass};
use crate::dead_code::{DCEPass, DeadCode};
use crate::edge_threading::{EdgeThreading, ThreadEdgesPass};
use crate::optimisation::Optimisation;
use crate::pass_name::PassName;
use crate::pipeline::{Pipeline, Step};
use pliron_core::{Context, Operation, Ptr};
use pliron_dialect_edges::BranchesAtOnce;
use pliron_laws::{Dialect, OptError};
use pliron_pass::{Analyses, AnalysisKind, AnalysisManager, Pass, PassResult};
use pliron_rewrite_rules::Rules;
use std::alloc::Global;

/// One of the seven passes, for pipelines of different ones; `combine` with the rules `L`.
#[derive(Drop)]
pub enum PassStep<D: Dialect + BranchesAtOnce, E: Analyses + Drop, L: Rules<D> = NoRules> {
    Sccp(SCCPPass<D, E>),
    Dce(DCEPass<D, E>),
    SimplifyCfg(SimplifyCFGPass<D, E>),
    Cse(CSEPass<D, E>),
    Canonicalize(CanonicalizePass<D, E>),
    Combine(CombinePass<D, L, E>),
    ThreadEdges(ThreadEdgesPass<D, E>),
}

impl<D: Dialect + BranchesAtOnce, E: Analyses + Drop, L: Rules<D>> PassStep<D, E, L> {
    /// The pass of this name. Cost: constant.
    pub fn from_name(name: &str) -> Option<Self>
        ensures named { IfSome result (λ step. step_name step ≡ name.now) }
        ensures unknown { IfNone result (IsNoPass name.now) }
    {
        match PassName::from_name(name) {
            Some(PassName::Sccp) => Some(PassStep::Sccp(SCCPPass::new())),
            Some(PassName::Dce) => Some(PassStep::Dce(DCEPass::new())),
            Some(PassName::SimplifyCfg) => Some(PassStep::SimplifyCfg(SimplifyCFGPass::new())),
            Some(PassName::Cse) => Some(PassStep::Cse(CSEPass::new())),
            Some(PassName::Canonicalize) => Some(PassStep::Canonicalize(CanonicalizePass::new())),
            Some(PassName::Combine) => Some(PassStep::Combine(CombinePass::new())),
            Some(PassName::ThreadEdges) => Some(PassStep::ThreadEdges(ThreadEdgesPass::new())),
            None => None,
        }
    }
}

impl<D: Dialect + BranchesAtOnce, E: Analyses + Drop, L: Rules<D>> Pass for PassStep<D, E, L> {
    type D = D;

    type E = E;

    ghost is_pass_manager = { λ p. false };

    ghost name = { step_name };

    ghost outcome = { λ p p' op s s' r. (step_name p' ≡ step_name p)
        × RunsOptimisation E.Kind.eq E.reads_edges_alone (of_step
        ⟦<Constants<D> as Optimisation>⟧.outcome
        ⟦<DeadCode<D> as Optimisation>⟧.outcome
        ⟦<ControlFlow<D> as Optimisation>⟧.outcome
        ⟦<CommonSubexpressions<D> as Optimisation>⟧.outcome
        ⟦<Canonicalization<D> as Optimisation>⟧.outcome
        ⟦<Combination<D, L> as Optimisation>⟧.outcome
        ⟦<EdgeThreading<D> as Optimisation>⟧.outcome p) op s s' r };

    fn name(&self) -> &str {
        match self {
            PassStep::Sccp(pass) => pass.name(),
            PassStep::Dce(pass) => pass.name(),
            PassStep::SimplifyCfg(pass) => pass.name(),
            PassStep::Cse(pass) => pass.name(),
            PassStep::Canonicalize(pass) => pass.name(),
            PassStep::Combine(pass) => pass.name(),
            PassStep::ThreadEdges(pass) => pass.name(),
        }
    }

    fn run(
        &mut self,
        alloc: Global,
        op: Ptr<Operation>,
        ctx: &mut Context,
        analyses: &mut AnalysisManager<E>,
    ) -> Result<PassResult<<E as AnalysisKind>::Kind>, OptError> {
        match self {
            PassStep::Sccp(pass) => pass.run(alloc, op, ctx, analyses),
            PassStep::Dce(pass) => pass.run(alloc, op, ctx, analyses),
            PassStep::SimplifyCfg(pass) => pass.run(alloc, op, ctx, analyses),
            PassStep::Cse(pass) => pass.run(alloc, op, ctx, analyses),
            PassStep::Canonicalize(pass) => pass.run(alloc, op, ctx, analyses),
            PassStep::Combine(pass) => pass.run(alloc, op, ctx, analyses),
            PassStep::ThreadEdges(pass) => pass.run(alloc, op, ctx, analyses),
        }
    }

    fn is_pass_manager(&self) -> bool {
        false
    }
}

impl<D: Dialect + BranchesAtOnce, E: Analyses + Drop, L: Rules<D>> Step for PassStep<D, E, L> {
    ghost accurate = { record { same = λ p q op s s' a runs. optimisation_same _ _ _ op s s' a runs.1 } };
}

/// A pipeline of the passes here.
pub type PassPipeline<D, E, L = NoRules> = Pipeline<PassStep<D, E, L>>;
