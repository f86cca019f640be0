//! A pass that is instrumented.
ghost use Rattle.std.specs.Prelude.{◌≡◌, false};
ghost use Rattle.pliron_core.specs.Tree.{IsLive};
ghost use Rattle.pliron_pass_pipeline.specs.AccurateSteps.{optimisation_same};

use crate::comparison::{ContentsComparison, Snapshot};
use crate::progress::Progress;
use crate::run_records::{InstrumentationRecord, RunMeasure, RunNote};
use pliron_core::{Context, IRStatus, Operation, Ptr};
use pliron_driver::Notation;
use pliron_laws::OptError;
use pliron_pass::{AnalysisKind, AnalysisManager, BenchFacts, Pass, PassResult, verify_operation};
use pliron_pass_pipeline::{PassStep, Step};
use std::alloc::{AllocError, Global};
use std::time::Clock;

/// What is recorded around each run of a pass.
#[derive(Clone, Copy, Debug, Drop)]
pub struct Instrumentation {
    /// Whether what is inside the operation is compared before and after.
    pub counts: bool,
    /// Whether the operation is verified after.
    pub verifies: bool,
    /// Whether the operation is printed after.
    pub prints: bool,
}

/// One of the passes, which notes what is seen of its runs. It does to trees and caches what the pass does.
#[derive(Drop)]
pub struct InstrumentedStep<N: Notation, C: Progress + Drop> {
    step: PassStep<N::D, BenchFacts, N::Rules>,
    instrumentation: Instrumentation,
    clock: C,
    records: InstrumentationRecord,
}

// What was inside the operation, what is there now, and what was rewritten, where it is known what was there.
fn compare_after(before: &Option<Snapshot>, op: Ptr<Operation>, ctx: &Context) -> ContentsComparison
    requires { IsLive ctx.now.tree op }
{
    match before {
        Some(snapshot) => snapshot.compare(op, ctx),
        None => ContentsComparison::none(),
    }
}

// The time of the clock in nanoseconds; 0 where it can't be read.
fn nanos<C: Clock>(clock: &C) -> u128 {
    match clock.monotonic() {
        Ok(time) => time.as_nanos(),
        Err(_) => 0,
    }
}

impl<N: Notation, C: Progress + Drop> InstrumentedStep<N, C> {
    /// The pass, of which nothing was noted. Cost: constant.
    pub fn new(
        alloc: Global,
        step: PassStep<N::D, BenchFacts, N::Rules>,
        instrumentation: Instrumentation,
        clock: C,
    ) -> Self
        ensures { result.step ≡ step }
    {
        InstrumentedStep {
            step,
            instrumentation,
            clock,
            records: InstrumentationRecord::new(alloc),
        }
    }

    /// The name of the pass. Cost: constant.
    pub fn pass_name(&self) -> &str
        ensures { result.now ≡ ⟦<PassStep<N::D, BenchFacts, N::Rules> as Pass>⟧.name self.now.step }
    {
        self.step.name()
    }

    /// What was noted of its runs. Cost: constant.
    pub fn run_record(&self) -> &InstrumentationRecord
        ensures { result.now ≡ self.now.records }
    {
        &self.records
    }

    // What is inside the operation, where the options ask for a comparison.
    fn snapshot(&mut self, alloc: Global, op: Ptr<Operation>, ctx: &Context) -> Option<Snapshot>
        requires { IsLive ctx.now.tree op }
        ensures { self.new.step ≡ self.old.step }
    {
        if !self.instrumentation.counts {
            return None;
        }
        let snapshot = Snapshot::of(alloc, op, ctx).ok();
        if snapshot.is_none() {
            self.records.is_short = true;
        }
        snapshot
    }

    // What verifying the operation finds and how it is printed, as far as the options ask for it.
    fn verify_and_print(
        &self,
        alloc: Global,
        op: Ptr<Operation>,
        ctx: &Context,
    ) -> Result<(Option<OptError>, Option<String>), OptError>
        requires { IsLive ctx.now.tree op }
    {
        let fault = if self.instrumentation.verifies {
            verify_operation::<N::D>(alloc, op, ctx).err()
        } else {
            None
        };
        let printed = if self.instrumentation.prints {
            let printed = N::print(alloc, op, ctx)?;
            Some(String::from_utf8_lossy(alloc, &printed)?)
        } else {
            None
        };
        Ok((fault, printed))
    }

    // Notes the run, before which so many passes ran.
    fn note(
        &mut self,
        alloc: Global,
        number: usize,
        run: &RunMeasure,
        ctx: &Context,
    ) -> Result<(), OptError>
        requires { IsLive ctx.now.tree run.now.op }
        ensures { self.new.step ≡ self.old.step }
    {
        self.records.add_run(run)?;
        if self.instrumentation.verifies || self.instrumentation.prints {
            let (fault, printed) = self.verify_and_print(alloc, run.op, ctx)?;
            self.records.notes.push(RunNote {
                number,
                status: run.status,
                fault,
                printed,
            })?;
        }
        Ok(())
    }
}

impl<N: Notation, C: Progress + Drop> Pass for InstrumentedStep<N, C> {
    type D = N::D;

    type E = BenchFacts;

    ghost is_pass_manager = { λ p. false };

    ghost name = { λ p. ⟦<PassStep<N::D, BenchFacts, N::Rules> as Pass>⟧.name p.step };

    ghost outcome = { λ p p' op s s' r.
        ⟦<PassStep<N::D, BenchFacts, N::Rules> as Pass>⟧.outcome p.step p'.step op s s' r };

    fn name(&self) -> &str {
        self.step.name()
    }

    fn run(
        &mut self,
        alloc: Global,
        op: Ptr<Operation>,
        ctx: &mut Context,
        analyses: &mut AnalysisManager<BenchFacts>,
    ) -> Result<PassResult<<BenchFacts as AnalysisKind>::Kind>, OptError> {
        let number = analyses.pm_data().state().pass_run_count;
        let before = self.snapshot(alloc, op, ctx);
        let start = nanos(&self.clock);
        let answer = self.step.run(alloc, op, ctx, analyses);
        let nanos = nanos(&self.clock).saturating_sub(start);
        match &answer {
            Ok(answer) => {
                let run = RunMeasure {
                    op,
                    status: answer.ir_changed,
                    compared: compare_after(&before, op, ctx),
                    nanos,
                };
                if self.note(alloc, number, &run, ctx).is_err() {
                    self.records.is_short = true;
                }
            }
            Err(error) => self.records.refused = Some(*error),
        }
        self.clock.pass_ended(number, self.step.name());
        answer
    }

    fn is_pass_manager(&self) -> bool {
        false
    }
}

impl<N: Notation, C: Progress + Drop> Step for InstrumentedStep<N, C> {
    ghost accurate = { record { same = λ p q op s s' a runs. optimisation_same _ _ _ op s s' a runs.1 } };
}

/// Whether verifying found something after a run of one of the passes. Cost: linear in the runs.
pub fn has_fault<N: Notation, C: Progress + Drop>(passes: &[InstrumentedStep<N, C>]) -> bool {
    passes.iter().any(|pass| pass.records.notes.iter().any(|note| note.fault.is_some()))
}

/// Whether something is missing in what was noted of the passes, since memory was refused. Cost: linear in the passes.
pub fn is_short<N: Notation, C: Progress + Drop>(passes: &[InstrumentedStep<N, C>]) -> bool {
    passes.iter().any(|pass| pass.records.is_short)
}
