//! The instrumented pipeline that a text asks for.
ghost use Rattle.std.specs.Prelude.{◌≡◌, map, IfOk, IfSome};
ghost use Rattle.pliron_pass_pipeline.specs.Pipelines.{IsPipelineOf};

use crate::instrumented::{Instrumentation, InstrumentedStep};
use crate::progress::Progress;
use pliron_driver::{Notation, PipelineText, StepFactory, build_pipeline};
use pliron_pass::Pass;
use pliron_pass_pipeline::{PassStep, Pipeline};
use std::alloc::{AllocError, Global};
use std::marker::PhantomData;

/// A pipeline of instrumented passes.
pub type InstrumentedPipeline<N, C> = Pipeline<InstrumentedStep<N, C>>;

/// What the options ask to be recorded around each run of a pass.
#[derive(Clone, Copy)]
pub struct InstrumentationOptions<'w> {
    /// Whether what is inside the operation is compared before and after.
    pub counts: bool,
    /// Whether the operation is verified after.
    pub verifies: bool,
    /// Whether the operation is printed after each pass.
    pub prints_all: bool,
    /// The names of passes after which it is printed.
    pub prints: &'w [&'w str],
}

impl<'w> InstrumentationOptions<'w> {
    /// The options that ask for nothing. Cost: constant.
    pub fn nothing() -> Self {
        InstrumentationOptions {
            counts: false,
            verifies: false,
            prints_all: false,
            prints: &[],
        }
    }

    // What is recorded around the runs of the pass of this name.
    fn instrumentation(&self, name: &str) -> Instrumentation {
        Instrumentation {
            counts: self.counts,
            verifies: self.verifies,
            prints: self.prints_all || self.prints.iter().any(|wanted| *wanted == name),
        }
    }
}

/// Makes passes that are instrumented as the options ask.
#[derive(Drop)]
struct InstrumentedPasses<'w, N, C> {
    options: InstrumentationOptions<'w>,
    clock: C,
    of: PhantomData<N>,
}

impl<N: Notation, C: Progress + Copy + Drop> StepFactory for InstrumentedPasses<'_, N, C> {
    type S = InstrumentedStep<N, C>;

    fn step(&self, alloc: Global, name: &str) -> Option<InstrumentedStep<N, C>> {
        match PassStep::from_name(name) {
            Some(step) => {
                let instrumentation = self.options.instrumentation(name);
                Some(InstrumentedStep::new(alloc, step, instrumentation, self.clock))
            }
            None => None,
        }
    }
}

/// The instrumented pipeline that the text asks for: `None` where one of its names is that of no pass.
///
/// Errors: allocation failure. Cost: linear in the text.
pub fn instrumented_pipeline<N: Notation, C: Progress + Copy + Drop>(
    alloc: Global,
    text: &PipelineText,
    options: &InstrumentationOptions,
    clock: C,
) -> Result<Option<InstrumentedPipeline<N, C>>, AllocError>
    ensures { IfOk result (λ found. IfSome found (λ pipeline. IsPipelineOf ⟦<InstrumentedStep<N, C> as Pass>⟧.name
        text.now.runs text.now.nested (map (λ name. name.now) text.now.names.items) pipeline)) }
{
    let passes = InstrumentedPasses {
        options: *options,
        clock,
        of: PhantomData,
    };
    build_pipeline(alloc, text, &passes)
}
