//! Pipelines: steps in turn, in whatever rounds. They report accurately whether they changed the tree, since their steps
//! do.
ghost use Rattle.pliron_pass_pipeline.specs.ChangeReports.{IsAccurate};

use pliron_pass::{Either, NestedOpsPass, Pass, Passes, Repeat};

/// A pass that stands in pipelines.
pub trait Step: Pass + Drop {
    // Where it answers `Unchanged`, the tree is the same but for erased handles.
    ghost accurate: { IsAccurate Self.outcome };
}

/// A round of a pipeline: steps in turn, on an operation itself (`Left`), or on each operation directly inside it.
pub type Round<S> = Either<Passes<S>, NestedOpsPass<Passes<S>>>;

/// A pipeline: a round once (`Left`), or again and again until it changes nothing, at most so many times.
pub type Pipeline<S> = Either<Round<S>, Repeat<Round<S>>>;

// A list of steps reports accurately.
fn lists_report_accurately<S: Step>()
    ensures { IsAccurate ⟦<Passes<S> as Pass>⟧.outcome }
{}

// So does a round.
fn rounds_report_accurately<S: Step>()
    ensures { IsAccurate ⟦<Round<S> as Pass>⟧.outcome }
{
    lists_report_accurately::<S>();
}

/// Each pipeline reports accurately: where it answers `Unchanged`, the tree is the same but for erased handles.
/// A law: it does nothing. Cost: constant.
pub fn pipelines_report_accurately<S: Step>()
    ensures { IsAccurate ⟦<Pipeline<S> as Pass>⟧.outcome }
{
    rounds_report_accurately::<S>();
}
