//! The arguments that name passes and a text.
use clap::ArgMatches;
use pliron_driver::without_blanks;
use pliron_show_commands::{PipelineText, PlanError};
use std::alloc::{AllocError, Global};

// Whether the argument is a pipeline.
fn is_pipeline(alloc: Global, argument: &str) -> Result<bool, AllocError> {
    let text = without_blanks(alloc, argument)?;
    match PipelineText::read(alloc, text.as_str()) {
        Ok(_) => Ok(true),
        Err(PlanError::Word(_)) => Ok(false),
        Err(PlanError::Memory) => Err(AllocError),
    }
}

/// The pipeline and the file that the arguments name; the file is `-` where none is named. The pipeline comes first,
/// except where the second argument is one and the first isn't. Errors: allocation failure. Cost: linear in them.
pub fn pipeline_and_file<'a>(
    alloc: Global,
    matches: &ArgMatches<'a>,
) -> Result<(&'a str, &'a str), AllocError> {
    let first = matches.get_str("pipeline").unwrap_or("");
    match matches.get_str("file") {
        Some(second)
            if !first.is_empty() && !is_pipeline(alloc, first)? && is_pipeline(alloc, second)? => {
            Ok((second, first))
        }
        second => Ok((first, second.unwrap_or("-"))),
    }
}

/// The first so many passes of the pipeline, with its repetitions written out: the same pipeline where it has no more.
/// What plans no passes stays as it is. Errors: allocation failure. Cost: linear in what is written.
pub fn first_passes(alloc: Global, pipeline: &str, most: usize) -> Result<String, AllocError> {
    let plan = match PipelineText::read(alloc, pipeline) {
        Ok(plan) => plan,
        Err(PlanError::Word(_)) => return String::from_str(alloc, pipeline),
        Err(PlanError::Memory) => return Err(AllocError),
    };
    let runs = plan.runs.unwrap_or(1);
    if most >= runs.saturating_mul(plan.names.len()) {
        return String::from_str(alloc, pipeline);
    }
    let mut text = String::from_str(alloc, if plan.nested { "nested(" } else { "" })?;
    let mut left = most;
    for _ in 0..runs {
        for name in &plan.names {
            if left > 0 {
                text.push_str(if left == most { "" } else { "," })?;
                text.push_str(name)?;
                left = left.saturating_sub(1);
            }
        }
    }
    text.push_str(if plan.nested { ")" } else { "" })?;
    Ok(text)
}
