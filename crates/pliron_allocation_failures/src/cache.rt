//! The cache, answers and lists of passes: after an allocation failure they are as before, or hold a first
//! part.

use crate::observation::Observation;
use pliron_core::{Context, IRStatus, Operation, Ptr};
use pliron_dialect_bench::Bench;
use pliron_laws::OptError;
use pliron_pass::{AnalysisManager, BenchFactKind, BenchFacts, Pass, PassResult, Passes};
use pliron_pass_pipeline::PassStep;
use pliron_text::read_text;
use std::alloc::Global;

static TEXT: &str = "func { b0(): br b1(); b1(): ret }";

/// The facts that are cached for a total, in their order.
static KINDS: [BenchFactKind; 3] = [
    BenchFactKind::Edges,
    BenchFactKind::Size,
    BenchFactKind::Total,
];

// Whether both hold the same fact.
fn is_same_fact(one: Option<&BenchFacts>, other: Option<&BenchFacts>) -> bool {
    match (one, other) {
        (Some(BenchFacts::Edges(pairs)), Some(BenchFacts::Edges(others))) => pairs == others,
        (Some(BenchFacts::Size(size)), Some(BenchFacts::Size(other))) => size == other,
        (Some(BenchFacts::Total(total)), Some(BenchFacts::Total(other))) => total == other,
        _ => false,
    }
}

// How many facts of the operation are cached, if they are the first ones in their order and each is as it is
// computed anew.
fn first_facts(
    root: Ptr<Operation>,
    analyses: &AnalysisManager<BenchFacts>,
    anew: &AnalysisManager<BenchFacts>,
) -> Option<usize> {
    let mut count: usize = 0;
    for kind in &KINDS {
        if analyses.cached_kind(count) != Some(*kind) {
            break;
        }
        if !is_same_fact(
            analyses.try_get_analysis(*kind, root),
            anew.try_get_analysis(*kind, root),
        ) {
            return None;
        }
        count = count.saturating_add(1);
    }
    match analyses.cached_kind(count) {
        Some(_) => None,
        None => Some(count),
    }
}

/// A total is computed with the edges and the size that it needs, which are cached as far as they came.
/// Errors: allocation failure before the call that is tried. Cost: that of the computations.
pub fn check_computing(alloc: Global) -> Result<Observation, OptError> {
    let mut ctx = Context::new(alloc);
    let mut analyses = AnalysisManager::new(alloc);
    let mut anew = AnalysisManager::new(alloc);
    computing_in(alloc, &mut ctx, &mut analyses, &mut anew)
}

fn computing_in(
    alloc: Global,
    ctx: &mut Context,
    analyses: &mut AnalysisManager<BenchFacts>,
    anew: &mut AnalysisManager<BenchFacts>,
) -> Result<Observation, OptError> {
    let Some(root) = read_text(alloc, TEXT.as_bytes(), ctx)? else {
        return Ok(Observation::Wrong);
    };
    let answer = analyses.compute_analysis(BenchFactKind::Total, root, ctx);
    anew.compute_analysis(BenchFactKind::Total, root, ctx)?;
    let count = first_facts(root, analyses, anew);
    Ok(match answer {
        Ok(()) => Observation::of_answer(count == Some(3)),
        Err(OptError::Memory) => Observation::of_refusal(count.map_or(false, |count| count < 3)),
        Err(_) => Observation::Wrong,
    })
}

/// Naming a second kind as preserved, refused, leaves the first one named alone. Errors: allocation failure
/// before the call that is tried. Cost: constant.
pub fn check_preserving(alloc: Global) -> Result<Observation, OptError> {
    let mut ctx = Context::new(alloc);
    let mut analyses = AnalysisManager::new(alloc);
    let mut answer = PassResult::new(alloc);
    preserving_in(alloc, &mut ctx, &mut analyses, &mut answer)
}

fn preserving_in(
    alloc: Global,
    ctx: &mut Context,
    analyses: &mut AnalysisManager<BenchFacts>,
    answer: &mut PassResult<BenchFactKind>,
) -> Result<Observation, OptError> {
    let Some(root) = read_text(alloc, TEXT.as_bytes(), ctx)? else {
        return Ok(Observation::Wrong);
    };
    analyses.compute_analysis(BenchFactKind::Total, root, ctx)?;
    answer.ir_changed = IRStatus::Changed;
    let mut named = Vec::with_capacity(alloc, KINDS.len())?;
    let mut is_refused = false;
    for kind in &KINDS {
        match answer.set_preserved(*kind) {
            Ok(()) => named.push(*kind)?,
            Err(OptError::Memory) => is_refused = true,
            Err(_) => return Ok(Observation::Wrong),
        }
    }
    analyses.retain_preserved(answer);
    let mut is_right = answer.ir_changed == IRStatus::Changed;
    for (place, kind) in named.iter().enumerate() {
        is_right = is_right && analyses.cached_kind(place) == Some(*kind);
    }
    is_right = is_right && analyses.cached_kind(named.len()).is_none();
    Ok(if is_refused {
        Observation::of_refusal(is_right)
    } else {
        Observation::of_answer(is_right)
    })
}

/// Passes are added, more than there is room for at once; one that is refused comes back. Errors: allocation
/// failure before the call that is tried. Cost: linear in the passes.
pub fn check_adding(alloc: Global) -> Result<Observation, OptError> {
    let mut passes = Passes::<PassStep<Bench, BenchFacts>>::new(alloc);
    let mut is_refused = false;
    for name in ["sccp", "dce", "simplify-cfg", "dce", "sccp", "simplify-cfg"] {
        let Some(step) = PassStep::from_name(name) else {
            return Ok(Observation::Wrong);
        };
        if let Err(refused) = passes.add_pass(step) {
            is_refused = true;
            if refused.value.name() != name {
                return Ok(Observation::Wrong);
            }
        }
    }
    Ok(if is_refused {
        Observation::Refused
    } else {
        Observation::Answered
    })
}
