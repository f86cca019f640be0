//! Each combinator, refused in the middle: the tree is one after whole rewrites, and nothing is cached.
ghost use Rattle.pliron_dialect_bench.specs.BenchMoves.{bench};
ghost use Rattle.pliron_core.specs.Tree.{IsLive};
ghost use Rattle.pliron_laws.specs.Linked.{IsWellLinked};

use crate::observation::Observation;
use crate::optimisations::seen_of;
use pliron_core::{Context, IRStatus, Operation, Ptr};
use pliron_dialect_bench::{Bench, BenchKind};
use pliron_laws::OptError;
use pliron_pass::{
    AnalysisManager, BenchFactKind, BenchFacts, GuardedPass, NestedOpsPass, OpGuard, PassManager,
    PassResult, Passes, Repeat,
};
use pliron_pass_pipeline::PassStep;
use pliron_text::{print_text, read_text};
use std::alloc::Global;

/// A combinator, the text on which `sccp` and `dce` run in it, and the trees after some whole rewrites, the
/// last of which is the answer. Of two dead constants either may be erased first.
static CASES: &str = "\
passes | func { b0(): a = const 1; b = const 2; c = add a b; ret c } \
    | func { b0(): v0 = const 1; v1 = const 2; v2 = add v0 v1; ret v2 } \
    | func { b0(): v0 = const 1; v1 = const 2; v2 = const 3; v3 = add v0 v1; ret v2 } \
    | func { b0(): v0 = const 1; v1 = const 2; v2 = const 3; ret v2 } \
    | func { b0(): v0 = const 2; v1 = const 3; ret v1 } \
    | func { b0(): v0 = const 1; v1 = const 3; ret v1 } \
    | func { b0(): v0 = const 3; ret v0 }
guarded | func { b0(): a = const 1; b = const 2; c = add a b; ret c } \
    | func { b0(): v0 = const 1; v1 = const 2; v2 = add v0 v1; ret v2 } \
    | func { b0(): v0 = const 1; v1 = const 2; v2 = const 3; v3 = add v0 v1; ret v2 } \
    | func { b0(): v0 = const 1; v1 = const 2; v2 = const 3; ret v2 } \
    | func { b0(): v0 = const 2; v1 = const 3; ret v1 } \
    | func { b0(): v0 = const 1; v1 = const 3; ret v1 } \
    | func { b0(): v0 = const 3; ret v0 }
repeat | func { b0(): a = const 1; b = const 2; c = add a b; ret c } \
    | func { b0(): v0 = const 1; v1 = const 2; v2 = add v0 v1; ret v2 } \
    | func { b0(): v0 = const 1; v1 = const 2; v2 = const 3; v3 = add v0 v1; ret v2 } \
    | func { b0(): v0 = const 1; v1 = const 2; v2 = const 3; ret v2 } \
    | func { b0(): v0 = const 2; v1 = const 3; ret v1 } \
    | func { b0(): v0 = const 1; v1 = const 3; ret v1 } \
    | func { b0(): v0 = const 3; ret v0 }
nested | mod { b0(): func { b0(): a = const 1; c = add a a; ret c }; func { b0(): d = const 4; ret } } \
    | mod { b0(): func { b0(): v0 = const 1; v1 = add v0 v0; ret v1 }; func { b0(): v0 = const 4; ret } } \
    | mod { b0(): func { b0(): v0 = const 1; v1 = const 2; v2 = add v0 v0; ret v1 }; func { b0(): v0 = const 4; ret } } \
    | mod { b0(): func { b0(): v0 = const 1; v1 = const 2; ret v1 }; func { b0(): v0 = const 4; ret } } \
    | mod { b0(): func { b0(): v0 = const 2; ret v0 }; func { b0(): v0 = const 4; ret } } \
    | mod { b0(): func { b0(): v0 = const 2; ret v0 }; func { b0(): ret } }";

// A `Passes` of `sccp` and `dce`.
fn both(alloc: Global) -> Result<Passes<PassStep<Bench, BenchFacts>>, OptError> {
    let mut passes = Passes::new(alloc);
    for name in ["sccp", "dce"] {
        if let Some(step) = PassStep::from_name(name) {
            passes.add_pass(step)?;
        }
    }
    Ok(passes)
}

// Runs the passes in the combinator of this name.
fn run(
    alloc: Global,
    name: &str,
    passes: Passes<PassStep<Bench, BenchFacts>>,
    root: Ptr<Operation>,
    ctx: &mut Context,
    analyses: &mut AnalysisManager<BenchFacts>,
) -> Result<PassResult<BenchFactKind>, OptError>
    requires live { IsLive ctx.old.tree root }
    requires linked { IsWellLinked bench ctx.old.tree root }
{
    match name {
        "nested" => {
            let mut pass = NestedOpsPass::new(passes);
            PassManager::run_pass(&mut pass, alloc, root, ctx, analyses)
        }
        "guarded" => {
            let mut pass = GuardedPass::new(OpGuard::<Bench>::new(BenchKind::Func), passes);
            PassManager::run_pass(&mut pass, alloc, root, ctx, analyses)
        }
        "repeat" => {
            let mut pass = Repeat::new(3, passes);
            PassManager::run_pass(&mut pass, alloc, root, ctx, analyses)
        }
        _ => {
            let mut pass = passes;
            PassManager::run_pass(&mut pass, alloc, root, ctx, analyses)
        }
    }
}

// Checks the case in this context and cache, which are empty.
fn check_in(
    alloc: Global,
    case: &str,
    ctx: &mut Context,
    analyses: &mut AnalysisManager<BenchFacts>,
) -> Result<Observation, OptError> {
    let Some((name, rest)) = case.split_once(" | ") else {
        return Ok(Observation::Wrong);
    };
    let Some((text, trees)) = rest.split_once(" | ") else {
        return Ok(Observation::Wrong);
    };
    let Some(root) = read_text(alloc, text.as_bytes(), ctx)? else {
        return Ok(Observation::Wrong);
    };
    analyses.compute_analysis(BenchFactKind::Size, root, ctx)?;
    let passes = both(alloc)?;
    let answer = run(alloc, name, passes, root, ctx, analyses);
    let is_emptied = analyses.cached_kind(0).is_none();
    if !root.is_live(ctx) || (answer.is_err() && !is_emptied) {
        return Ok(Observation::Wrong);
    }
    let line = print_text(alloc, root, ctx)?;
    Ok(seen_of(&answer, trees, &line))
}

fn check_case(alloc: Global, case: &str) -> Result<Observation, OptError> {
    let mut ctx = Context::new(alloc);
    let mut analyses = AnalysisManager::new(alloc);
    check_in(alloc, case, &mut ctx, &mut analyses)
}

/// What is seen of the combinator of the case with this number; none past the last one. Errors: allocation
/// failure beside the combinator. Cost: constant.
pub fn nth_check(alloc: Global, number: usize) -> Option<Result<Observation, OptError>> {
    let case = CASES.lines().nth(number)?;
    Some(check_case(alloc, case))
}
