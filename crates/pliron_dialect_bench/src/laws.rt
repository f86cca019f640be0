//! What the dialect keeps beyond the laws of all dialects, as calls that do nothing when they run.
ghost use Rattle.pliron_laws.specs.Folding.{FoldsMonotonely};
ghost use Rattle.pliron_laws.specs.InPlace.{IsSingle};
ghost use Rattle.pliron_dialect_bench.specs.BenchMoves.{bench};
ghost use Rattle.pliron_dialect_bench.specs.BenchAnswers.{bench_folds, bench_folds_branch, bench_constants, bench_feasible, bench_outcome, bench_branch_outcome};

/// Knowing more operands keeps each constant that folding answers, and adds no block that a branch may
/// go to.
pub fn folds_are_monotone()
    ensures { FoldsMonotonely bench bench_folds bench_folds_branch bench_constants bench_feasible }
{}

/// Without allocation failure, folding in place comes to one tree and one answer.
pub fn folds_have_one_outcome()
    ensures constants { IsSingle bench_outcome }
    ensures branches { IsSingle bench_branch_outcome }
{}
