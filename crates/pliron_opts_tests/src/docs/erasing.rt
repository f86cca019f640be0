//! docs/PASSES.md: a pass that rewrites, over a dialect by roles.
ghost use Rattle.std.specs.Prelude.{◌≡◌, ℕ, false, IfOk};
ghost use Rattle.pliron_core.specs.Tree.{IsLive};
ghost use Rattle.pliron_core.specs.declared.attrs.IRStatus.TheVariants.{Unchanged};
ghost use Rattle.pliron_laws.specs.Linked.{IsWellLinked};
ghost use Rattle.pliron_theory.specs.Change.{IsPassChange};
ghost use Rattle.pliron_opts_tests.specs.declared.docs.erasing.TheConstants.{ERASE_UNUSED};

use crate::expect::expect_text;
use pliron_core::{Contents, Context, IRRewriter, IRStatus, Operation, Ptr};
use pliron_dialect_arithmetic::{Arithmetic, ArithmeticKind};
use pliron_laws::Dialect;
use pliron_pass::{
    AnalysisManager, BenchFactKind, BenchFacts, OptError, Pass, PassResult, run_pipeline,
};
use pliron_pass_rewrites::erase_unused_inside;
use pliron_text::{print_operation, read_operation};
use std::alloc::Global;
use std::process::Abort;

const ERASE_UNUSED: &str = "erase-unused";

/// Erases each operation inside that has no side effects, no regions and no used result, the last one first.
#[derive(Drop)]
pub struct EraseUnused {}

// Erases the operation, if it is such a one inside `root`.
fn erase_if_unused<D: Dialect>(
    alloc: Global,
    root: Ptr<Operation>,
    op: Ptr<Operation>,
    ctx: &mut Context,
) -> Result<IRStatus, OptError>
    requires live { IsLive ctx.old.tree root }
    requires linked { IsWellLinked D.meaning ctx.old.tree root }
    ensures change { IsPassChange D.meaning ctx.old.tree ctx.new.tree root }
    ensures same { IfOk result (λ status. status ≡ Unchanged → ctx.new.tree ≡ ctx.old.tree) }
{
    if !op.is_live(ctx)
        || !op.is_inside(root, ctx)
        || op.num_region(ctx) != 0
        || !op.is_self_contained(ctx)
    {
        return Ok(IRStatus::Unchanged);
    }
    let mut rewriter = IRRewriter::new();
    erase_unused_inside::<D, IRRewriter>(alloc, root, op, ctx, &mut rewriter)
}

// The same of each operation inside.
fn erase_each<D: Dialect>(
    alloc: Global,
    root: Ptr<Operation>,
    ctx: &mut Context,
) -> Result<IRStatus, OptError>
    requires live { IsLive ctx.old.tree root }
    requires linked { IsWellLinked D.meaning ctx.old.tree root }
    ensures change { IsPassChange D.meaning ctx.old.tree ctx.new.tree root }
    ensures same { IfOk result (λ status. status ≡ Unchanged → ctx.new.tree ≡ ctx.old.tree) }
{
    let mut changed = IRStatus::Unchanged;
    let mut inside: Vec<Ptr<Operation>> = Contents::new(root, ctx).collect(alloc)?;
    while let Some(last) = inside.pop() {
        changed |= erase_if_unused::<D>(alloc, root, last, ctx)?;
    }
    Ok(changed)
}

impl Pass for EraseUnused {
    type D = Arithmetic;

    type E = BenchFacts;

    ghost is_pass_manager = { λ p. false };

    ghost name = { λ p. ERASE_UNUSED.now };

    ghost outcome = { λ p p' op s s' r. (p' ≡ p) × (s'.cache ≡ s.cache) × (s'.common ≡ s.common) };

    fn name(&self) -> &str {
        ERASE_UNUSED
    }

    fn run(
        &mut self,
        alloc: Global,
        op: Ptr<Operation>,
        ctx: &mut Context,
        _analyses: &mut AnalysisManager<BenchFacts>,
    ) -> Result<PassResult<BenchFactKind>, OptError> {
        let changed = erase_each::<Arithmetic>(alloc, op, ctx)?;
        let mut answer = PassResult::new(alloc);
        answer.ir_changed = changed;
        Ok(answer)
    }

    fn is_pass_manager(&self) -> bool {
        false
    }
}

fn left_in(rt: &impl Abort, alloc: Global, ctx: &mut Context, text: &str, is: IRStatus) -> String {
    let read = read_operation::<ArithmeticKind>(alloc, text.as_bytes(), ctx).expect(rt, "memory");
    let root = read.expect(rt, "readable");
    let mut analyses = AnalysisManager::<BenchFacts>::new(alloc);
    let status = run_pipeline(&mut EraseUnused {}, alloc, root, ctx, &mut analyses);
    assert!(rt; status.expect(rt, "memory") == is);
    assert!(rt; root.is_live(ctx));
    print_operation::<ArithmeticKind>(alloc, root, ctx).expect(rt, "memory")
}

#[test]
fn erases_chains(rt: HostRuntime) {
    let mut ctx = Context::new(rt.alloc());
    let text =
        "function { b0(x): a = lit 6; n = neg a; p = mul n a; if x { t(): k = lit 1; return } { }; return x }";
    let left = left_in(&rt, rt.alloc(), &mut ctx, text, IRStatus::Changed);
    let want = "function { b0(v0): if v0 { b0(): return } { }; return v0 }";
    expect_text(&rt, left.as_str(), want, "a chain");
}

#[test]
fn keeps_what_is_used(rt: HostRuntime) {
    let mut ctx = Context::new(rt.alloc());
    let text = "function { b0(v0): v1 = lit 6; v2 = add v0 v1; return v2 }";
    let left = left_in(&rt, rt.alloc(), &mut ctx, text, IRStatus::Unchanged);
    expect_text(&rt, left.as_str(), text, "no chain");
}
