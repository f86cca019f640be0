//! docs/PASSES.md: a pass that walks over what is directly inside an operation, and rewrites.
ghost use Rattle.std.specs.Prelude.{◌≡◌, ℕ, false, Some, IfOk};
ghost use Rattle.pliron_core.specs.Tree.{IsLive, parent_operation_of};
ghost use Rattle.pliron_core.specs.declared.attrs.IRStatus.TheVariants.{Unchanged};
ghost use Rattle.pliron_laws.specs.Linked.{IsWellLinked};
ghost use Rattle.pliron_dialect_bench.specs.BenchMoves.{bench};
ghost use Rattle.pliron_theory.specs.Change.{IsPassChange};
ghost use Rattle.pliron_opts_tests.specs.declared.docs.walking.TheConstants.{SWEEP_LARGE};

use crate::expect::expect_text;
use pliron_core::{Children, Contents, Context, IRStatus, Operation, Ptr};
use pliron_dialect_bench::Bench;
use pliron_opt_dce::dce;
use pliron_pass::{
    AnalysisManager, BenchFactKind, BenchFacts, OptError, Pass, PassResult, run_pipeline,
};
use pliron_text::{print_text, read_text};
use std::alloc::Global;
use std::process::Abort;

const SWEEP_LARGE: &str = "sweep-large";

/// Takes dead code out of each operation directly inside that has at least so many operations inside it.
#[derive(Drop)]
pub struct SweepLarge {
    pub least: usize,
}

// How many operations are inside the operation.
fn count_inside(op: Ptr<Operation>, ctx: &Context) -> usize
    requires { IsLive ctx.now.tree op }
{
    let mut count: usize = 0;
    for _ in Contents::new(op, ctx) {
        count = count.saturating_add(1);
    }
    count
}

// Takes dead code out of an operation that is directly inside `holder`.
fn sweep_held(
    alloc: Global,
    holder: Ptr<Operation>,
    inner: Ptr<Operation>,
    ctx: &mut Context,
) -> Result<IRStatus, OptError>
    requires linked { IsWellLinked bench ctx.old.tree holder }
    requires held { parent_operation_of ctx.old.tree inner ≡ Some holder }
    ensures change { IsPassChange bench ctx.old.tree ctx.new.tree holder }
    ensures same { IfOk result (λ status. status ≡ Unchanged → ctx.new.tree ≡ ctx.old.tree) }
{
    ctx.well_formed();
    let swept = dce::<Bench>(alloc, inner, ctx);
    ctx.well_formed();
    swept
}

// The walk: the items are taken into a list first, since an iterator lends the context.
fn sweep_each(
    alloc: Global,
    op: Ptr<Operation>,
    least: usize,
    ctx: &mut Context,
) -> Result<IRStatus, OptError>
    requires live { IsLive ctx.old.tree op }
    requires linked { IsWellLinked bench ctx.old.tree op }
    ensures change { IsPassChange bench ctx.old.tree ctx.new.tree op }
    ensures same { IfOk result (λ status. status ≡ Unchanged → ctx.new.tree ≡ ctx.old.tree) }
{
    let mut changed = IRStatus::Unchanged;
    let inside: Vec<Ptr<Operation>> = Children::new(op, ctx).collect(alloc)?;
    for inner in &inside {
        if !inner.is_live(ctx) || inner.get_parent_op(ctx) != Some(op) {
            continue;
        }
        if count_inside(*inner, ctx) < least {
            continue;
        }
        changed |= sweep_held(alloc, op, *inner, ctx)?;
    }
    Ok(changed)
}

impl Pass for SweepLarge {
    type D = Bench;

    type E = BenchFacts;

    ghost is_pass_manager = { λ p. false };

    ghost name = { λ p. SWEEP_LARGE.now };

    ghost outcome = { λ p p' op s s' r. (p' ≡ p) × (s'.cache ≡ s.cache) × (s'.common ≡ s.common) };

    fn name(&self) -> &str {
        SWEEP_LARGE
    }

    fn run(
        &mut self,
        alloc: Global,
        op: Ptr<Operation>,
        ctx: &mut Context,
        _analyses: &mut AnalysisManager<BenchFacts>,
    ) -> Result<PassResult<BenchFactKind>, OptError> {
        let changed = sweep_each(alloc, op, self.least, ctx)?;
        let mut answer = PassResult::new(alloc);
        answer.ir_changed = changed;
        Ok(answer)
    }

    fn is_pass_manager(&self) -> bool {
        false
    }
}

static TEXT: &str =
    "mod { b0(): func { b0(): x = const 1; y = const 2; ret x }; func { b0(): z = const 3; ret } }";

static LEFT: &str =
    "mod { b0(): func { b0(): v0 = const 1; ret v0 }; func { b0(): v0 = const 3; ret } }";

fn swept_in(rt: &impl Abort, alloc: Global, ctx: &mut Context) -> String {
    let root = read_text(alloc, TEXT.as_bytes(), ctx).expect(rt, "memory");
    let root = root.expect(rt, "readable");
    let mut analyses = AnalysisManager::<BenchFacts>::new(alloc);
    let mut pass = SweepLarge { least: 3 };
    let status = run_pipeline(&mut pass, alloc, root, ctx, &mut analyses).expect(rt, "memory");
    assert!(rt; status == IRStatus::Changed);
    assert!(rt; root.is_live(ctx));
    print_text(alloc, root, ctx).expect(rt, "memory")
}

#[test]
fn sweeps(rt: HostRuntime) {
    let mut ctx = Context::new(rt.alloc());
    let left = swept_in(&rt, rt.alloc(), &mut ctx);
    expect_text(&rt, left.as_str(), LEFT, "what is left");
}
