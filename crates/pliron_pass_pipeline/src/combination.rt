//! Rules of a dialect as a pass.
ghost use Rattle.std.specs.Prelude.{◌≡◌};
ghost use Rattle.pliron_core.specs.Tree.{IsLive};
ghost use Rattle.pliron_pass_pipeline.specs.Combination.{AppliesRules, combine_name, effect_of_count, most_rewrites, no_rules};

use crate::optimisation::{Effect, Optimisation, OptimisingPass};
use pliron_core::{Context, Head, IRStatus, Operation, Ptr};
use pliron_laws::{Dialect, OptError};
use pliron_opt_combine::combine;
use pliron_pass::count_inside;
use pliron_rewrite_rules::{HasRuleTables, Rules, Term, View};
use std::alloc::Global;
use std::marker::PhantomData;

/// The rules of a dialect that has none.
pub struct NoRules;

impl<D: Dialect> Rules<D> for NoRules {
    ghost rules = { no_rules };

    fn may_apply(_: &Head) -> bool {
        false
    }

    fn rewrite(_: Global, _: &View) -> Result<Option<Term>, OptError> {
        Ok(None)
    }

    ghost rules_hold = { λ view term is. absurd (cc) };
}

// How many rewrites a run of the pass makes at most for each operation inside.
const REWRITES_PER_OPERATION: usize = 16;

/// How many rewrites a run of the pass makes at most: sixteen for each operation inside, since rules may never come to an
/// end where values are made of themselves. Asks that the operation is live (`is_live` tests it). Takes no memory. Cost:
/// one step for each operation, block and region inside.
pub fn max_rewrites(op: Ptr<Operation>, ctx: &Context) -> usize
    requires { IsLive ctx.now.tree op }
    ensures { result ≡ most_rewrites ctx.now.tree op }
{
    count_inside(op, ctx).saturating_mul(REWRITES_PER_OPERATION)
}

/// A set of rules of a dialect, applied.
#[derive(Drop)]
pub struct Combination<D: Dialect, L: Rules<D>> {
    of: PhantomData<D>,
    by: PhantomData<L>,
}

// What is reported of so many rewrites.
fn effect_of(count: usize) -> Effect
    ensures { result ≡ effect_of_count count }
{
    Effect {
        status: if count == 0 {
            IRStatus::Unchanged
        } else {
            IRStatus::Changed
        },
        keeps_edges: true,
    }
}

impl<D: Dialect, L: Rules<D>> Optimisation for Combination<D, L> {
    type D = D;

    ghost name = { combine_name };

    ghost outcome = { λ t t' op r. AppliesRules ⟦<D as HasRuleTables>⟧.rule_tables L.rules t t' op r };

    fn name() -> &'static str {
        "combine"
    }

    fn optimise(alloc: Global, op: Ptr<Operation>, ctx: &mut Context) -> Result<Effect, OptError> {
        let limit = max_rewrites(op, ctx);
        let combined = combine::<D, L>(alloc, op, limit, ctx)?;
        Ok(effect_of(combined.count))
    }
}

/// Rules as a pass, named `combine`. It preserves the cached kinds of analyses that read edges alone.
pub type CombinePass<D, L, E> = OptimisingPass<Combination<D, L>, E>;
