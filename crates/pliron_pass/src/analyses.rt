//! Computing analyses.
ghost use Rattle.std.specs.Prelude.{◌≡◌, ℕ, Bool, true, ◌+◌, ◌<◌, Option, IsSome, IsTrue, IfOk, OnOk, OnErr, IsOk, length, option_map, slice_get, IsOkUnless};
ghost use Rattle.std.specs.Borrow.{sem};
ghost use Rattle.pliron_core.specs.Tree.{Tree, IsLive};
ghost use Rattle.pliron_core.specs.Invariant.{IsTree};
ghost use Rattle.pliron_core.specs.Changes.{IsSameTree};
ghost use Rattle.pliron_pass.specs.Answer.{has_changed, kept_kinds};
ghost use Rattle.pliron_theory.specs.Edges.{edges_inside};
ghost use Rattle.pliron_pass.specs.Optimising.{edge_kinds, with_edge_kind};
ghost use Rattle.pliron_pass.specs.Cache.{IsFresh};
ghost use Rattle.pliron_pass.specs.Computing.{Computes};
ghost use Rattle.pliron_pass.specs.Grown.{cached_at, HasNeeds, AddsLowerRanks};
ghost use Rattle.pliron_pass.specs.Lending.{LendsComputed, EndsComputed};

use crate::kinds::AnalysisKind;
use crate::manager::AnalysisManager;
use crate::result::PassResult;
use pliron_core::{Context, IRStatus, Operation, Ptr};
use pliron_laws::OptError;
use std::alloc::Global;

/// Analyses that a manager computes and keeps.
pub trait Analyses: AnalysisKind {
    // the analysis says what is so of the operation in the tree
    ghost holds: { Self → ℕ → Tree → Type 0 };

    ghost rank: { Self.Kind → ℕ };

    ghost reads_edges_alone: { Self.Kind → Bool };

    ghost needs: { Self.Kind → ℕ };

    ghost need: { Self.Kind → ℕ → Self.Kind };

    /// The name of this analysis.
    fn name(&self) -> &str;

    /// The rank of a kind: each need has a lower one.
    fn rank(kind: Self::Kind) -> u32
        ensures { result ≡ rank kind };

    /// Whether analyses of the kind hold as long as the operation's inner blocks and edges stay.
    fn reads_edges_alone(kind: Self::Kind) -> bool
        ensures { result ≡ reads_edges_alone kind };

    /// How many kinds an analysis of this kind is computed from.
    fn needs(kind: Self::Kind) -> usize
        ensures { result ≡ needs kind };

    /// The ith of them. Asks that there are so many (`needs` tests it).
    fn need(kind: Self::Kind, i: usize) -> Self::Kind
        requires { i < needs kind }
        ensures { result ≡ need kind i };

    /// Computes an analysis from its needs. Asks that the operation is live and that the needs are cached.
    /// Errors: those of the analysis.
    fn compute(
        alloc: Global,
        kind: Self::Kind,
        op: Ptr<Operation>,
        ctx: &Context,
        manager: &AnalysisManager<Self>,
    ) -> Result<Self, OptError>
        requires live { IsLive ctx.now.tree op }
        requires needs { HasNeeds Self.Kind.eq needs need kind op manager.now.cache.entries }
        ensures kind { IfOk result (λ e. Self.Kind.eq (Self.kind e) kind ≡ true) }
        ensures holds { IfOk result (λ e. IsFresh Self.Kind.eq Self.kind holds ctx.now.tree manager.now.cache.entries
            → holds e op ctx.now.tree) };

    // Kinds that are equal are one.
    ghost same: { (a b : Self.Kind) → Self.Kind.eq a b ≡ true → a ≡ b };

    // An analysis doesn't depend on erased handles.
    ghost stays: { (e : Self) (o : ℕ) (t u : Tree) → IsTree t → IsTree u → IsSameTree t u → IsLive u o → holds e o t
        → holds e o u };

    // What reads edges alone still holds while the blocks and edges inside the operation stay.
    ghost keeps: { (e : Self) (o : ℕ) (t u : Tree) → IsTree t → IsTree u → reads_edges_alone (Self.kind e) ≡ true
        → IsLive t o → IsLive u o → edges_inside u o ≡ edges_inside t o → holds e o t → holds e o u };

    // Each need has a lower rank.
    ghost lower: { (k : Self.Kind) (i : ℕ) → i < needs k → rank (need k i) < rank k };
}

impl<E: Analyses + Drop> AnalysisManager<E> {
    /// Computes an analysis and its needs, in order, where they are not cached, and puts it last.
    ///
    /// Asks that the operation is live (`is_live` tests it). Errors: allocation failure, and those of the
    /// analyses, which leave only entries of lower ranks added. Cost: a look-up for each need, and computing
    /// what is not cached.
    pub fn compute_analysis(
        &mut self,
        kind: E::Kind,
        op: Ptr<Operation>,
        ctx: &Context,
    ) -> Result<(), OptError>
        requires { IsLive ctx.now.tree op }
        ensures cached { OnOk result (IsSome (cached_at E.Kind.eq self.new.cache.entries kind op)) }
        ensures fresh { IsFresh E.Kind.eq E.kind E.holds ctx.now.tree self.old.cache.entries →
            IsFresh E.Kind.eq E.kind E.holds ctx.now.tree self.new.cache.entries }
        ensures found { IsSome (cached_at E.Kind.eq self.old.cache.entries kind op) → IsOk result }
        ensures computed { OnOk result (Computes E.Kind.eq E.needs E.need op kind self.old.cache.entries
            self.new.cache.entries) }
        ensures grows { AddsLowerRanks E.rank op (E.rank kind + 1) self.old.cache.entries self.new.cache.entries }
        ensures refused { OnErr result (AddsLowerRanks E.rank op (E.rank kind) self.old.cache.entries
            self.new.cache.entries) }
        ensures data { self.new.pm_data ≡ self.old.pm_data }
    {
        if self.cache.contains_key(&(kind, op)) {
            return Ok(());
        }
        for i in 0..E::needs(kind) {
            self.compute_analysis(E::need(kind, i), op, ctx)?;
        }
        let analysis = E::compute(self.alloc, kind, op, ctx, self)?;
        self.cache.insert((kind, op), analysis)?;
        Ok(())
    }

    // Names the ith kind as preserved, if it reads edges alone.
    fn keep_edge_kind(&self, i: usize, answer: &mut PassResult<E::Kind>) -> Result<(), OptError>
        ensures kept { OnOk result (kept_kinds answer.new ≡ with_edge_kind E.Kind.eq E.reads_edges_alone
            (kept_kinds answer.old) (option_map (λ p. p.0.0) (slice_get self.now.cache.entries i))) }
        ensures changed { has_changed answer.new ≡ has_changed answer.old }
        ensures memory { IsOkUnless result OptError.Memory }
    {
        match self.cached_kind(i) {
            Some(kind) => {
                if E::reads_edges_alone(kind) {
                    answer.set_preserved(kind)
                } else {
                    Ok(())
                }
            }
            None => Ok(()),
        }
    }

    /// An answer that preserves the cached kinds that read edges alone.
    ///
    /// Errors: allocation failure. Cost: the number of entries in the cache.
    pub fn keep_edge_kinds(&self, changed: IRStatus) -> Result<PassResult<E::Kind>, OptError>
        ensures changed { IfOk result (λ r. has_changed r ≡ changed) }
        ensures kept { IfOk result (λ r. kept_kinds r ≡ edge_kinds E.Kind.eq E.reads_edges_alone
            self.now.cache.entries) }
        ensures memory { IsOkUnless result OptError.Memory }
    {
        let mut result = PassResult::new(self.alloc);
        result.ir_changed = changed;
        for i in 0..self.cache.len() {
            self.keep_edge_kind(i, &mut result)?;
        }
        Ok(result)
    }

    /// The entry, which can be written, computed where it is not cached.
    ///
    /// Asks that the operation is live (`is_live` tests it). Errors: as `compute_analysis`. Cost: as
    /// `compute_analysis`.
    pub fn get_analysis_mut(
        &mut self,
        kind: E::Kind,
        op: Ptr<Operation>,
        ctx: &Context,
    ) -> Result<&mut E, OptError>
        requires { IsLive ctx.now.tree op }
        ensures* writes_back { sem 𝓛 (LendsComputed E.row E.Kind.row E.Kind.Eq.own E.Kind.PartialEq E.Kind.Hash.own
            self.entry (λ es es'. IsFresh E.Kind.eq E.kind E.holds ctx.now.tree es → IsFresh E.Kind.eq E.kind E.holds
            ctx.now.tree es') (λ es es'. Computes E.Kind.eq E.needs E.need op kind es es')
            (λ es es'. AddsLowerRanks E.rank op (E.rank kind) es es') kind op result) }
    {
        self.compute_analysis(kind, op, ctx)?;
        match self.cache.get_mut(&(kind, op)) {
            Some(analysis) => Ok(analysis),
            None => unreachable!(),
        }
    }

    /// The entry, computed where it is not cached.
    ///
    /// Asks that the operation is live (`is_live` tests it). Errors: as `compute_analysis`. Cost: as
    /// `compute_analysis`.
    pub fn get_analysis(
        &mut self,
        kind: E::Kind,
        op: Ptr<Operation>,
        ctx: &Context,
    ) -> Result<&E, OptError>
        requires { IsLive ctx.now.tree op }
        ensures* ends { sem 𝓛 (EndsComputed E.row E.Kind.row E.Kind.Eq.own E.Kind.PartialEq E.Kind.Hash.own self.entry
            (λ es es'. IsFresh E.Kind.eq E.kind E.holds ctx.now.tree es → IsFresh E.Kind.eq E.kind E.holds ctx.now.tree
            es') (λ es es'. Computes E.Kind.eq E.needs E.need op kind es es') (λ es es'. AddsLowerRanks E.rank op
            (E.rank kind) es es') kind op result) }
    {
        self.compute_analysis(kind, op, ctx)?;
        match self.cache.get(&(kind, op)) {
            Some(analysis) => Ok(analysis),
            None => unreachable!(),
        }
    }
}
