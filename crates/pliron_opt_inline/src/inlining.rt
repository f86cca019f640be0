//! Calls that are inlined over a module.
ghost use Rattle.std.specs.Prelude.{◌≡◌, ◌≢◌, ◌<◌, ◌++◌, ◌∷◌, [], ℕ, List, Some, true, All, Contains, OnOk, OnErr, IfOk, IfSome, IsOkUnless, length, slice_get, vec_len};
ghost use Rattle.pliron_core.specs.Tree.{Tree, In, IsLive, head_of};
ghost use Rattle.pliron_core.specs.Walks.{children};
ghost use Rattle.pliron_theory.specs.Keeps.{IsFit};
ghost use Rattle.pliron_graph_calls.specs.Names.{names_of};
ghost use Rattle.pliron_graph_calls.specs.Namesakes.{HasNamesakes};
ghost use Rattle.pliron_graph_calls.specs.CallSites.{IsCallSite};
ghost use Rattle.pliron_graph_calls.specs.FunctionNames.{names_among, AreNamedFunctions};
ghost use Rattle.pliron_graph_components.specs.declared.components.Scc.{Scc as SccOf};
ghost use Rattle.pliron_opt_inline.specs.Module.{AreInlined, callees_in};
ghost use Rattle.pliron_opt_inline.specs.Turns.{ArePlanned, IsUnderWay, AreApartSites};

use crate::answer::{InlinedCall, InlinedCalls, InliningReason};
use crate::components::call_components;
use crate::facts::{FunctionFacts, all_facts, all_sizes, call_counts, component_numbers};
use crate::one_call::inline_one;
use crate::policy::InliningPolicy;
use pliron_core::{Context, Operation, Ptr, Rewriter};
use pliron_dialect_calls::InliningDialect;
use pliron_graph_calls::{CallSite, FunctionTable};
use pliron_graph_components::Scc;
use pliron_laws::{Dialect, OptError, Room};
use std::alloc::Global;

/// How far inlining goes, in the sizes of the policy.
#[derive(Clone, Copy, Debug, PartialEq, Eq)]
pub struct InliningOptions {
    /// The greatest size of a function that is inlined for its size.
    pub threshold: u64,
    /// The greatest size of a private function that is inlined where it is called once.
    pub only_call: u64,
    /// The greatest size that a function may reach by copies.
    pub limit: u64,
}

// What inlining goes by.
#[derive(Drop)]
struct InliningPlan<'p, P> {
    alloc: Global,
    table: &'p FunctionTable,
    facts: &'p [FunctionFacts],
    policy: &'p P,
    options: InliningOptions,
}

// How large the functions have become, and which calls are inlined.
#[derive(Drop)]
struct InliningProgress {
    sizes: Vec<u64>,
    done: InlinedCalls,
}

// Why a call of the function is inlined, which has this size by now.
fn reason_for(
    callee: &FunctionFacts,
    size: u64,
    options: InliningOptions,
) -> Option<InliningReason> {
    if callee.is_asked_for {
        return Some(InliningReason::AskedFor);
    }
    if size <= options.threshold {
        return Some(InliningReason::Small);
    }
    if callee.is_private && callee.calls == 1 && size <= options.only_call {
        return Some(InliningReason::OnlyCall);
    }
    None
}

impl<P> InliningPlan<'_, P> {
    // Why the call of the function at the second place in the one at the first place is inlined, as far as these say it.
    fn reason_to_inline(
        &self,
        caller: usize,
        callee: usize,
        sizes: &[u64],
    ) -> Option<InliningReason>
        requires sizes { length sizes.now ≡ length self.now.facts.now }
        requires caller { caller < length sizes.now }
        requires callee { callee < length sizes.now }
        ensures { IfSome result (λ reason. (x : FunctionFacts) → slice_get self.now.facts.now callee ≡ Some x →
            x.is_admitted ≡ true) }
    {
        let known = &self.facts[callee];
        if self.facts[caller].component == known.component {
            return None;
        }
        if !known.is_admitted {
            return None;
        }
        if sizes[caller].saturating_add(sizes[callee]) > self.options.limit {
            return None;
        }
        reason_for(known, sizes[callee], self.options)
    }
}

impl InliningProgress {
    // The call, of the function at the second place in the one at the first place, is inlined.
    fn note(&mut self, caller: usize, callee: usize, call: InlinedCall) -> Result<(), OptError>
        requires caller { caller < vec_len self.old.sizes }
        requires callee { callee < vec_len self.old.sizes }
        ensures done { OnOk result (callees_in self.new.done.calls.items
            ≡ callees_in self.old.done.calls.items ++ call.callee ∷ []) }
        ensures long { vec_len self.new.sizes ≡ vec_len self.old.sizes }
        ensures memory { IsOkUnless result OptError.Memory }
    {
        self.sizes[caller] = self.sizes[caller].saturating_add(self.sizes[callee]);
        self.done.calls.push(call)?;
        Ok(())
    }
}

// The call at this site of the function at this place is inlined, if it is chosen and may be.
fn inline_site<D: Dialect + InliningDialect, P: InliningPolicy<D>, R: Rewriter + Room>(
    plan: &InliningPlan<'_, P>,
    place: usize,
    site: CallSite,
    progress: &mut InliningProgress,
    ctx: &mut Context,
    rewriter: &mut R,
) -> Result<(), OptError>
    ghost t: { Tree }
    requires planned { ArePlanned D.meaning D.convention t plan.now.table.now.functions
        (names_of plan.now.table.now.names) plan.now.facts.now }
    requires under_way { IsUnderWay D.meaning D.convention t ctx.old.tree plan.now.table.now.functions
        (callees_in progress.old.done.calls.items) }
    requires sizes { vec_len progress.old.sizes ≡ length plan.now.table.now.functions }
    requires place { place < length plan.now.table.now.functions }
    requires site { IsCallSite D.callee ctx.old.tree (names_of plan.now.table.now.names) site.call site }
    ensures under_way { OnOk result (IsUnderWay D.meaning D.convention t ctx.new.tree plan.now.table.now.functions
        (callees_in progress.new.done.calls.items)) }
    ensures refused { OnErr result ((callees : List ℕ) × AreInlined D.meaning D.convention t ctx.new.tree callees) }
    ensures sizes { vec_len progress.new.sizes ≡ length plan.now.table.now.functions }
    ensures heads { (k : ℕ) → IsLive ctx.old.tree k → k ≢ site.call → head_of ctx.new.tree k
        ≡ head_of ctx.old.tree k }
    ensures memory { IsOkUnless result OptError.Memory }
    ensures point { R.point rewriter.new ≡ R.point rewriter.old }
{
    let Some(reason) = plan.reason_to_inline(place, site.callee, &progress.sizes) else {
        return Ok(());
    };
    let functions = plan.table.functions();
    let (caller, callee) = (functions[place], functions[site.callee]);
    if !plan.policy.admits(caller, callee, site.call, ctx) {
        return Ok(());
    }
    let values = &mut progress.done.values;
    if !inline_one::<D, R>(plan.alloc, site.call, callee, values, ctx, rewriter)? {
        return Ok(());
    }
    progress.note(
        place,
        site.callee,
        InlinedCall {
            caller,
            callee,
            reason,
        },
    )
}

// The calls in the function at this place are inlined that are chosen and may be, the last one first.
fn inline_in<D: Dialect + InliningDialect, P: InliningPolicy<D>, R: Rewriter + Room>(
    plan: &InliningPlan<'_, P>,
    place: usize,
    progress: &mut InliningProgress,
    ctx: &mut Context,
    rewriter: &mut R,
) -> Result<(), OptError>
    ghost t: { Tree }
    requires planned { ArePlanned D.meaning D.convention t plan.now.table.now.functions
        (names_of plan.now.table.now.names) plan.now.facts.now }
    requires under_way { IsUnderWay D.meaning D.convention t ctx.old.tree plan.now.table.now.functions
        (callees_in progress.old.done.calls.items) }
    requires sizes { vec_len progress.old.sizes ≡ length plan.now.table.now.functions }
    requires place { place < length plan.now.table.now.functions }
    ensures under_way { OnOk result (IsUnderWay D.meaning D.convention t ctx.new.tree plan.now.table.now.functions
        (callees_in progress.new.done.calls.items)) }
    ensures refused { OnErr result ((callees : List ℕ) × AreInlined D.meaning D.convention t ctx.new.tree callees) }
    ensures sizes { OnOk result (vec_len progress.new.sizes ≡ length plan.now.table.now.functions) }
    ensures memory { IsOkUnless result OptError.Memory }
    ensures point { R.point rewriter.new ≡ R.point rewriter.old }
{
    ctx.well_formed();
    let caller = plan.table.functions()[place];
    let mut sites = plan.table.call_sites::<D>(plan.alloc, caller, ctx)?;
    while let Some(site) = sites.pop() {
        inline_site::<D, P, R>(plan, place, site, progress, ctx, rewriter)?;
    }
    Ok(())
}

// The same in the functions at these places, one after the other.
fn inline_in_all<D: Dialect + InliningDialect, P: InliningPolicy<D>, R: Rewriter + Room>(
    plan: &InliningPlan<'_, P>,
    places: &[u32],
    progress: &mut InliningProgress,
    ctx: &mut Context,
    rewriter: &mut R,
) -> Result<(), OptError>
    ghost t: { Tree }
    requires planned { ArePlanned D.meaning D.convention t plan.now.table.now.functions
        (names_of plan.now.table.now.names) plan.now.facts.now }
    requires under_way { IsUnderWay D.meaning D.convention t ctx.old.tree plan.now.table.now.functions
        (callees_in progress.old.done.calls.items) }
    requires sizes { vec_len progress.old.sizes ≡ length plan.now.table.now.functions }
    requires places { (v : ℕ) → Contains places.now v → v < length plan.now.table.now.functions }
    ensures under_way { OnOk result (IsUnderWay D.meaning D.convention t ctx.new.tree plan.now.table.now.functions
        (callees_in progress.new.done.calls.items)) }
    ensures refused { OnErr result ((callees : List ℕ) × AreInlined D.meaning D.convention t ctx.new.tree callees) }
    ensures sizes { OnOk result (vec_len progress.new.sizes ≡ length plan.now.table.now.functions) }
    ensures memory { IsOkUnless result OptError.Memory }
    ensures point { R.point rewriter.new ≡ R.point rewriter.old }
{
    for place in places {
        inline_in::<D, P, R>(plan, *place as usize, progress, ctx, rewriter)?;
    }
    Ok(())
}

// The same in the functions of these components, the last component first.
fn inline_bottom_up<D: Dialect + InliningDialect, P: InliningPolicy<D>, R: Rewriter + Room>(
    plan: &InliningPlan<'_, P>,
    mut components: Vec<Scc<u32>>,
    progress: &mut InliningProgress,
    ctx: &mut Context,
    rewriter: &mut R,
) -> Result<(), OptError>
    ghost t: { Tree }
    requires planned { ArePlanned D.meaning D.convention t plan.now.table.now.functions
        (names_of plan.now.table.now.names) plan.now.facts.now }
    requires under_way { IsUnderWay D.meaning D.convention t ctx.old.tree plan.now.table.now.functions
        (callees_in progress.old.done.calls.items) }
    requires sizes { vec_len progress.old.sizes ≡ length plan.now.table.now.functions }
    requires nodes { (c : SccOf ℕ) (v : ℕ) → Contains components.items c → Contains c.nodes.items v →
        v < length plan.now.table.now.functions }
    ensures inlined { (callees : List ℕ) × AreInlined D.meaning D.convention t ctx.new.tree callees
        × OnOk result (callees ≡ callees_in progress.new.done.calls.items) }
    ensures memory { IsOkUnless result OptError.Memory }
    ensures point { R.point rewriter.new ≡ R.point rewriter.old }
{
    while let Some(component) = components.pop() {
        inline_in_all::<D, P, R>(plan, &component.nodes, progress, ctx, rewriter)?;
    }
    Ok(())
}

// What is known of each function of the table, by the components that they are in.
fn facts_among<D: Dialect + InliningDialect, P: InliningPolicy<D>>(
    alloc: Global,
    table: &FunctionTable,
    components: &[Scc<u32>],
    policy: &P,
    ctx: &Context,
) -> Result<Vec<FunctionFacts>, OptError>
    requires live { All (λ f. IsLive ctx.now.tree f) table.now.functions }
    requires names { length table.now.names ≡ length table.now.functions }
    requires nodes { (c : SccOf ℕ) (v : ℕ) → Contains components.now c → Contains c.nodes.items v →
        v < length table.now.functions }
    ensures long { IfOk result (λ facts. vec_len facts ≡ length table.now.functions) }
    ensures fit { IfOk result (λ facts. (i f : ℕ) (x : FunctionFacts) → slice_get table.now.functions i ≡ Some f →
        slice_get facts.items i ≡ Some x → x.is_admitted ≡ true → IsFit D.meaning ctx.now.tree f) }
    ensures memory { IsOkUnless result OptError.Memory }
{
    let functions = table.functions();
    let numbers = component_numbers(alloc, components, functions.len())?;
    let counts = call_counts::<D>(alloc, table, ctx)?;
    all_facts::<D, P>(alloc, functions, &numbers, &counts, policy, ctx)
}

// Calls are inlined by the plan, in the functions of the last component first, which have these sizes.
fn inline_planned<D: Dialect + InliningDialect, P: InliningPolicy<D>, R: Rewriter + Room>(
    plan: &InliningPlan<'_, P>,
    components: Vec<Scc<u32>>,
    sizes: Vec<u64>,
    ctx: &mut Context,
    rewriter: &mut R,
) -> Result<InlinedCalls, OptError>
    requires planned { ArePlanned D.meaning D.convention ctx.old.tree plan.now.table.now.functions
        (names_of plan.now.table.now.names) plan.now.facts.now }
    requires live { All (λ f. IsLive ctx.old.tree f) plan.now.table.now.functions }
    requires sizes { vec_len sizes ≡ length plan.now.table.now.functions }
    requires nodes { (c : SccOf ℕ) (v : ℕ) → Contains components.items c → Contains c.nodes.items v →
        v < length plan.now.table.now.functions }
    ensures inlined { IfOk result (λ done. AreInlined D.meaning D.convention ctx.old.tree ctx.new.tree
        (callees_in done.calls.items)) }
    ensures refused { OnErr result ((callees : List ℕ) × AreInlined D.meaning D.convention ctx.old.tree ctx.new.tree
        callees) }
    ensures memory { IsOkUnless result OptError.Memory }
    ensures point { R.point rewriter.new ≡ R.point rewriter.old }
{
    let mut progress = InliningProgress {
        sizes,
        done: InlinedCalls {
            calls: Vec::new(plan.alloc),
            values: Vec::new(plan.alloc),
        },
    };
    inline_bottom_up::<D, P, R>(plan, components, &mut progress, ctx, rewriter)?;
    let InliningProgress { done, .. } = progress;
    Ok(done)
}

// The same over the functions of the table.
fn inline_among<D: Dialect + InliningDialect, P: InliningPolicy<D>, R: Rewriter + Room>(
    alloc: Global,
    table: &FunctionTable,
    options: &InliningOptions,
    policy: &P,
    ctx: &mut Context,
    rewriter: &mut R,
) -> Result<InlinedCalls, OptError>
    requires live { All (λ f. IsLive ctx.old.tree f) table.now.functions }
    requires functions { (ks : List ℕ) × AreNamedFunctions D.convention ctx.old.tree ks table.now }
    ensures inlined { IfOk result (λ done. AreInlined D.meaning D.convention ctx.old.tree ctx.new.tree
        (callees_in done.calls.items)) }
    ensures refused { OnErr result ((callees : List ℕ) × AreInlined D.meaning D.convention ctx.old.tree ctx.new.tree
        callees) }
    ensures memory { IsOkUnless result OptError.Memory }
    ensures point { R.point rewriter.new ≡ R.point rewriter.old }
{
    let components = call_components::<D>(alloc, table, ctx)?;
    let facts = facts_among::<D, P>(alloc, table, &components, policy, ctx)?;
    let sizes = all_sizes::<D, P>(alloc, table.functions(), policy, ctx)?;
    let plan = InliningPlan {
        alloc,
        table,
        facts: &facts,
        policy,
        options: *options,
    };
    inline_planned::<D, P, R>(&plan, components, sizes, ctx, rewriter)
}

/// Inlines calls in a module, an operation that holds functions: functions that are called come before those that call
/// them, and in each the last call comes first. A call that stands directly inside a function is inlined where its callee
/// is another one that doesn't call the caller, at once or over others, is fit to run, and may be copied; where the caller
/// stays within the limit; where the policy admits it; and where there is a reason: the policy asks for the callee, the
/// callee isn't larger than the threshold, or it is the only call of a private function of at most another size. Calls that
/// copies bring stay.
///
/// In each program that has the module linked runs are kept where the names of the callees stand there for them. The answer
/// has each call that was inlined, and each value that was made, in order. No function is erased.
///
/// Asks that the operation is live (`is_live` tests it). Where two of its functions have one name nothing is done. Errors:
/// allocation failure, after which some calls are inlined and some are prepared for it, each wholly, and linked runs are
/// kept likewise. Cost: linear in the module before and after, a sort of each component of the graph of calls, and `is_fit`
/// of each function. The way of LLVM's inliner, bottom up over components.
pub fn inline_calls<D: Dialect + InliningDialect, P: InliningPolicy<D>, R: Rewriter + Room>(
    alloc: Global,
    holder: Ptr<Operation>,
    options: &InliningOptions,
    policy: &P,
    ctx: &mut Context,
    rewriter: &mut R,
) -> Result<InlinedCalls, OptError>
    requires { IsLive ctx.old.tree holder }
    ensures inlined { IfOk result (λ done. AreInlined D.meaning D.convention ctx.old.tree ctx.new.tree
        (callees_in done.calls.items)) }
    ensures refused { OnErr result ((callees : List ℕ) × AreInlined D.meaning D.convention ctx.old.tree ctx.new.tree
        callees) }
    ensures namesakes { HasNamesakes (names_among D.convention ctx.old.tree (children ctx.old.tree holder)) →
        ctx.new.tree ≡ ctx.old.tree }
    ensures memory { IsOkUnless result OptError.Memory }
    ensures point { R.point rewriter.new ≡ R.point rewriter.old }
{
    ctx.well_formed();
    match FunctionTable::of::<D>(alloc, holder, ctx)? {
        Some(table) => inline_among::<D, P, R>(alloc, &table, options, policy, ctx, rewriter),
        None => Ok(InlinedCalls {
            calls: Vec::new(alloc),
            values: Vec::new(alloc),
        }),
    }
}
