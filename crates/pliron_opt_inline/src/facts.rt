//! What is known of the functions of a module before their calls are inlined.
ghost use Rattle.std.specs.Prelude.{◌≡◌, ◌<◌, ℕ, List, Some, true, All, IfOk, IsOkUnless, length, slice_get, Contains, vec_len};
ghost use Rattle.pliron_core.specs.Tree.{In, IsLive};
ghost use Rattle.pliron_theory.specs.Keeps.{IsFit};
ghost use Rattle.pliron_graph_components.specs.declared.components.Scc.{Scc as SccOf};

use crate::policy::InliningPolicy;
use crate::size::{may_be_copied, size_of};
use pliron_core::{Context, Operation, Ptr};
use pliron_dialect_calls::InliningDialect;
use pliron_graph_calls::FunctionTable;
use pliron_graph_components::Scc;
use pliron_laws::{Dialect, OptError};
use pliron_pass_fit::is_fit;
use std::alloc::Global;

/// What is known of a function.
#[derive(Clone, Copy, Drop)]
pub(crate) struct FunctionFacts {
    /// The number of its component.
    pub component: usize,
    /// How many calls of it there are.
    pub calls: usize,
    pub is_asked_for: bool,
    pub is_private: bool,
    /// Whether it is fit to run, and may be copied.
    pub is_admitted: bool,
}

// The number of the component that each of so many nodes is in.
pub(crate) fn component_numbers(
    alloc: Global,
    components: &[Scc<u32>],
    count: usize,
) -> Result<Vec<usize>, OptError>
    requires { (c : SccOf ℕ) (v : ℕ) → Contains components.now c → Contains c.nodes.items v → v < count }
    ensures long { IfOk result (λ numbers. vec_len numbers ≡ count) }
    ensures memory { IsOkUnless result OptError.Memory }
{
    let mut numbers = Vec::from_elem(alloc, 0usize, count)?;
    for (number, component) in components.iter().enumerate() {
        for place in &component.nodes {
            numbers[*place as usize] = number;
        }
    }
    Ok(numbers)
}

// How many calls there are of each of the functions, directly inside them.
pub(crate) fn call_counts<D: InliningDialect>(
    alloc: Global,
    table: &FunctionTable,
    ctx: &Context,
) -> Result<Vec<usize>, OptError>
    requires live { All (λ f. IsLive ctx.now.tree f) table.now.functions }
    requires names { length table.now.names ≡ length table.now.functions }
    ensures long { IfOk result (λ counts. vec_len counts ≡ length table.now.functions) }
    ensures memory { IsOkUnless result OptError.Memory }
{
    let mut counts = Vec::from_elem(alloc, 0usize, table.functions().len())?;
    for function in table.functions() {
        let sites = table.call_sites::<D>(alloc, *function, ctx)?;
        for site in &sites {
            counts[site.callee] = counts[site.callee].saturating_add(1);
        }
    }
    Ok(counts)
}

// What is known of the function, which is in this component and has so many calls.
fn facts_of<D: Dialect + InliningDialect, P: InliningPolicy<D>>(
    alloc: Global,
    function: Ptr<Operation>,
    component: usize,
    calls: usize,
    policy: &P,
    ctx: &Context,
) -> Result<FunctionFacts, OptError>
    requires { IsLive ctx.now.tree function }
    ensures fit { IfOk result (λ facts. facts.is_admitted ≡ true → IsFit D.meaning ctx.now.tree function) }
    ensures memory { IsOkUnless result OptError.Memory }
{
    let fit = is_fit::<D>(alloc, function, ctx)?;
    Ok(FunctionFacts {
        component,
        calls,
        is_asked_for: policy.is_asked_for(function, ctx),
        is_private: policy.is_private(function, ctx),
        is_admitted: fit && may_be_copied(policy, function, ctx),
    })
}

// What is known of each of the functions, by the numbers of their components and how many calls they have.
pub(crate) fn all_facts<D: Dialect + InliningDialect, P: InliningPolicy<D>>(
    alloc: Global,
    functions: &[Ptr<Operation>],
    numbers: &[usize],
    counts: &[usize],
    policy: &P,
    ctx: &Context,
) -> Result<Vec<FunctionFacts>, OptError>
    requires live { All (λ f. IsLive ctx.now.tree f) functions.now }
    requires numbers { length numbers.now ≡ length functions.now }
    requires counts { length counts.now ≡ length functions.now }
    ensures long { IfOk result (λ facts. vec_len facts ≡ length functions.now) }
    ensures fit { IfOk result (λ facts. (i f : ℕ) (x : FunctionFacts) → slice_get functions.now i ≡ Some f →
        slice_get facts.items i ≡ Some x → x.is_admitted ≡ true → IsFit D.meaning ctx.now.tree f) }
    ensures memory { IsOkUnless result OptError.Memory }
{
    let mut facts = Vec::new(alloc);
    for (i, function) in functions.iter().enumerate() {
        let known = facts_of::<D, P>(alloc, *function, numbers[i], counts[i], policy, ctx)?;
        facts.push(known)?;
    }
    Ok(facts)
}

// The sizes of the functions, one after the other.
pub(crate) fn all_sizes<D: InliningDialect, P: InliningPolicy<D>>(
    alloc: Global,
    functions: &[Ptr<Operation>],
    policy: &P,
    ctx: &Context,
) -> Result<Vec<u64>, OptError>
    requires { All (λ f. IsLive ctx.now.tree f) functions.now }
    ensures long { IfOk result (λ sizes. vec_len sizes ≡ length functions.now) }
    ensures memory { IsOkUnless result OptError.Memory }
{
    let mut sizes = Vec::new(alloc);
    for function in functions {
        sizes.push(size_of::<D, P>(policy, *function, ctx))?;
    }
    Ok(sizes)
}
