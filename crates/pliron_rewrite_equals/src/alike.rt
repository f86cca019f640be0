//! Whether two operations do the same.
ghost use Rattle.std.specs.Prelude.{◌≡◌, ◌↔◌, IsTrue};
ghost use Rattle.pliron_core.specs.Tree.{IsLive, operands_of};
ghost use Rattle.pliron_rewrite_equals.specs.Redundancy.{AreAlike};

use pliron_core::{Attrs, Context, Head, Operation, Ptr};
use pliron_laws::Dialect;

// Whether both have the same attributes.
fn has_same_attrs(first: &Attrs, second: &Attrs) -> bool
    ensures { IsTrue result ↔ (first.now ≡ second.now) }
{
    if first.len() != second.len() {
        return false;
    }
    for i in 0..first.len() {
        if !first.get(i).is_same(second.get(i)) {
            return false;
        }
    }
    true
}

/// Whether two heads are one. Takes no memory. Cost: that of their attributes.
pub fn is_same_head(first: &Head, second: &Head) -> bool
    ensures { IsTrue result ↔ (first.now ≡ second.now) }
{
    first.kind == second.kind
        && first.ssa == second.ssa
        && has_same_attrs(&first.attrs, &second.attrs)
}

/// Whether the second operation has the head of the first, its operands and as many results, neither has
/// successors or regions, and it has no side effects. Asks that both are live. Takes no memory. Cost: that of
/// what is compared.
pub fn are_alike<D: Dialect>(first: Ptr<Operation>, second: Ptr<Operation>, ctx: &Context) -> bool
    requires first { IsLive ctx.now.tree first }
    requires second { IsLive ctx.now.tree second }
    ensures { IsTrue result ↔ AreAlike D.side_effects ctx.now.tree first second }
{
    if first.num_successor(ctx) != 0 || second.num_successor(ctx) != 0 {
        return false;
    }
    if first.num_region(ctx) != 0 || second.num_region(ctx) != 0 {
        return false;
    }
    if first.num_result(ctx) != second.num_result(ctx) {
        return false;
    }
    let Some(false) = D::has_side_effects(second, ctx) else {
        return false;
    };
    if !is_same_head(second.head(ctx), first.head(ctx)) {
        return false;
    }
    has_same_operands(first, second, ctx)
}

// Whether both have the same operands.
fn has_same_operands(first: Ptr<Operation>, second: Ptr<Operation>, ctx: &Context) -> bool
    requires first { IsLive ctx.now.tree first }
    requires second { IsLive ctx.now.tree second }
    ensures { IsTrue result ↔ (operands_of ctx.now.tree second ≡ operands_of ctx.now.tree first) }
{
    if first.num_operand(ctx) != second.num_operand(ctx) {
        return false;
    }
    for i in 0..first.num_operand(ctx) {
        if first.get_operand(ctx, i) != second.get_operand(ctx, i) {
            return false;
        }
    }
    true
}
