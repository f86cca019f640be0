//! What is directly inside an operation.
ghost use Rattle.std.specs.Prelude.{◌≡◌};
ghost use Rattle.std.specs.Iterator.{YieldsFirst, item_count};
ghost use Rattle.pliron_core.specs.Tree.{IsLive};
ghost use Rattle.pliron_core.specs.Walks.{children};

use crate::{Context, Operation, Ptr};
use std::iter::FusedIterator;
use std::marker::Model;

/// The operations directly inside an operation, in the order of its regions, their blocks and their bodies.
/// Contracts see it as the list of those that are left.
///
/// It takes no memory. Cost: the whole walk costs one step for each region, block and operation directly
/// inside.
#[derive(Drop)]
pub struct Children<'a> {
    ctx: &'a Context,
    holder: Ptr<Operation>,
    next: Option<Ptr<Operation>>,
}

impl<'a> Model for Children<'a> {
    ghost use Rattle.std.specs.Prelude.{◌≡◌, ℕ, List, Some};
    ghost use Rattle.std.specs.Option.{ForSome};
    ghost use Rattle.pliron_core.specs.Tree.{parent_operation_of};
    ghost use Rattle.pliron_core.specs.Walks.{children};
    ghost use Rattle.pliron_core.specs.WalkSteps.{rest_from};

    ghost Value = { List ℕ };

    ghost view = { λ w. rest_from w.next (children w.ctx.now.tree w.holder) };

    ghost invariant = { λ w. ForSome w.next (λ k. parent_operation_of w.ctx.now.tree k ≡ Some w.holder) };
}

impl<'a> Children<'a> {
    /// The operations directly inside `holder`, their parent operation. Asks that it is live (`is_live` tests
    /// it). Cost: one step for each empty region and block before the first of them.
    pub fn new(holder: Ptr<Operation>, ctx: &'a Context) -> Self
        requires { IsLive ctx.now.tree holder }
        ensures { result ≡ children ctx.now.tree holder }
    {
        ctx.well_formed();
        let next = holder.first_inside(ctx);
        Children { ctx, holder, next }
    }
}

impl<'a> Iterator for Children<'a> {
    type Item = Ptr<Operation>;

    ghost next_gives = { YieldsFirst (λ s. s) };

    ghost remaining = { item_count (λ s. s) };

    fn next(&mut self) -> Option<Ptr<Operation>> {
        self.ctx.well_formed();
        let op = self.next?;
        self.next = op.next_beside(self.ctx);
        Some(op)
    }
}

impl<'a> FusedIterator for Children<'a> {}
