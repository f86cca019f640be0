//! All that is inside an operation.
ghost use Rattle.std.specs.Prelude.{◌≡◌};
ghost use Rattle.std.specs.Iterator.{YieldsFirst, item_count};
ghost use Rattle.pliron_core.specs.Tree.{IsLive};
ghost use Rattle.pliron_core.specs.Walks.{contents};

use crate::{Context, Operation, Ptr};
use std::iter::FusedIterator;
use std::marker::Model;

/// The operations inside an operation, at any depth, in pre-order: an operation comes before its contents,
/// and these come before its next sibling. Contracts see it as the list of those that are left.
///
/// It takes no memory. Cost: the whole walk costs one step for each operation, block and region inside.
#[derive(Drop)]
pub struct Contents<'a> {
    ctx: &'a Context,
    root: Ptr<Operation>,
    next: Option<Ptr<Operation>>,
}

impl<'a> Model for Contents<'a> {
    ghost use Rattle.std.specs.Prelude.{ℕ, List};
    ghost use Rattle.std.specs.Option.{ForSome};
    ghost use Rattle.pliron_core.specs.Tree.{IsLive, IsInside};
    ghost use Rattle.pliron_core.specs.Walks.{preorder};
    ghost use Rattle.pliron_core.specs.WalkSteps.{rest_from};

    ghost Value = { List ℕ };

    ghost view = { λ w. rest_from w.next (preorder w.ctx.now.tree w.root) };

    ghost invariant = { λ w. IsLive w.ctx.now.tree w.root × ForSome w.next (λ k. IsInside w.ctx.now.tree w.root k) };
}

impl<'a> Contents<'a> {
    /// The operations inside `root`, which isn't one of them. Asks that it is live (`is_live` tests it). Cost:
    /// one step for each empty region and block before the first of them.
    pub fn new(root: Ptr<Operation>, ctx: &'a Context) -> Self
        requires { IsLive ctx.now.tree root }
        ensures { result ≡ contents ctx.now.tree root }
    {
        ctx.well_formed();
        let next = root.next_in_preorder(root, ctx);
        Contents { ctx, root, next }
    }
}

impl<'a> Iterator for Contents<'a> {
    type Item = Ptr<Operation>;

    ghost next_gives = { YieldsFirst (λ s. s) };

    ghost remaining = { item_count (λ s. s) };

    fn next(&mut self) -> Option<Ptr<Operation>> {
        self.ctx.well_formed();
        let op = self.next?;
        self.next = op.next_in_preorder(self.root, self.ctx);
        Some(op)
    }
}

impl<'a> FusedIterator for Contents<'a> {}
