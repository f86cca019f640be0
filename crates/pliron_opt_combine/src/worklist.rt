//! Operations that are asked again, since what is seen of them changed.
ghost use Rattle.std.specs.Prelude.{◌≡◌, ◌⊎◌, ℕ, [], IfOk, OnOk, IsOkUnless};
ghost use Rattle.pliron_core.specs.Tree.{In, IsDefined, IsLive};

use indexmap::IndexSet;
use pliron_core::{Context, Operation, Ptr, Value};
use pliron_laws::OptError;
use std::alloc::Global;
use std::mem;

/// Operations that are seen, and those of them that are asked next.
#[derive(Drop)]
pub struct RewriteWorklist {
    pub alloc: Global,
    /// Each has its place.
    pub seen: IndexSet<Ptr<Operation>>,
    /// The places of those that are asked next.
    pub next: IndexSet<usize>,
}

impl RewriteWorklist {
    /// These operations are seen, and none is asked next. Errors: allocation failure. Cost: linear.
    pub fn new(alloc: Global, ops: &[Ptr<Operation>]) -> Result<RewriteWorklist, OptError>
        ensures seen { IfOk result (λ work. (k : ℕ) → In k work.seen.keys → In k ops.now) }
        ensures memory { IsOkUnless result OptError.Memory }
    {
        let mut seen = IndexSet::with_capacity(alloc, ops.len())?;
        for place in 0..ops.len() {
            seen.insert(ops[place])?;
        }
        Ok(RewriteWorklist {
            alloc,
            seen,
            next: IndexSet::new(alloc),
        })
    }

    /// A new operation is seen, and asked next. Errors: allocation failure. Cost: amortised constant.
    pub fn add_new(&mut self, op: Ptr<Operation>) -> Result<(), OptError>
        ensures seen { OnOk result ((k : ℕ) → In k self.new.seen.keys → In k self.old.seen.keys ⊎ (k ≡ op)) }
        ensures memory { IsOkUnless result OptError.Memory }
    {
        let (place, _) = self.seen.insert_full(op)?;
        self.next.insert(place)?;
        Ok(())
    }

    /// The places of the operations that are asked next, of which none is left here. Cost: constant.
    pub fn take_next(&mut self) -> IndexSet<usize>
        ensures seen { self.new.seen ≡ self.old.seen }
    {
        mem::replace(&mut self.next, IndexSet::new(self.alloc))
    }
}

// The operation is asked next, if it is seen.
fn add(
    op: Ptr<Operation>,
    seen: &IndexSet<Ptr<Operation>>,
    next: &mut IndexSet<usize>,
) -> Result<(), OptError>
    ensures memory { IsOkUnless result OptError.Memory }
{
    if let Some(place) = seen.get_index_of(&op) {
        next.insert(place)?;
    }
    Ok(())
}

// Operations that use the value are asked next.
fn add_users(
    value: Value,
    ctx: &Context,
    seen: &IndexSet<Ptr<Operation>>,
    next: &mut IndexSet<usize>,
) -> Result<(), OptError>
    requires { IsDefined ctx.now.tree value }
    ensures memory { IsOkUnless result OptError.Memory }
{
    for i in 0..value.num_use(ctx) {
        let (user, _) = value.get_use(ctx, i);
        add(user, seen, next)?;
    }
    Ok(())
}

// Operations that use a result of this one are asked next.
fn add_readers(
    op: Ptr<Operation>,
    ctx: &Context,
    seen: &IndexSet<Ptr<Operation>>,
    next: &mut IndexSet<usize>,
) -> Result<(), OptError>
    requires { IsLive ctx.now.tree op }
    ensures memory { IsOkUnless result OptError.Memory }
{
    ctx.well_formed();
    for i in 0..op.num_result(ctx) {
        add_users(op.get_result(ctx, i), ctx, seen, next)?;
    }
    Ok(())
}

/// What shows a use of the value is asked next, if it is seen: operations that use it, and those that use their results.
///
/// Asks that the value is live. Errors: allocation failure. Cost: the uses of the value, and of the results of the
/// operations that use it.
pub fn add_viewers(
    value: Value,
    ctx: &Context,
    seen: &IndexSet<Ptr<Operation>>,
    next: &mut IndexSet<usize>,
) -> Result<(), OptError>
    requires { IsDefined ctx.now.tree value }
    ensures memory { IsOkUnless result OptError.Memory }
{
    for i in 0..value.num_use(ctx) {
        let (user, _) = value.get_use(ctx, i);
        add(user, seen, next)?;
        add_readers(user, ctx, seen, next)?;
    }
    Ok(())
}
