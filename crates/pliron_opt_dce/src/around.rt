//! The operations around what lost a use, and how far up one use holds those around a value.
//!
//! The set knows the place of each operation that it had last, by the number of its handle. A place is a hint: the
//! operation is in the set if it is at that place. So the set is emptied at once, whatever it held.
//!
//! A use keeps alive each operation around the used value that isn't around the user as well. One climb from the user to
//! the outermost such operation answers for all of them; the value and that operation are remembered, for where the
//! same use is found again.
//!
//! It serves growth alone: without it `manyaround` of `docs/benchmarks/shapes.py` is quadratic.
ghost use Rattle.std.specs.Prelude.{◌≡◌, ◌++◌, ◌∷◌, [], true, false, IfOk, IfSome, OnOk, IsTrue};
ghost use Rattle.pliron_core.specs.Tree.{In, IsLive, IsDefined, IsWithin, operands_of};
ghost use Rattle.pliron_opt_dce.specs.Readiness.{IsHeldUpTo};

use crate::ready::is_within;
use crate::scan_positions::is_defined_inside;
use pliron_core::{Context, Operation, Ptr, Value};
use std::alloc::{AllocError, Global};

// A set of operations, in the order in which they came.
#[derive(Drop)]
pub(crate) struct AroundSet {
    pub(crate) ops: Vec<Ptr<Operation>>,
    // where the operation with this handle is, if it is in the set
    places: Vec<usize>,
}

impl AroundSet {
    // The set is empty.
    pub(crate) fn new(alloc: Global) -> AroundSet
        ensures { result.ops.items ≡ [] }
    {
        AroundSet {
            ops: Vec::new(alloc),
            places: Vec::new(alloc),
        }
    }

    // Whether the operation is in the set.
    #[inline(always)]
    fn has(&self, op: Ptr<Operation>) -> bool
        ensures { IsTrue result → In op self.now.ops.items }
    {
        match self.places.get(op.key() as usize) {
            Some(place) => is_op_at(&self.ops, *place, op),
            None => false,
        }
    }

    // The operation is put last, unless it is in the set. Answers whether it was put.
    #[inline(always)]
    pub(crate) fn add(&mut self, op: Ptr<Operation>) -> Result<bool, AllocError>
        ensures came { IfOk result (λ came. came ≡ true → self.new.ops.items ≡ self.old.ops.items ++ op ∷ []) }
        ensures there { IfOk result (λ came. came ≡ false → In op self.old.ops.items × (self.new.ops.items ≡
            self.old.ops.items)) }
    {
        if self.has(op) {
            return Ok(false);
        }
        put_place(&mut self.places, op, self.ops.len())?;
        self.ops.push(op)?;
        Ok(true)
    }

    // The set is emptied.
    pub(crate) fn clear(&mut self)
        ensures { self.new.ops.items ≡ [] }
    {
        self.ops.clear();
    }
}

// Whether the operation is at this place.
#[inline(always)]
fn is_op_at(ops: &[Ptr<Operation>], place: usize, op: Ptr<Operation>) -> bool
    ensures { IsTrue result → In op ops.now }
{
    if place < ops.len() {
        ops[place] == op
    } else {
        false
    }
}

// The operation has this place.
#[inline(always)]
fn put_place(places: &mut Vec<usize>, op: Ptr<Operation>, place: usize) -> Result<(), AllocError> {
    let key = op.key() as usize;
    for _ in places.len()..=key {
        places.push(0)?;
    }
    if let Some(known) = places.get_mut(key) {
        *known = place;
    }
    Ok(())
}

// An operation, and the outermost of those around it that the same use keeps alive.
#[derive(Clone, Copy)]
pub(crate) struct LiveChain {
    pub(crate) at: Ptr<Operation>,
    pub(crate) top: Ptr<Operation>,
}

impl LiveChain {
    // The same for the operation, where it is the parent operation and the use holds it too.
    #[inline(always)]
    pub(crate) fn step_to(self, op: Ptr<Operation>, ctx: &Context) -> Option<LiveChain>
        requires { IsHeldUpTo ctx.now.tree self.at self.top }
        ensures { IfSome result (λ reach. (reach.at ≡ op) × IsHeldUpTo ctx.now.tree reach.at reach.top) }
    {
        ctx.well_formed();
        if self.at == self.top {
            return None;
        }
        let above = self.at.get_parent_op(ctx)?;
        if above == op {
            return Some(LiveChain {
                at: op,
                top: self.top,
            });
        }
        None
    }
}

// Whether this use of the value keeps the operation alive, and all around it up to the top.
#[inline(always)]
pub(crate) fn is_held_up_to(
    op: Ptr<Operation>,
    top: Ptr<Operation>,
    value: Value,
    user: Ptr<Operation>,
    ctx: &Context,
) -> bool
    requires live { IsLive ctx.now.tree op }
    requires value { IsDefined ctx.now.tree value }
    requires user { IsLive ctx.now.tree user }
    requires used { In value (operands_of ctx.now.tree user) }
    ensures { IsTrue result → IsHeldUpTo ctx.now.tree op top }
{
    ctx.well_formed();
    if !top.is_live(ctx) {
        return false;
    }
    if !is_defined_inside(value, op, ctx) {
        return false;
    }
    if !is_within(op, top, ctx) {
        return false;
    }
    is_apart(user, top, ctx)
}

// Whether the user is found outside the operation. The climb ends at the parent operation.
#[inline(always)]
fn is_apart(user: Ptr<Operation>, op: Ptr<Operation>, ctx: &Context) -> bool
    requires user { IsLive ctx.now.tree user }
    requires live { IsLive ctx.now.tree op }
    ensures { IsTrue result → IsWithin ctx.now.tree op user → ⊥ }
{
    ctx.well_formed();
    let Some(end) = op.get_parent_op(ctx) else {
        return !is_within(user, op, ctx);
    };
    let mut above = Some(user);
    while let Some(holder) = above {
        if holder == op {
            return false;
        }
        if holder == end {
            return true;
        }
        above = holder.get_parent_op(ctx);
    }
    true
}

// The outermost one of the operation and those around it that the user isn't within, if it isn't within the
// first.
pub(crate) fn find_top(user: Ptr<Operation>, op: Ptr<Operation>, ctx: &Context) -> Ptr<Operation>
    requires user { IsLive ctx.now.tree user }
    requires live { IsLive ctx.now.tree op }
{
    ctx.well_formed();
    let mut top = op;
    let mut above = op.get_parent_op(ctx);
    while let Some(holder) = above {
        if is_within(user, holder, ctx) {
            return top;
        }
        top = holder;
        above = holder.get_parent_op(ctx);
    }
    top
}
