//! Where scans of operations resume.
//!
//! A scan of an operation visits its results and the values that are defined inside it, in the order of a text,
//! up to the first one with a use that keeps the operation alive. Uses are only removed, so what was passed
//! doesn't keep it alive any more, and the next scan begins where the last one ended: all scans of an operation
//! together visit its values once.
//!
//! The uses of one value are scanned from the last one down. A removed use leaves its index to the last one,
//! which was passed if any was; so what was passed stays behind the rest, but for one use for each removal.
//!
//! Where operations are deep inside others, each of those around passes the same uses. So then each operation
//! has its position in the text, which says at once whether a user is inside, where a climb would pass all
//! around it.
//!
//! Places and positions are hints. A use that keeps the operation alive is tested where it is found; where none
//! is found, the operation is tested as a whole.
//!
//! It serves growth alone: without it `boxuses` of `docs/benchmarks/shapes.py` is quadratic.
ghost use Rattle.std.specs.Prelude.{◌≡◌, ◌↔◌, ◌≤◌, length, IfSome, IsTrue};
ghost use Rattle.pliron_core.specs.Tree.{In, IsLive, IsDefined, operands_of, results_of, uses_of};
ghost use Rattle.pliron_core.specs.Changes.{IsDefinedInside};
ghost use Rattle.pliron_opt_dce.specs.Readiness.{IsKeptAlive, IsUsedOutside, IsHeldUpTo};

use crate::around::{LiveChain, find_top, is_held_up_to};
use crate::ready::{is_harmless, is_within, parent_operation_of};
use crate::worklist::DeadCandidate;
use indexmap::IndexMap;
use pliron_core::{Context, Def, Operation, Ptr, Value};
use pliron_laws::Dialect;
use std::alloc::{AllocError, Global};

// The positions of the operations inside one: from the first one up to the last one, which is outside.
#[derive(Clone, Copy)]
struct SlotSpan {
    first: usize,
    last: usize,
}

// The part of the list of values that no scan of the operation has passed.
#[derive(Clone, Copy)]
struct ScanRange {
    start: usize,
    // how many uses of the first of these values may not have been passed: none of those behind them keeps the
    // operation alive
    uses: usize,
    end: usize,
    span: SlotSpan,
    // the outermost operation that a use that was found kept alive
    top: Option<Ptr<Operation>>,
}

// What is still to be scanned of each operation that has regions or several results.
#[derive(Drop)]
pub(crate) struct ScanPositions {
    // all values that are defined inside the root, in the order of a text
    values: Vec<Value>,
    rests: IndexMap<Ptr<Operation>, ScanRange>,
    // the positions of all operations inside the root, if some are deep inside others
    positions: IndexMap<Ptr<Operation>, usize>,
    // the greatest number of operations around one, of those that have a rest
    depth: usize,
}

// How many operations around one are few.
const FEW_AROUND: usize = 8;

// Whether a scan of the operation may be long.
#[inline(always)]
fn has_long_scan(op: Ptr<Operation>, ctx: &Context) -> bool
    requires { IsLive ctx.now.tree op }
{
    op.num_region(ctx) != 0 || op.num_result(ctx) > 1
}

// Whether a scan of one of the candidates may be long.
fn have_long_scan(candidates: &[DeadCandidate], ctx: &Context) -> bool {
    for candidate in candidates {
        if let DeadCandidate::Operation(op) = candidate {
            if op.is_live(ctx) && has_long_scan(*op, ctx) {
                return true;
            }
        }
    }
    false
}

impl ScanPositions {
    // Nothing is scanned.
    fn empty(alloc: Global) -> ScanPositions {
        ScanPositions {
            values: Vec::new(alloc),
            rests: IndexMap::new(alloc),
            positions: IndexMap::new(alloc),
            depth: 0,
        }
    }

    // Nothing has been scanned of these candidates, which are in the order of a text, each operation behind the
    // arguments of the blocks directly in it. Where no scan may be long, none is listed.
    pub(crate) fn new(
        alloc: Global,
        candidates: &[DeadCandidate],
        ctx: &Context,
    ) -> Result<ScanPositions, AllocError> {
        let mut scans = ScanPositions::empty(alloc);
        if !have_long_scan(candidates, ctx) {
            return Ok(scans);
        }
        let mut open = Vec::new(alloc);
        scans.add_all(&mut open, candidates, ctx)?;
        let end = scans.values.len();
        scans.close(&mut open, None, end, candidates.len());
        if scans.depth > FEW_AROUND {
            scans.number(candidates)?;
        }
        Ok(scans)
    }

    // The operations among these candidates get their positions.
    fn number(&mut self, candidates: &[DeadCandidate]) -> Result<(), AllocError> {
        for position in 0..candidates.len() {
            if let DeadCandidate::Operation(op) = candidates[position] {
                self.positions.insert(op, position)?;
            }
        }
        Ok(())
    }

    // The values of all candidates are put last. The open operations are those around the last one.
    fn add_all(
        &mut self,
        open: &mut Vec<Ptr<Operation>>,
        candidates: &[DeadCandidate],
        ctx: &Context,
    ) -> Result<(), AllocError> {
        let mut start = 0;
        for position in 0..candidates.len() {
            match candidates[position] {
                DeadCandidate::Argument(value) => self.values.push(value)?,
                DeadCandidate::Operation(op) => {
                    if op.is_live(ctx) {
                        self.close(open, op.get_parent_op(ctx), start, position);
                        self.add(open, op, start, position, ctx)?;
                    }
                    start = self.values.len();
                }
            }
        }
        Ok(())
    }

    // The results of the operation are put last, behind the arguments of its blocks, which start there.
    fn add(
        &mut self,
        open: &mut Vec<Ptr<Operation>>,
        op: Ptr<Operation>,
        start: usize,
        position: usize,
        ctx: &Context,
    ) -> Result<(), AllocError>
        requires { IsLive ctx.now.tree op }
    {
        for i in 0..op.num_result(ctx) {
            self.values.push(op.get_result(ctx, i))?;
        }
        if has_long_scan(op, ctx) {
            let rest = ScanRange {
                start,
                uses: usize::MAX,
                end: start,
                span: SlotSpan {
                    first: position,
                    last: position,
                },
                top: None,
            };
            self.rests.insert(op, rest)?;
            open.push(op)?;
            self.depth = self.depth.max(open.len());
        }
        Ok(())
    }

    // The values and positions of the open operations end here, up to the parent operation of what comes next.
    fn close(
        &mut self,
        open: &mut Vec<Ptr<Operation>>,
        holder: Option<Ptr<Operation>>,
        end: usize,
        position: usize,
    ) {
        while let Some(last) = open.last().copied() {
            if holder == Some(last) {
                return;
            }
            if let Some(rest) = self.rests.get_mut(&last) {
                rest.end = end;
                rest.span.last = position;
            }
            open.pop();
        }
    }

    // Whether a use is found that keeps the operation alive, from where the last scan of it ended.
    #[inline(always)]
    pub(crate) fn is_kept_alive(&mut self, op: Ptr<Operation>, ctx: &Context) -> bool
        requires { IsLive ctx.now.tree op }
        ensures { IsTrue result → IsKeptAlive ctx.now.tree op }
    {
        if !has_long_scan(op, ctx) {
            return false;
        }
        match self.rests.get_mut(&op) {
            Some(rest) => resume_scan(&self.values, &self.positions, rest, op, ctx),
            None => false,
        }
    }

    // How far up one use keeps the operation alive, with those around it: mostly the use that was found before does.
    #[inline(always)]
    pub(crate) fn reach_from<D: Dialect>(
        &mut self,
        before: Option<LiveChain>,
        op: Ptr<Operation>,
        ctx: &Context,
    ) -> Option<LiveChain>
        requires { IfSome before (λ reach. IsHeldUpTo ctx.now.tree reach.at reach.top) }
        ensures { IfSome result (λ reach. (reach.at ≡ op) × IsHeldUpTo ctx.now.tree reach.at reach.top) }
    {
        if let Some(reach) = before {
            let next = reach.step_to(op, ctx);
            if next.is_some() {
                return next;
            }
        }
        self.find_live_chain::<D>(op, ctx)
    }

    // The same, where none is known.
    fn find_live_chain<D: Dialect>(
        &mut self,
        op: Ptr<Operation>,
        ctx: &Context,
    ) -> Option<LiveChain>
        ensures { IfSome result (λ reach. (reach.at ≡ op) × IsHeldUpTo ctx.now.tree reach.at reach.top) }
    {
        if !op.is_live(ctx) {
            return None;
        }
        let rest = self.rests.get_mut(&op)?;
        let known = known_reach(&self.values, rest, op, ctx);
        if known.is_some() {
            return known;
        }
        if !is_harmless::<D>(op, ctx) {
            return None;
        }
        if !resume_scan(&self.values, &self.positions, rest, op, ctx) {
            return None;
        }
        let known = known_reach(&self.values, rest, op, ctx);
        if known.is_some() {
            return known;
        }
        let (_, user) = last_found(&self.values, rest, ctx)?;
        rest.top = Some(find_top(user, op, ctx));
        known_reach(&self.values, rest, op, ctx)
    }
}

// The use that the last scan found: the value and the user.
#[inline(always)]
fn last_found(values: &[Value], rest: &ScanRange, ctx: &Context) -> Option<(Value, Ptr<Operation>)>
    ensures value { IfSome result (λ found. IsDefined ctx.now.tree found.0) }
    ensures user { IfSome result (λ found. IsLive ctx.now.tree found.1) }
    ensures used { IfSome result (λ found. In found.0 (operands_of ctx.now.tree found.1)) }
{
    ctx.well_formed();
    let value = *values.get(rest.start)?;
    if !value.is_live(ctx) {
        return None;
    }
    let count = rest.uses.min(value.num_use(ctx));
    if count == 0 {
        return None;
    }
    let (user, _) = value.get_use(ctx, count - 1);
    Some((value, user))
}

// The operation and those around it, up to the one that is known, if that use still keeps them alive.
#[inline(always)]
fn known_reach(
    values: &[Value],
    rest: &ScanRange,
    op: Ptr<Operation>,
    ctx: &Context,
) -> Option<LiveChain>
    requires { IsLive ctx.now.tree op }
    ensures { IfSome result (λ reach. (reach.at ≡ op) × IsHeldUpTo ctx.now.tree reach.at reach.top) }
{
    let top = rest.top?;
    let (value, user) = last_found(values, rest, ctx)?;
    if !is_held_up_to(op, top, value, user, ctx) {
        return None;
    }
    Some(LiveChain { at: op, top })
}

// Whether one of these values that no scan has passed keeps the operation alive; those before it are passed.
fn resume_scan(
    values: &[Value],
    positions: &IndexMap<Ptr<Operation>, usize>,
    rest: &mut ScanRange,
    op: Ptr<Operation>,
    ctx: &Context,
) -> bool
    requires { IsLive ctx.now.tree op }
    ensures { IsTrue result → IsKeptAlive ctx.now.tree op }
{
    for i in rest.start..rest.end {
        if let Some(value) = values.get(i) {
            if let Some(uses) = find_use_outside(op, *value, rest.uses, rest.span, positions, ctx) {
                rest.start = i;
                rest.uses = uses;
                return true;
            }
        }
        rest.uses = usize::MAX;
    }
    rest.start = rest.end;
    false
}

// How many uses of the value there are up to the last of the first `most` that keeps the operation alive, if
// one does.
fn find_use_outside(
    op: Ptr<Operation>,
    value: Value,
    most: usize,
    span: SlotSpan,
    positions: &IndexMap<Ptr<Operation>, usize>,
    ctx: &Context,
) -> Option<usize>
    requires { IsLive ctx.now.tree op }
    ensures { IfSome result (λ uses. IsKeptAlive ctx.now.tree op) }
{
    ctx.well_formed();
    if !value.is_live(ctx) {
        return None;
    }
    let count = value.num_use(ctx);
    if count == 0 {
        return None;
    }
    if is_result_of(value, op, ctx) {
        return Some(count);
    }
    let found = find_outside(value, op, most.min(count), span, positions, ctx)?;
    if is_defined_inside(value, op, ctx) {
        return Some(found);
    }
    None
}

// Whether the operation has a position, which is one of these.
fn is_positioned_inside(
    op: Ptr<Operation>,
    span: SlotSpan,
    positions: &IndexMap<Ptr<Operation>, usize>,
) -> bool {
    if positions.is_empty() {
        return false;
    }
    match positions.get(&op) {
        Some(position) => span.first <= *position && *position < span.last,
        None => false,
    }
}

// Whether the value is a result of the operation.
fn is_result_of(value: Value, op: Ptr<Operation>, ctx: &Context) -> bool
    requires { IsDefined ctx.now.tree value }
    ensures { IsTrue result → In value (results_of ctx.now.tree op) }
{
    match value.def(ctx) {
        Def::Result(maker, _) => maker == op,
        Def::Argument(_, _) => false,
    }
}

// Whether the value is defined inside the operation.
pub(crate) fn is_defined_inside(value: Value, op: Ptr<Operation>, ctx: &Context) -> bool
    requires { IsDefined ctx.now.tree value }
    ensures { IsTrue result ↔ IsDefinedInside ctx.now.tree op value }
{
    match value.def(ctx) {
        Def::Result(maker, _) => maker.is_inside(op, ctx),
        Def::Argument(block, _) => is_within(parent_operation_of(block, ctx), op, ctx),
    }
}

// How many uses of the value there are up to the last of the first `count` that is outside the operation, if
// one is. Uses side by side by one operation are tested once.
fn find_outside(
    value: Value,
    op: Ptr<Operation>,
    count: usize,
    span: SlotSpan,
    positions: &IndexMap<Ptr<Operation>, usize>,
    ctx: &Context,
) -> Option<usize>
    requires value { IsDefined ctx.now.tree value }
    requires count { count ≤ length (uses_of ctx.now.value_uses value) }
    ensures { IfSome result (λ uses. IsUsedOutside ctx.now.tree op value) }
{
    ctx.well_formed();
    let mut known = op;
    let mut left = count;
    while left > 0 {
        let uses = left;
        left -= 1;
        let (user, _) = value.get_use(ctx, left);
        if is_positioned_inside(user, span, positions) {
            continue;
        }
        let holder = user.get_parent_op(ctx);
        if holder == Some(known) {
            continue;
        }
        if !is_within(user, op, ctx) {
            return Some(uses);
        }
        if user != op {
            known = holder.unwrap_or(op);
        }
    }
    None
}
