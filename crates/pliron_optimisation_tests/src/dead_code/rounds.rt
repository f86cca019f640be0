//! The dead of each text found by a plain fixpoint, and compared with what `dce` erases.
//!
//! Nothing is dead at first. Each round visits everything in the text, and takes for dead what only dead
//! operations and arguments use, until a round finds nothing. Uses are found by a scan of all operands of all
//! operations; the lists of uses that the tree keeps are never read.
ghost use Rattle.std.specs.Prelude.{◌≡◌, Some};
ghost use Rattle.pliron_core.specs.Tree.{IsLive, IsBlock, IsDefined, block_parent_operation_of};

use super::boxes::BOXES;
use super::cases::{DEFINED, ROWS};
use super::hostile::HOSTILE;
use super::short::SHORT;
use pliron_core::{BasicBlock, Context, Def, Operation, Ptr, Value};
use pliron_dialect_bench::Bench;
use pliron_laws::{BlockArgRemoval, Dialect, SideEffects};
use pliron_opt_dce::dce;
use pliron_test_cases::cases::{Case, case_of, read};
use std::alloc::Global;
use std::process::Abort;

// More operations or blocks than any text has.
const MANY: usize = 1000;

// What may be dead.
#[derive(Clone, Copy, PartialEq, Eq)]
enum Thing {
    Operation(Ptr<Operation>),
    Argument(Value),
}

// All candidates within the root are listed: the operations, each followed by the arguments of its blocks.
fn list_things(rt: &impl Abort, things: &mut Vec<Thing>, root: Ptr<Operation>, ctx: &Context)
    requires { IsLive ctx.now.tree root }
{
    list_operation(rt, things, root, ctx);
    let mut at = root.first_inside(ctx);
    for _ in 0..MANY {
        let Some(op) = at else {
            return;
        };
        assert!(rt; op.is_live(ctx), "a walk leaves the tree");
        assert!(rt; op.is_inside(root, ctx), "a walk leaves the root");
        list_operation(rt, things, op, ctx);
        at = op.next_in_preorder(root, ctx);
    }
    panic!(rt; "too many operations")
}

fn list_operation(rt: &impl Abort, things: &mut Vec<Thing>, op: Ptr<Operation>, ctx: &Context)
    requires { IsLive ctx.now.tree op }
{
    things.push(Thing::Operation(op)).expect(rt, "memory");
    for i in 0..op.num_region(ctx) {
        let first = op.get_region(ctx, i).get_head(ctx);
        list_from(rt, things, first, ctx);
    }
}

// The arguments of this block and of those after it.
fn list_from(
    rt: &impl Abort,
    things: &mut Vec<Thing>,
    first: Option<Ptr<BasicBlock>>,
    ctx: &Context,
) {
    let mut at = first;
    for _ in 0..MANY {
        let Some(block) = at else {
            return;
        };
        assert!(rt; block.is_live(ctx), "no block");
        list_arguments(rt, things, block, ctx);
        at = block.get_next(ctx);
    }
    panic!(rt; "too many blocks")
}

fn list_arguments(rt: &impl Abort, things: &mut Vec<Thing>, block: Ptr<BasicBlock>, ctx: &Context)
    requires { IsBlock ctx.now.tree block }
{
    for i in 0..block.num_argument(ctx) {
        let argument = block.get_argument(ctx, i);
        things.push(Thing::Argument(argument)).expect(rt, "memory");
    }
}

// Whether the operation is this one or is inside it.
fn is_within(op: Ptr<Operation>, around: Ptr<Operation>, ctx: &Context) -> bool {
    op == around || (op.is_live(ctx) && op.is_inside(around, ctx))
}

// The parent operation of the block.
fn parent_operation_of(block: Ptr<BasicBlock>, ctx: &Context) -> Ptr<Operation>
    requires { IsBlock ctx.now.tree block }
    ensures holder { block_parent_operation_of ctx.now.tree block ≡ Some result }
    ensures live { IsLive ctx.now.tree result }
{
    ctx.well_formed();
    match block.get_parent_region(ctx) {
        Some(region) => region.get_parent_op(ctx),
        None => unreachable!(),
    }
}

// The argument at this place of the block that the edge leads to.
fn argument_at(user: Ptr<Operation>, edge: usize, j: usize, ctx: &Context) -> Option<Value>
    requires { IsLive ctx.now.tree user }
{
    if edge >= user.num_successor(ctx) {
        return None;
    }
    let block = user.get_successor(ctx, edge);
    if !block.is_live(ctx) || j >= block.num_argument(ctx) {
        return None;
    }
    Some(block.get_argument(ctx, j))
}

// The argument that the operand at this place is forwarded to. A `br` forwards all operands; a `cbr` has
// its condition first, then those of its first edge, then those of its second one.
fn forwarded_to(
    rt: &impl Abort,
    alloc: Global,
    user: Ptr<Operation>,
    place: usize,
    ctx: &Context,
) -> Option<Value>
    requires { IsLive ctx.now.tree user }
{
    if !Bench::is_branch(user, ctx) || user.num_successor(ctx) == 0 {
        return None;
    }
    let conditions = user.num_successor(ctx) - 1;
    if place < conditions {
        return None;
    }
    let first = Bench::successor_operands(alloc, user, ctx, 0)
        .expect(rt, "memory")
        .len();
    let j = place - conditions;
    if j < first {
        argument_at(user, 0, j, ctx)
    } else {
        argument_at(user, 1, j - first, ctx)
    }
}

// Whether the use of the value by this operation keeps it alive: a use of the argument; a use of a result of
// the operation, or one outside it of a value defined inside it.
fn is_kept_by(thing: Thing, user: Ptr<Operation>, value: Value, ctx: &Context) -> bool
    requires { IsDefined ctx.now.tree value }
{
    let op = match thing {
        Thing::Argument(argument) => return value == argument,
        Thing::Operation(op) => op,
    };
    match value.def(ctx) {
        Def::Result(maker, _) => {
            maker == op || (is_within(maker, op, ctx) && !is_within(user, op, ctx))
        }
        Def::Argument(block, _) => {
            is_within(parent_operation_of(block, ctx), op, ctx) && !is_within(user, op, ctx)
        }
    }
}

// Whether the use at this place of the operation is by something dead, or forwarded to a dead argument.
fn is_dead_use(
    rt: &impl Abort,
    alloc: Global,
    dead: &[Thing],
    user: Ptr<Operation>,
    place: usize,
    ctx: &Context,
) -> bool
    requires { IsLive ctx.now.tree user }
{
    let forwarded = forwarded_to(rt, alloc, user, place, ctx);
    for thing in dead {
        let takes = match *thing {
            Thing::Operation(op) => is_within(user, op, ctx),
            Thing::Argument(argument) => forwarded == Some(argument),
        };
        if takes {
            return true;
        }
    }
    false
}

// Whether a use by this operation keeps it alive.
fn keeps(
    rt: &impl Abort,
    alloc: Global,
    dead: &[Thing],
    thing: &Thing,
    user: Ptr<Operation>,
    ctx: &Context,
) -> bool
    requires { IsLive ctx.now.tree user }
{
    for place in 0..user.num_operand(ctx) {
        let value = user.get_operand(ctx, place);
        if value.is_live(ctx)
            && is_kept_by(*thing, user, value, ctx)
            && !is_dead_use(rt, alloc, dead, user, place, ctx)
        {
            return true;
        }
    }
    false
}

// Whether some use keeps it alive.
fn is_kept(
    rt: &impl Abort,
    alloc: Global,
    things: &[Thing],
    dead: &[Thing],
    thing: &Thing,
    ctx: &Context,
) -> bool {
    for other in things {
        if let Thing::Operation(user) = *other {
            if user.is_live(ctx) && keeps(rt, alloc, dead, thing, user, ctx) {
                return true;
            }
        }
    }
    false
}

// Whether the operation leads to the block, and is no branch.
fn leads_to(user: Ptr<Operation>, block: Ptr<BasicBlock>, ctx: &Context) -> bool {
    if !user.is_live(ctx) || Bench::is_branch(user, ctx) {
        return false;
    }
    for i in 0..user.num_successor(ctx) {
        if user.get_successor(ctx, i) == block {
            return true;
        }
    }
    false
}

// Whether branches alone lead to the block.
fn is_led_to_by_branches(things: &[Thing], block: Ptr<BasicBlock>, ctx: &Context) -> bool {
    for other in things {
        if let Thing::Operation(user) = *other {
            if leads_to(user, block, ctx) {
                return false;
            }
        }
    }
    true
}

// Whether it may be erased where nothing uses it.
fn may_go(things: &[Thing], root: Ptr<Operation>, thing: Thing, ctx: &Context) -> bool {
    match thing {
        Thing::Operation(op) => {
            op != root
                && op.is_live(ctx)
                && !Bench::is_terminator(op, ctx)
                && Bench::has_side_effects(op, ctx) == Some(false)
        }
        Thing::Argument(value) => value.is_live(ctx) && may_lose(things, value, ctx),
    }
}

fn may_lose(things: &[Thing], value: Value, ctx: &Context) -> bool
    requires { IsDefined ctx.now.tree value }
{
    let Def::Argument(block, _) = value.def(ctx) else {
        return false;
    };
    let holder = parent_operation_of(block, ctx);
    Bench::can_remove_block_args(holder, ctx, block) == Some(true)
        && is_led_to_by_branches(things, block, ctx)
}

fn one_round(
    rt: &impl Abort,
    alloc: Global,
    things: &[Thing],
    dead: &mut Vec<Thing>,
    root: Ptr<Operation>,
    ctx: &Context,
) {
    for thing in things {
        if !dead.contains(thing)
            && may_go(things, root, *thing, ctx)
            && !is_kept(rt, alloc, things, dead, thing, ctx)
        {
            dead.push(*thing).expect(rt, "memory");
        }
    }
}

// Each round but the last finds something, so there are no more than one for each thing, and one.
fn find_dead(
    rt: &impl Abort,
    alloc: Global,
    things: &[Thing],
    dead: &mut Vec<Thing>,
    root: Ptr<Operation>,
    ctx: &Context,
) {
    for _ in 0..=things.len() {
        let before = dead.len();
        one_round(rt, alloc, things, dead, root, ctx);
        if dead.len() == before {
            return;
        }
    }
    panic!(rt; "rounds without end")
}

// The operation that it is, or in whose block it is.
fn site_of(thing: Thing, ctx: &Context) -> Option<Ptr<Operation>> {
    match thing {
        Thing::Operation(op) => Some(op),
        Thing::Argument(value) => {
            if !value.is_live(ctx) {
                return None;
            }
            match value.def(ctx) {
                Def::Argument(block, _) => Some(parent_operation_of(block, ctx)),
                Def::Result(op, _) => Some(op),
            }
        }
    }
}

// Whether the operation is dead or inside a dead one.
fn is_in_dead(dead: &[Thing], site: Ptr<Operation>, ctx: &Context) -> bool {
    for other in dead {
        if let Thing::Operation(op) = *other {
            if is_within(site, op, ctx) {
                return true;
            }
        }
    }
    false
}

// Whether it is neither dead nor inside something dead.
fn stays(dead: &[Thing], thing: Thing, ctx: &Context) -> bool {
    match site_of(thing, ctx) {
        Some(site) => !dead.contains(&thing) && !is_in_dead(dead, site, ctx),
        None => false,
    }
}

fn is_live(thing: Thing, ctx: &Context) -> bool {
    match thing {
        Thing::Operation(op) => op.is_live(ctx),
        Thing::Argument(value) => value.is_live(ctx),
    }
}

// For each candidate whether it stays.
fn list_left(
    rt: &impl Abort,
    alloc: Global,
    things: &[Thing],
    left: &mut Vec<bool>,
    root: Ptr<Operation>,
    ctx: &Context,
) {
    let mut dead = Vec::new(alloc);
    find_dead(rt, alloc, things, &mut dead, root, ctx);
    for thing in things {
        left.push(stays(&dead, *thing, ctx)).expect(rt, "memory");
    }
}

fn check_left(rt: &impl Abort, ctx: &Context, things: &[Thing], left: &[bool], name: &str) {
    assert!(rt; things.len() == left.len());
    for (thing, stays) in things.iter().zip(left.iter()) {
        assert!(rt; is_live(*thing, ctx) == *stays, "{name}");
    }
}

// What the fixpoint leaves is what `dce` leaves.
fn compare(rt: &impl Abort, alloc: Global, ctx: &mut Context, case: &Case) {
    let root = read(alloc, ctx, case.text).expect(rt, "a readable text");
    let mut things = Vec::new(alloc);
    let mut left = Vec::new(alloc);
    list_things(rt, &mut things, root, ctx);
    list_left(rt, alloc, &things, &mut left, root, ctx);
    let _ = dce::<Bench>(alloc, root, ctx).expect(rt, "memory");
    check_left(rt, ctx, &things, &left, case.name)
}

fn compare_line(rt: &impl Abort, alloc: Global, line: &str) {
    let case = case_of(line).expect(rt, "a case");
    let mut ctx = Context::new(alloc);
    compare(rt, alloc, &mut ctx, &case)
}

fn compare_all(rt: &impl Abort, alloc: Global, cases: &str) {
    for line in cases.lines() {
        compare_line(rt, alloc, line);
    }
}

#[test]
fn rounds_of_rows(rt: HostRuntime) {
    compare_all(&rt, rt.alloc(), ROWS)
}

#[test]
fn rounds_of_hostile_texts(rt: HostRuntime) {
    compare_all(&rt, rt.alloc(), HOSTILE)
}

#[test]
fn rounds_of_defined_texts(rt: HostRuntime) {
    compare_all(&rt, rt.alloc(), DEFINED)
}

#[test]
fn rounds_of_boxes(rt: HostRuntime) {
    compare_all(&rt, rt.alloc(), BOXES)
}

#[test]
fn rounds_of_short_edges(rt: HostRuntime) {
    compare_all(&rt, rt.alloc(), SHORT)
}
