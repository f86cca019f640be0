//! The edges of branches.
ghost use Rattle.std.specs.Prelude.{◌≡◌, nat_eq, nat_lt, ℕ, suc, ◌+◌, ◌-◌, ◌<◌, ◌≤◌, min, length, Some};
ghost use Rattle.std.specs.List.{range_with_len};
ghost use Rattle.pliron_core.specs.Tree.{IsLive, head_of, operands_of, successors_of};
ghost use Rattle.pliron_laws.specs.Datum.{Head as HeadOf};
ghost use Rattle.pliron_laws.specs.Answers.{ReadsHead, with_head};
ghost use Rattle.pliron_dialect.specs.Counted.{counts_edge as counts_edge_of, edge_counts_in, counts_fit, two_counts, start_of, count_of, total, capped_places, first_edge_count};
ghost use Rattle.pliron_dialect.specs.Roles.{role_at, form_at as form_by, by_form, no_places, places_by_form, shortened_by_form};

use crate::EdgeRange;
use crate::counts::{count_up_to, one_fewer};
use crate::form::{Counting, Form};
use crate::roles::Roles;
use crate::tables::form_at;
use pliron_core::{Attrs, Context, Operation, Ptr};

// The sum of the two, at most so many.
fn sum_up_to(a: usize, b: usize, most: usize) -> usize
    requires first { a ≤ most }
    requires second { b ≤ most }
    ensures { result ≡ min (a + b) most }
{
    if b <= most - a { a + b } else { most }
}

// How many operands the edge with this index forwards, of so many edges, at most so many.
fn count_at(attrs: &Attrs, edges: usize, i: usize, most: usize) -> usize
    ensures { result ≡ min (count_of (edge_counts_in edges attrs.now) i) most }
{
    if i >= edges {
        return 0;
    }
    if i >= attrs.len() {
        return 0;
    }
    count_up_to(attrs.get(i), most)
}

// How many operands the edges before this one forward, at most so many.
fn start_at(attrs: &Attrs, edges: usize, i: usize, most: usize) -> usize
    ensures { result ≡ min (start_of (edge_counts_in edges attrs.now) i) most }
{
    let mut start = 0;
    for j in 0..i {
        start = sum_up_to(start, count_at(attrs, edges, j, most), most);
    }
    start
}

// How many operands the first edge of a branch forwards, at most so many.
fn first_count(attrs: &Attrs, most: usize) -> usize
    ensures { result ≡ min (first_edge_count attrs.now) most }
{
    if attrs.is_empty() {
        0
    } else {
        count_up_to(attrs.get(0), most)
    }
}

// Whether so many operands are what a branch decides by and what the attributes count of all its edges.
fn each_fits(attrs: &Attrs, edges: usize, operands: usize) -> bool
    ensures { result ≡ nat_eq (suc (total (edge_counts_in edges attrs.now))) operands }
{
    let all = start_at(attrs, edges, edges, operands);
    all < operands && all + 1 == operands
}

// Whether there are the operands of the first edge behind what a branch decides by.
fn first_fits(attrs: &Attrs, operands: usize) -> bool
    ensures { result ≡ nat_lt (first_edge_count attrs.now) operands }
{
    first_count(attrs, operands) < operands
}

/// Whether so many operands are what a branch decides by and what its edges forward, by their counts. Cost: the number
/// of edges; constant where the first one alone is counted.
pub fn counts_all(counting: Counting, attrs: &Attrs, edges: usize, operands: usize) -> bool
    ensures { result ≡ counts_fit counting attrs.now edges operands }
{
    match counting {
        Counting::OfFirst => edges == 2 && first_fits(attrs, operands),
        Counting::OfEach => each_fits(attrs, edges, operands),
    }
}

/// How many edges are few: among them, the edge that forwards an operand is found at once.
const FEW_EDGES: usize = 64;

// The edge, of few, up to which the attributes count the operand at this place, behind what the branch decides by;
// else how many edges there are.
fn edge_up_to(attrs: &Attrs, operands: usize, edges: usize, place: usize) -> usize
    ensures { result ≤ edges }
{
    let mut end: usize = 1;
    for i in 0..edges.min(FEW_EDGES) {
        end = end.saturating_add(count_at(attrs, edges, i, operands));
        if place < end {
            return i;
        }
    }
    edges
}

/// The edge that may forward the operand at this place, where only a few edges have to be tried; else how many edges
/// there are. Asks that the operation is live (`is_live` tests it). Cost: constant.
pub fn edge_near<K: Roles>(op: Ptr<Operation>, ctx: &Context, place: usize) -> usize
    requires { IsLive ctx.now.tree op }
    ensures { result ≤ length (successors_of ctx.now.tree op) }
{
    let edges = op.num_successor(ctx);
    match form_at::<K>(op, ctx) {
        Some(Form::Jumps) => 0,
        Some(Form::Chooses(Counting::OfFirst)) => {
            if place > first_count(&op.head(ctx).attrs, op.num_operand(ctx)) {
                edges.min(1)
            } else {
                0
            }
        }
        Some(Form::Chooses(Counting::OfEach)) => {
            edge_up_to(&op.head(ctx).attrs, op.num_operand(ctx), edges, place)
        }
        _ => edges,
    }
}

// The places of the operands that an edge of a branch with so many edges and operands forwards. An edge that forwards none
// costs no look at those before it.
#[tactic(auto, using(crate::specs::Counted::capped_empty))]
fn branch_places(attrs: &Attrs, operands: usize, edges: usize, i: usize) -> EdgeRange
    ensures places { capped_places operands (edge_counts_in edges attrs.now) i ≡ range_with_len result.first
        result.count }
    ensures within { (j : ℕ) → j < result.count → result.first + j < operands }
    ensures fits { result.first + result.count ≤ 18446744073709551615 }
{
    let count = count_at(attrs, edges, i, operands);
    if operands != 0 && count == 0 {
        return EdgeRange { first: 0, count: 0 };
    }
    let start = start_at(attrs, edges, i, operands);
    if count < operands - start {
        EdgeRange {
            first: start + 1,
            count,
        }
    } else {
        EdgeRange { first: 0, count: 0 }
    }
}

// The places of the operands that an edge of a branch forwards whose attribute counts those of the first one.
fn places_of_two(attrs: &Attrs, operands: usize, i: usize) -> EdgeRange
    ensures places { capped_places operands (two_counts (first_edge_count attrs.now) (operands - 1)) i
        ≡ range_with_len result.first result.count }
    ensures within { (j : ℕ) → j < result.count → result.first + j < operands }
    ensures fits { result.first + result.count ≤ 18446744073709551615 }
{
    let count = first_count(attrs, operands.saturating_sub(1));
    if i == 0 {
        EdgeRange { first: 1, count }
    } else if i == 1 {
        EdgeRange {
            first: count + 1,
            count: operands.saturating_sub(count + 1),
        }
    } else {
        EdgeRange { first: 0, count: 0 }
    }
}

// The places of the operands that an edge of an operation of this form forwards.
fn places_in_form(form: Form, attrs: &Attrs, operands: usize, edges: usize, i: usize) -> EdgeRange
    ensures places { places_by_form form attrs.now operands edges i ≡ range_with_len result.first result.count }
    ensures within { (j : ℕ) → j < result.count → result.first + j < operands }
    ensures fits { result.first + result.count ≤ 18446744073709551615 }
{
    match form {
        Form::Jumps => {
            if i == 0 {
                EdgeRange {
                    first: 0,
                    count: operands,
                }
            } else {
                EdgeRange { first: 0, count: 0 }
            }
        }
        Form::Chooses(Counting::OfFirst) => places_of_two(attrs, operands, i),
        Form::Chooses(Counting::OfEach) => branch_places(attrs, operands, edges, i),
        _ => EdgeRange { first: 0, count: 0 },
    }
}

/// The places of the operands that an edge forwards. Asks that the operation is live (`is_live` tests it). Cost: the
/// number of edges before it.
pub fn places_at<K: Roles>(op: Ptr<Operation>, ctx: &Context, i: usize) -> EdgeRange
    requires { IsLive ctx.now.tree op }
    ensures places { ReadsHead (λ h. by_form no_places places_by_form (form_by (role_at K.tables) h.kind) h.attrs
        (length (operands_of ctx.now.tree op)) (length (successors_of ctx.now.tree op)) i) ctx.now.tree op
        (range_with_len result.first result.count) }
    ensures within { (j : ℕ) → j < result.count → result.first + j < length (operands_of ctx.now.tree op) }
    ensures fits { result.first + result.count ≤ 18446744073709551615 }
{
    match form_at::<K>(op, ctx) {
        Some(form) => places_in_form(
            form,
            &op.head(ctx).attrs,
            op.num_operand(ctx),
            op.num_successor(ctx),
            i,
        ),
        None => EdgeRange { first: 0, count: 0 },
    }
}

// Whether an attribute counts the operands of this edge.
fn counts_edge(counting: Counting, i: usize) -> bool
    ensures { result ≡ counts_edge_of counting i }
{
    match counting {
        Counting::OfFirst => i == 0,
        Counting::OfEach => true,
    }
}

/// A branch counts one operand fewer at this edge; another operation stays as it is. Asks that the operation is live
/// (`is_live` tests it) and has such an edge. Cost: constant.
pub fn shorten<K: Roles>(op: Ptr<Operation>, ctx: &mut Context, i: usize)
    requires live { IsLive ctx.old.tree op }
    requires edge { i < length (successors_of ctx.old.tree op) }
    ensures head { (h : HeadOf) → head_of ctx.old.tree op ≡ Some h → ctx.new.tree ≡ with_head ctx.old.tree op
        (by_form h (shortened_by_form h (length (successors_of ctx.old.tree op)) i)
        (form_by (role_at K.tables) h.kind)) }
    ensures block_uses { ctx.new.block_uses ≡ ctx.old.block_uses }
{
    if let Some(Form::Chooses(counting)) = form_at::<K>(op, ctx) {
        if counts_edge(counting, i) && i < op.head(ctx).attrs.len() {
            let attr = one_fewer(op.head(ctx).attrs.get(i));
            Operation::set_attribute(ctx, op, i, attr);
        }
    }
}
