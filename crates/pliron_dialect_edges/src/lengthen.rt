//! Branches that forward one value more.
ghost use Rattle.std.specs.Prelude.{◌≡◌, ◌<◌, ◌+◌, ℕ, List, pos, IfOk, IfSome, length, IsOkUnless};
ghost use Rattle.pliron_core.specs.declared.attrs.AttrObj.{AttrObj as Attribute};
ghost use Rattle.pliron_core.specs.declared.attrs.AttrObj.TheVariants.{Int};
ghost use Rattle.pliron_core.specs.Tree.{IsLive, successors_of};
ghost use Rattle.pliron_laws.specs.Tree.{Operation as OperationOf, op_at, shape_of};
ghost use Rattle.pliron_dialect.specs.Counted.{counts_by, counts_edge, edge_counts_in};
ghost use Rattle.pliron_dialect_edges.specs.Lengthened.{IsLengthened};
ghost use Rattle.pliron_dialect_edges.specs.LongerCounts.{LongerAttributes, last_place};
ghost use Rattle.pliron_dialect_edges.specs.LengthenedByRoles.{with_attributes, LongerByForm};

use crate::at_once::BranchesAtOnce;
use crate::replace::copy_head;
use pliron_core::{AttrObj, Attrs, Context, Head, Operation, Ptr};
use pliron_dialect::counts::count_up_to;
use pliron_dialect::{ByRoles, Counting, Form, Roles, admits_head};
use pliron_laws::{Dialect, OptError};
use std::alloc::Global;

/// A branch that forwards one value more along an edge.
#[derive(Drop)]
pub struct LongerBranch {
    /// Its head.
    pub head: Head,
    /// The index of the operand that it has more: those from there on stand one further.
    pub place: usize,
}

/// Dialects that say what a branch is that forwards one value more.
pub trait LengthensEdges: Dialect + BranchesAtOnce {
    /// The branch that forwards one value more along this edge, behind those that it forwards there; `None` where the
    /// dialect has no such operation.
    ///
    /// Asks that the operation is live (`is_live` tests it) and has such an edge. Errors: allocation failure. Cost:
    /// linear in the attributes, and in the edges up to this one.
    fn lengthen(
        alloc: Global,
        op: Ptr<Operation>,
        ctx: &Context,
        edge: usize,
    ) -> Result<Option<LongerBranch>, OptError>
        requires live { IsLive ctx.now.tree op }
        requires edge { edge < length (successors_of ctx.now.tree op) }
        ensures longer { IfOk result (λ found. IfSome found (λ longer. (o : OperationOf) → op_at ctx.now.tree op
            ≡ Some o → IsLengthened Self.meaning Self.shortened (shape_of Self.meaning ctx.now.tree o) edge
            longer.place longer.head)) }
        ensures memory { IsOkUnless result OptError.Memory };
}

// The attribute, if it is a count, counting one more.
fn one_more(attr: &AttrObj) -> Option<AttrObj>
    ensures { IfSome result (λ more. (n : ℕ) × (attr.now ≡ Int (pos n)) × (more ≡ Int (pos (n + 1)))) }
{
    match attr {
        AttrObj::Int(number) => {
            if *number < 0 {
                return None;
            }
            match number.checked_add(1) {
                Some(more) => Some(AttrObj::Int(more)),
                None => None,
            }
        }
        AttrObj::Text(_) => None,
    }
}

// Whether an attribute counts the operands of this edge.
fn is_counted(counting: Counting, edge: usize) -> bool
    ensures { result ≡ counts_edge counting edge }
{
    match counting {
        Counting::OfFirst => edge == 0,
        Counting::OfEach => true,
    }
}

// The head of a branch that forwards one value more along this edge.
fn longer_head(
    alloc: Global,
    head: &Head,
    counting: Counting,
    edge: usize,
) -> Result<Option<Head>, OptError>
    ensures ok { IfOk result (λ found. IfSome found (λ longer. (attrs : List Attribute) × (longer ≡ with_attributes
        head.now attrs) × LongerAttributes counting edge head.now.attrs attrs)) }
    ensures memory { IsOkUnless result OptError.Memory }
{
    let mut longer = copy_head(alloc, head)?;
    if !is_counted(counting, edge) {
        return Ok(Some(longer));
    }
    if edge >= longer.attrs.len() {
        return Ok(None);
    }
    let Some(more) = one_more(longer.attrs.get(edge)) else {
        return Ok(None);
    };
    longer.attrs.set(edge, more);
    Ok(Some(longer))
}

// The place behind the operands of this edge, where an attribute counts those of each edge.
fn place_behind_each(attrs: &Attrs, edges: usize, operands: usize, edge: usize) -> Option<usize>
    requires { edge < edges }
    ensures { IfSome result (λ place. place ≡ last_place (edge_counts_in edges attrs.now) edge) }
{
    let mut place: usize = 1;
    for j in 0..edge + 1 {
        let count = if j < attrs.len() {
            count_up_to(attrs.get(j), operands)
        } else {
            0
        };
        if place > operands {
            return None;
        }
        if count > operands - place {
            return None;
        }
        place += count;
    }
    Some(place)
}

// The place behind the operands of this edge.
#[tactic(auto, using(crate::proofs::PlaceLemmas::last_of_two))]
fn place_behind(
    counting: Counting,
    attrs: &Attrs,
    edges: usize,
    operands: usize,
    edge: usize,
) -> Option<usize>
    requires { edge < edges }
    ensures { IfSome result (λ place. place ≡ last_place (counts_by counting edges operands attrs.now) edge) }
{
    match counting {
        Counting::OfEach => place_behind_each(attrs, edges, operands, edge),
        Counting::OfFirst => {
            if operands == 0 {
                return None;
            }
            if edge > 0 {
                return Some(operands);
            }
            if attrs.is_empty() {
                return Some(1);
            }
            Some(count_up_to(attrs.get(0), operands - 1) + 1)
        }
    }
}

// What a branch of this form, with so many operands and edges, is that forwards one value more along this edge.
fn longer_by_form(
    alloc: Global,
    head: &Head,
    form: Form,
    operands: usize,
    edges: usize,
    edge: usize,
) -> Result<Option<LongerBranch>, OptError>
    requires { edge < edges }
    ensures ok { IfOk result (λ found. IfSome found (λ longer. LongerByForm form head.now operands edges edge
        longer.place longer.head)) }
    ensures memory { IsOkUnless result OptError.Memory }
{
    match form {
        Form::Jumps => {
            if edge > 0 {
                return Ok(None);
            }
            let head = copy_head(alloc, head)?;
            Ok(Some(LongerBranch {
                head,
                place: operands,
            }))
        }
        Form::Chooses(counting) => {
            let Some(place) = place_behind(counting, &head.attrs, edges, operands, edge) else {
                return Ok(None);
            };
            let Some(head) = longer_head(alloc, head, counting, edge)? else {
                return Ok(None);
            };
            Ok(Some(LongerBranch { head, place }))
        }
        _ => Ok(None),
    }
}

impl<K: Roles> LengthensEdges for ByRoles<K> {
    fn lengthen(
        alloc: Global,
        op: Ptr<Operation>,
        ctx: &Context,
        edge: usize,
    ) -> Result<Option<LongerBranch>, OptError> {
        let head = op.head(ctx);
        let Some(kind) = K::from_number(head.kind) else {
            return Ok(None);
        };
        let operands = op.num_operand(ctx);
        let results = op.num_result(ctx);
        let successors = op.num_successor(ctx);
        let regions = op.num_region(ctx);
        if operands == usize::MAX {
            return Ok(None);
        }
        let form = kind.form();
        let Some(longer) = longer_by_form(alloc, head, form, operands, successors, edge)? else {
            return Ok(None);
        };
        if !admits_head::<K>(head, operands, results, successors, regions) {
            return Ok(None);
        }
        if !admits_head::<K>(&longer.head, operands + 1, results, successors, regions) {
            return Ok(None);
        }
        Ok(Some(longer))
    }
}
