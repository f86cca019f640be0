//! The edge that a branch takes.
ghost use Rattle.std.specs.Prelude.{◌≡◌, ℕ, Some, length};
ghost use Rattle.pliron_core.specs.Tree.{IsLive, successors_of};
ghost use Rattle.pliron_laws.specs.Answers.{ReadsHead, ReadsCounts};
ghost use Rattle.pliron_laws.specs.Tree.{Operation as OperationOf, op_at, shape_of};
ghost use Rattle.pliron_dialect.specs.Roles.{role_at, allows_at, meaning_by, edge_by_role, known_number_at};
ghost use Rattle.pliron_dialect.specs.Outcomes.{index_below as bounded_by, edge_under};

use crate::numbers::known_number;
use crate::roles::Roles;
use crate::tables::{PartCounts, kind_at};
use pliron_core::{AttrObj, Context, Head, Operation, Ptr};

/// Whether the dialect has operations with this head and so many operands, results, successors and regions. Cost:
/// constant; of a branch the number of its edges.
#[tactic(auto, unfolding(crate::specs::Roles::meaning_by), using(crate::specs::Roles::takes_by_form))]
#[inline(always)]
pub fn admits_head<K: Roles>(
    head: &Head,
    operands: usize,
    results: usize,
    successors: usize,
    regions: usize,
) -> bool
    ensures { result ≡ (meaning_by K.tables.value (role_at K.tables) (allows_at K.tables)).admits head.now operands
        results successors regions }
{
    match K::from_number(head.kind) {
        Some(kind) => {
            let counts = PartCounts {
                operands,
                results,
                successors,
                regions,
            };
            kind.form().takes(head, counts)
                && kind.allows(head, operands, results, successors, regions)
        }
        None => false,
    }
}

/// Whether the dialect has operations with this head and these counts. Asks that the operation is live (`is_live` tests
/// it). Cost: that of `admits_head`.
pub fn admits_at<K: Roles>(op: Ptr<Operation>, ctx: &Context) -> bool
    requires { IsLive ctx.now.tree op }
    ensures { ReadsCounts (meaning_by K.tables.value (role_at K.tables) (allows_at K.tables)).admits
        ctx.now.tree op result }
{
    admits_head::<K>(
        op.head(ctx),
        op.num_operand(ctx),
        op.num_result(ctx),
        op.num_successor(ctx),
        op.num_region(ctx),
    )
}

/// The edge that the table has for the number that the first operand is known to be. Asks that the operation is live.
/// Cost: that of the table.
pub fn edge_for_number<K: Roles>(
    op: Ptr<Operation>,
    ctx: &Context,
    operand_attrs: &[Option<AttrObj>],
) -> Option<usize>
    requires { IsLive ctx.now.tree op }
    ensures { ReadsHead (λ h. edge_by_role (role_at K.tables h.kind) h (length (successors_of ctx.now.tree op))
        (known_number_at operand_attrs.now 0)) ctx.now.tree op result }
{
    match kind_at::<K>(op, ctx) {
        Some(kind) => match known_number(operand_attrs, 0) {
            Some(number) => kind.choose_edge(op.head(ctx), op.num_successor(ctx), number),
            None => None,
        },
        None => None,
    }
}

// The index, where it is one of so many.
fn index_below(count: usize, index: Option<usize>) -> Option<usize>
    ensures { result ≡ bounded_by count index }
{
    match index {
        Some(i) => { if i < count { Some(i) } else { None } }
        None => None,
    }
}

/// The edge that an admitted branch takes, where it is known. Asks that the operation is live. Cost: that of
/// `admits_at`, and of the table.
pub fn edge_to_take<K: Roles>(
    op: Ptr<Operation>,
    ctx: &Context,
    operand_attrs: &[Option<AttrObj>],
) -> Option<usize>
    requires { IsLive ctx.now.tree op }
    ensures { (o : OperationOf) → op_at ctx.now.tree op ≡ Some o → result ≡ edge_under (role_at K.tables)
        (allows_at K.tables) (shape_of (meaning_by K.tables.value (role_at K.tables) (allows_at K.tables))
        ctx.now.tree o) operand_attrs.now }
{
    let edge = index_below(
        op.num_successor(ctx),
        edge_for_number::<K>(op, ctx, operand_attrs),
    );
    if admits_at::<K>(op, ctx) { edge } else { None }
}
