//! What an inliner asks of a dialect, and what dialects by roles answer.
ghost use Rattle.std.specs.Prelude.{◌≡◌, ℕ, ◌∷◌, [], Some, None, IfOk, IfSome, IsOkUnless, IsTrue, slice_get, length, option_map, option_and_then};
ghost use Rattle.std.specs.Option.{option_copied};
ghost use Rattle.pliron_core.specs.declared.attrs.Head.{Head as HeadOf};
ghost use Rattle.pliron_core.specs.Tree.{IsLive, first_of, successors_of, regions_of, layout_of, arguments_of};
ghost use Rattle.pliron_laws.specs.Datum.{datum_of};
ghost use Rattle.pliron_laws.specs.Answers.{ReadsHead};
ghost use Rattle.pliron_rewrite_inlining.specs.Inlined.{CallsByName, RunsItsRegion, Returns, IsJumpTo, NeverGives};
ghost use Rattle.pliron_dialect_calls.specs.Conventions.{convention_by, callee_in};
ghost use Rattle.pliron_dialect.specs.Roles.{head_of_kind};
ghost use Rattle.pliron_dialect_calls.specs.HeadsByRole.{is_leaving as is_leaving_form, is_jumping as is_jumping_form, is_staying as is_staying_form, is_closing as is_closing_form};
ghost use Rattle.pliron_dialect_calls.specs.HeadsByRole.{returns_by, jumps_by, stays_by, closes_by};
ghost use Rattle.pliron_dialect_calls.specs.Inlinable.{IsJumpHead, NeverLeaves};

use crate::calls::Calls;
use pliron_core::{AttrObj, Attrs, Context, Head, Operation, Ptr};
use pliron_dialect::{ByRoles, Form, Roles};
use pliron_laws::{HasMeaning, OptError};
use std::alloc::Global;

/// A dialect whose calls may be inlined: what it knows of calls, functions, returns and jumps.
///
/// Each call reads the head alone. Where the dialect doesn't know, it says no.
pub trait InliningDialect: HasMeaning {
    ghost use Rattle.std.specs.Prelude.{Bool, Option};
    ghost use Rattle.pliron_laws.specs.Datum.{Datum};
    ghost use Rattle.pliron_pass_linked.specs.Calls.{CallingConvention};

    // how its operations call by name
    ghost convention: { CallingConvention };

    // of a head: the name of the function that an operation calls
    ghost callee: { HeadOf → Option Datum };

    // whether an operation is a return, a jump, never leaves, never gives
    ghost returns: { HeadOf → Bool };

    ghost jumps: { HeadOf → Bool };

    ghost stays: { HeadOf → Bool };

    ghost closes: { HeadOf → Bool };

    /// The name of the function that the operation calls, if it calls one by name. Asks that the operation is
    /// live (`is_live` tests it).
    fn callee_name<'c>(op: Ptr<Operation>, ctx: &'c Context) -> Option<&'c AttrObj>
        requires { IsLive ctx.now.tree op }
        ensures reads { ReadsHead callee ctx.now.tree op (option_map datum_of (option_copied result)) }
        ensures calls { IfSome result (λ name. CallsByName Self.meaning convention ctx.now.tree op
            (datum_of name.now)) };

    /// The name of the function that the operation is, if it is one. Asks that the operation is live
    /// (`is_live` tests it).
    fn symbol_name<'c>(op: Ptr<Operation>, ctx: &'c Context) -> Option<&'c AttrObj>
        requires { IsLive ctx.now.tree op }
        ensures reads { ReadsHead convention.symbol_of ctx.now.tree op (option_map datum_of (option_copied result)) }
        ensures runs { IfSome result (λ name. (region entry : ℕ) → regions_of ctx.now.tree op ≡ region ∷ [] → first_of
            (layout_of ctx.now.tree region) None ≡ Some entry → RunsItsRegion Self.meaning ctx.now.tree op region
            (length (arguments_of ctx.now.tree entry))) };

    /// Whether the operation is a return. Asks that the operation is live (`is_live` tests it).
    fn is_return(op: Ptr<Operation>, ctx: &Context) -> bool
        requires { IsLive ctx.now.tree op }
        ensures reads { ReadsHead returns ctx.now.tree op result }
        ensures returns { IsTrue result → Returns Self.meaning ctx.now.tree op };

    /// Whether the operation is a jump. Asks that the operation is live (`is_live` tests it).
    fn is_jump(op: Ptr<Operation>, ctx: &Context) -> bool
        requires { IsLive ctx.now.tree op }
        ensures reads { ReadsHead jumps ctx.now.tree op result }
        ensures jumps { IsTrue result → (block : ℕ) → successors_of ctx.now.tree op ≡ block ∷ [] → IsJumpTo
            Self.meaning ctx.now.tree op block };

    /// Whether the operation never leaves its function. Asks that the operation is live (`is_live` tests it).
    fn never_leaves(op: Ptr<Operation>, ctx: &Context) -> bool
        requires { IsLive ctx.now.tree op }
        ensures reads { ReadsHead stays ctx.now.tree op result }
        ensures leaves { IsTrue result → NeverLeaves Self.meaning ctx.now.tree op };

    /// Whether the operation never gives results, so that a run doesn't come to what stands behind it. Asks
    /// that the operation is live (`is_live` tests it).
    fn never_gives(op: Ptr<Operation>, ctx: &Context) -> bool
        requires { IsLive ctx.now.tree op }
        ensures reads { ReadsHead closes ctx.now.tree op result }
        ensures gives { IsTrue result → NeverGives Self.meaning ctx.now.tree op };

    /// The head of an operation that goes at once to its only block with so many operands.
    ///
    /// Errors: allocation failure.
    fn jump_head(alloc: Global, operands: usize) -> Result<Head, OptError>
        ensures jump { IfOk result (λ head. IsJumpHead Self.meaning operands head) }
        ensures memory { IsOkUnless result OptError.Memory };
}

// The kind of the operation, if it has one.
fn kind_at<K: Roles>(op: Ptr<Operation>, ctx: &Context) -> Option<K>
    requires { IsLive ctx.now.tree op }
    ensures { ReadsHead (λ h. K.tables.kind_of h.kind) ctx.now.tree op result }
{
    K::from_number(op.head(ctx).kind)
}

// The attribute of the operation at this place, if both are there.
fn attribute_at<'c>(
    op: Ptr<Operation>,
    place: Option<usize>,
    ctx: &'c Context,
) -> Option<&'c AttrObj>
    requires { IsLive ctx.now.tree op }
    ensures { ReadsHead (λ h. option_and_then (λ i. slice_get h.attrs i) place) ctx.now.tree op
        (option_copied result) }
{
    let attrs = &op.head(ctx).attrs;
    let place = place?;
    if place < attrs.len() {
        Some(attrs.get(place))
    } else {
        None
    }
}

// Whether an operation of the form leaves at once.
fn is_leaving(form: Form) -> bool
    ensures { result ≡ is_leaving_form form }
{
    matches!(form, Form::Leaves)
}

// Whether an operation of the form jumps at once.
fn is_jumping(form: Form) -> bool
    ensures { result ≡ is_jumping_form form }
{
    matches!(form, Form::Jumps)
}

// Whether an operation of the form never leaves, if what acts by its own table does so.
fn is_staying(form: Form, own: bool) -> bool
    ensures { result ≡ is_staying_form form own }
{
    match form {
        Form::Leaves => false,
        Form::Acts(_, _) | Form::Names | Form::Forks(_) => own,
        _ => true,
    }
}

// Whether an operation of the form never gives.
fn is_closing(form: Form) -> bool
    ensures { result ≡ is_closing_form form }
{
    matches!(
        form,
        Form::Jumps | Form::Chooses(_) | Form::Leaves | Form::Stops
    )
}

// The head of the jumps that folding makes. Takes no memory.
fn head_of_jump<K: Roles>(alloc: Global) -> Head
    ensures { result ≡ head_of_kind (K.tables.number_of K.tables.jump) (K.tables.is_ssa K.tables.jump) }
{
    let kind = K::jump();
    Head {
        kind: kind.number(),
        ssa: kind.is_ssa(),
        attrs: Attrs::new(Vec::new(alloc)),
    }
}

/// Names stand at the places that `Calls` says. Returns and jumps are what has such a form.
impl<K: Calls> InliningDialect for ByRoles<K> {
    ghost convention = { convention_by K.tables K.calls };

    ghost callee = { callee_in K.tables K.calls };

    ghost returns = { returns_by K.tables };

    ghost jumps = { jumps_by K.tables };

    ghost stays = { stays_by K.tables K.calls };

    ghost closes = { closes_by K.tables };

    /// Cost: that of `from_number`.
    fn callee_name<'c>(op: Ptr<Operation>, ctx: &'c Context) -> Option<&'c AttrObj> {
        match kind_at::<K>(op, ctx) {
            Some(kind) => attribute_at(op, kind.callee_place(), ctx),
            None => None,
        }
    }

    /// Cost: that of `from_number`.
    fn symbol_name<'c>(op: Ptr<Operation>, ctx: &'c Context) -> Option<&'c AttrObj> {
        ctx.well_formed();
        match kind_at::<K>(op, ctx) {
            Some(kind) => attribute_at(op, kind.symbol_place(), ctx),
            None => None,
        }
    }

    /// Whether it has the form `Leaves`. Cost: that of `from_number`.
    fn is_return(op: Ptr<Operation>, ctx: &Context) -> bool {
        match kind_at::<K>(op, ctx) {
            Some(kind) => is_leaving(kind.form()),
            None => false,
        }
    }

    /// Whether it has the form `Jumps`. Cost: that of `from_number`.
    fn is_jump(op: Ptr<Operation>, ctx: &Context) -> bool {
        match kind_at::<K>(op, ctx) {
            Some(kind) => is_jumping(kind.form()),
            None => false,
        }
    }

    /// What acts by its own table as `Calls` says; else whether it hasn't the form `Leaves`. Cost: that of
    /// `from_number`.
    fn never_leaves(op: Ptr<Operation>, ctx: &Context) -> bool {
        match kind_at::<K>(op, ctx) {
            Some(kind) => is_staying(kind.form(), kind.stays()),
            None => false,
        }
    }

    /// Whether it jumps, chooses, leaves or stops. Cost: that of `from_number`.
    fn never_gives(op: Ptr<Operation>, ctx: &Context) -> bool {
        match kind_at::<K>(op, ctx) {
            Some(kind) => is_closing(kind.form()),
            None => false,
        }
    }

    /// That of the jumps that folding makes. Takes no memory. Cost: constant.
    fn jump_head(alloc: Global, _operands: usize) -> Result<Head, OptError> {
        Ok(head_of_jump::<K>(alloc))
    }
}
