//! Results that are one of the operands.
ghost use Rattle.std.specs.Prelude.{◌≡◌, IfOk, IsOkUnless, length, option_map};
ghost use Rattle.pliron_core.specs.Tree.{IsLive, operands_of};
ghost use Rattle.pliron_laws.specs.declared.fault.OptError.{OptError as FaultName};
ghost use Rattle.pliron_laws.specs.declared.operand_folds.OpFoldResult.TheVariants.{Operand};
ghost use Rattle.pliron_dialect.specs.Identities.{identity_operand};
ghost use Rattle.pliron_dialect.specs.Roles.{role_at, allows_at, meaning_by, identity_in, truth_in, truth_of, known_number_at};
ghost use Rattle.pliron_dialect.specs.OperandFolds.{place_picked as place_picked_of, answer_at as answer_at_of, fold_by_identity as fold_by_identity_of, fold_by_form as fold_by_form_of, answers_at as answers_at_of, operand_folds_by};

use crate::by_roles::ByRoles;
use crate::folds::known_truth;
use crate::form::{Form, Otherwise};
use crate::given::{constant_by_fact, constant_by_identity};
use crate::identity::{Identity, operand_by_fact, operand_by_identity};
use crate::roles::Roles;
use crate::tables::kind_at;
use pliron_core::{AttrObj, Context, Operation, Ptr};
use pliron_laws::{OpFoldResult, OperandFoldInterface, OptError};
use std::alloc::{AllocFailed, Global};

// The place of the operand that is picked, where the truth is known.
fn place_picked(truth: Option<bool>) -> Option<usize>
    ensures { result ≡ place_picked_of truth }
{
    match truth {
        Some(true) => Some(1),
        Some(false) => Some(2),
        None => None,
    }
}

// The operand at the place, else the constant of the number, if there is one of these.
fn answer_at(place: Option<usize>, number: Option<i128>) -> Option<OpFoldResult>
    ensures { result ≡ answer_at_of place number }
{
    match place {
        Some(place) => Some(OpFoldResult::Operand(place)),
        None => match number {
            Some(number) => Some(OpFoldResult::Constant(AttrObj::Int(number))),
            None => None,
        },
    }
}

// The operand or the number that the identity says, where what isn't computed is left to the interpretation; else what
// it says as a fact about what is computed.
fn fold_by_identity(
    otherwise: Otherwise,
    identity: Identity,
    op: Ptr<Operation>,
    ctx: &Context,
    operand_attrs: &[Option<AttrObj>],
) -> Option<OpFoldResult>
    requires { IsLive ctx.now.tree op }
    ensures { result ≡ fold_by_identity_of otherwise identity operand_attrs.now (operands_of ctx.now.tree op) }
{
    match otherwise {
        Otherwise::Says => answer_at(
            operand_by_identity(identity, op, ctx, operand_attrs),
            constant_by_identity(identity, op, ctx, operand_attrs),
        ),
        Otherwise::Never | Otherwise::Traps => answer_at(
            operand_by_fact(identity, operand_attrs),
            constant_by_fact(identity, op, ctx, operand_attrs),
        ),
    }
}

// The operand or the number that the identity says of what computes.
fn fold_by_form(
    form: Form,
    identity: Identity,
    op: Ptr<Operation>,
    ctx: &Context,
    operand_attrs: &[Option<AttrObj>],
) -> Option<OpFoldResult>
    requires { IsLive ctx.now.tree op }
    ensures { result ≡ fold_by_form_of form identity operand_attrs.now (operands_of ctx.now.tree op) }
{
    match form {
        Form::Folds(_, otherwise) => fold_by_identity(otherwise, identity, op, ctx, operand_attrs),
        _ => None,
    }
}

// The answer of an operation of the form, of what it folds to and of what it picks.
fn answers_at(
    alloc: Global,
    form: Form,
    folded: Option<OpFoldResult>,
    picked: Option<OpFoldResult>,
) -> Result<Vec<Option<OpFoldResult>>, AllocFailed<Option<OpFoldResult>>>
    ensures { IfOk result (λ answers. answers.items ≡ answers_at_of form folded picked) }
{
    let mut answers = Vec::new(alloc);
    match form {
        Form::Folds(_, _) => answers.push(folded)?,
        Form::Picks => answers.push(picked)?,
        _ => {}
    }
    Ok(answers)
}

impl<K: Roles> OperandFoldInterface for ByRoles<K> {
    ghost operand_folds = { operand_folds_by (role_at K.tables) };

    /// Of what computes of two operands the one that the table says is left as it is, else the number that it says is
    /// given; of what picks the operand that is picked, where it is known which.
    ///
    /// Errors: allocation failure. Cost: that of the tables.
    fn fold_to_operand(
        alloc: Global,
        op: Ptr<Operation>,
        ctx: &Context,
        operand_attrs: &[Option<AttrObj>],
    ) -> Result<Vec<Option<OpFoldResult>>, OptError> {
        match kind_at::<K>(op, ctx) {
            Some(kind) => {
                let form = kind.form();
                let identity = kind.identity(op.head(ctx));
                let folded = fold_by_form(form, identity, op, ctx, operand_attrs);
                let picked = answer_at(place_picked(known_truth(kind, operand_attrs)), None);
                let answers = answers_at(alloc, form, folded, picked)?;
                Ok(answers)
            }
            None => Ok(Vec::new(alloc)),
        }
    }
}
