//! What operations fold to.
ghost use Rattle.std.specs.Prelude.{◌≡◌, ◌∷◌, [], IfOk, IsOkUnless, map, option_map, slice_index_or, None};
ghost use Rattle.pliron_core.specs.declared.attrs.AttrObj.TheVariants.{Int};
ghost use Rattle.pliron_core.specs.Tree.{IsLive};
ghost use Rattle.pliron_laws.specs.Answers.{ReadsHead};
ghost use Rattle.pliron_dialect.specs.Roles.{first_attribute as first_of, form_answers as answers_in, role_answer, known_as, all_known, number_computed, complete, folded_by, identity_in, knows_in, picked_known, truth_of, truth_in, known_number_at, is_constant, role_at, form_at as form_by};

use crate::form::{Form, Otherwise};
use crate::given::known_given;
use crate::identity::known_place;
use crate::numbers::{are_all_known, known_number, known_numbers, number_known};
use crate::roles::Roles;
use crate::tables::form_at;
use pliron_core::{AttrObj, Attrs, Context, Head, NoMemory, Operation, Ptr};
use pliron_laws::OptError;
use std::alloc::{AllocFailed, Global};

// The first of the attributes, by default 0.
fn first_attribute(alloc: Global, attrs: &Attrs) -> Result<AttrObj, NoMemory>
    ensures { IfOk result (λ attr. attr ≡ first_of attrs.now) }
{
    if attrs.is_empty() {
        Ok(AttrObj::Int(0))
    } else {
        attrs.get(0).copy(alloc)
    }
}

// The number that the kind computes of what is known of the operands, where that is enough.
#[inline(always)]
fn number_of_known<K: Roles>(
    alloc: Global,
    kind: K,
    head: &Head,
    operand_attrs: &[Option<AttrObj>],
) -> Result<Option<i128>, AllocFailed<Option<i128>>>
    ensures { IfOk result (λ number. number ≡ knows_in (K.tables.role_of kind) head.now
        (map known_as operand_attrs.now)) }
{
    if let [a, b] = operand_attrs {
        return Ok(kind.fold_numbers(head, &[number_known(a), number_known(b)]));
    }
    let numbers = known_numbers(alloc, operand_attrs)?;
    Ok(kind.fold_numbers(head, &numbers))
}

// The same, as an attribute.
fn compute_known<K: Roles>(
    alloc: Global,
    kind: K,
    head: &Head,
    operand_attrs: &[Option<AttrObj>],
) -> Result<Option<AttrObj>, AllocFailed<Option<i128>>>
    ensures { IfOk result (λ answer. answer ≡ option_map (λ m. Int m) (knows_in (K.tables.role_of kind) head.now
        (map known_as operand_attrs.now))) }
{
    match number_of_known(alloc, kind, head, operand_attrs)? {
        Some(number) => Ok(Some(AttrObj::Int(number))),
        None => Ok(None),
    }
}

// The number that the kind computes of the operands, where all are known and there is one.
fn compute_all<K: Roles>(
    alloc: Global,
    kind: K,
    head: &Head,
    operand_attrs: &[Option<AttrObj>],
) -> Result<Option<AttrObj>, AllocFailed<Option<i128>>>
    ensures { IfOk result (λ answer. answer ≡ option_map (λ m. Int m) (number_computed (complete
        (knows_in (K.tables.role_of kind)) head.now) (all_known operand_attrs.now))) }
{
    if are_all_known(operand_attrs) {
        compute_known(alloc, kind, head, operand_attrs)
    } else {
        Ok(None)
    }
}

// A copy of what is known of the operand at this index.
fn known_at(
    alloc: Global,
    operand_attrs: &[Option<AttrObj>],
    i: usize,
) -> Result<Option<AttrObj>, NoMemory>
    ensures { IfOk result (λ answer. answer ≡ slice_index_or operand_attrs.now i None) }
{
    if i >= operand_attrs.len() {
        return Ok(None);
    }
    match &operand_attrs[i] {
        Some(attr) => Ok(Some(attr.copy(alloc)?)),
        None => Ok(None),
    }
}

// Where what isn't computed is left to the interpretation, what is known of the operand that is left as it is, else the
// number that is given, else the one that the kind computes of all operands; else the one that it computes of what is
// known.
fn fold_operands<K: Roles>(
    alloc: Global,
    kind: K,
    otherwise: Otherwise,
    head: &Head,
    operand_attrs: &[Option<AttrObj>],
) -> Result<Option<AttrObj>, OptError>
    ensures ok { IfOk result (λ answer. answer ≡ folded_by otherwise (identity_in (K.tables.role_of kind) head.now)
        (knows_in (K.tables.role_of kind) head.now) operand_attrs.now) }
    ensures memory { IsOkUnless result OptError.Memory }
{
    if !matches!(otherwise, Otherwise::Says) {
        return Ok(compute_known(alloc, kind, head, operand_attrs)?);
    }
    let identity = kind.identity(head);
    if let Some(place) = known_place(identity, operand_attrs) {
        return Ok(known_at(alloc, operand_attrs, place)?);
    }
    match known_given(identity, operand_attrs) {
        Some(number) => Ok(Some(AttrObj::Int(number))),
        None => Ok(compute_all(alloc, kind, head, operand_attrs)?),
    }
}

/// The truth of the first operand, where it is known and has one. Cost: that of the table.
pub fn known_truth<K: Roles>(kind: K, operand_attrs: &[Option<AttrObj>]) -> Option<bool>
    ensures { result ≡ truth_of (truth_in (K.tables.role_of kind)) (known_number_at operand_attrs.now 0) }
{
    match known_number(operand_attrs, 0) {
        Some(number) => kind.picks(number),
        None => None,
    }
}

// What is known of the operand that is picked.
fn pick_operand<K: Roles>(
    alloc: Global,
    kind: K,
    operand_attrs: &[Option<AttrObj>],
) -> Result<Option<AttrObj>, NoMemory>
    ensures { IfOk result (λ answer. answer ≡ picked_known operand_attrs.now
        (truth_of (truth_in (K.tables.role_of kind)) (known_number_at operand_attrs.now 0))) }
{
    match known_truth(kind, operand_attrs) {
        Some(true) => known_at(alloc, operand_attrs, 1),
        Some(false) => known_at(alloc, operand_attrs, 2),
        None => Ok(None),
    }
}

/// The constant of the result of an operation of the kind, where it is known. Errors: allocation failure. Cost: the
/// number of operands, and that of a copy of an attribute.
pub fn answer_of<K: Roles>(
    alloc: Global,
    kind: K,
    head: &Head,
    operand_attrs: &[Option<AttrObj>],
) -> Result<Option<AttrObj>, OptError>
    ensures ok { IfOk result (λ answer. answer ≡ role_answer (K.tables.role_of kind) head.now operand_attrs.now) }
    ensures memory { IsOkUnless result OptError.Memory }
{
    match kind.form() {
        Form::Constant => Ok(Some(first_attribute(alloc, &head.attrs)?)),
        Form::Folds(_, otherwise) => fold_operands(alloc, kind, otherwise, head, operand_attrs),
        Form::Picks => Ok(pick_operand(alloc, kind, operand_attrs)?),
        _ => Ok(None),
    }
}

/// The answer for each result of an operation of the form. Errors: allocation failure. Cost: constant.
pub fn answers_of(
    alloc: Global,
    form: Form,
    answer: Option<AttrObj>,
) -> Result<Vec<Option<AttrObj>>, AllocFailed<Option<AttrObj>>>
    ensures { IfOk result (λ answers. answers.items ≡ answers_in form answer) }
{
    let mut answers = Vec::new(alloc);
    match form {
        Form::Constant | Form::Folds(_, _) | Form::Picks => answers.push(answer)?,
        _ => {}
    }
    Ok(answers)
}

/// Whether the operation is a constant. Asks that the operation is live (`is_live` tests it). Cost: that of
/// `from_number`.
pub fn makes_constant<K: Roles>(op: Ptr<Operation>, ctx: &Context) -> bool
    requires { IsLive ctx.now.tree op }
    ensures { ReadsHead (λ h. is_constant (form_by (role_at K.tables) h.kind)) ctx.now.tree op result }
{
    matches!(form_at::<K>(op, ctx), Some(Form::Constant))
}
