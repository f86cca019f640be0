//! What leaves an operand as it is, or gives one number.
ghost use Rattle.std.specs.Prelude.{◌≡◌, ◌&&◌};
ghost use Rattle.pliron_core.specs.Tree.{IsLive, operands_of};
ghost use Rattle.pliron_laws.specs.Datum.{datum_of};
ghost use Rattle.pliron_dialect.specs.Identities.{no_identity, is_this as is_this_of, is_known_as as is_known_as_of, same_datum, are_same, place_by as place_by_of, place_of_one as place_of_one_of, place_between as place_between_of, place_of_two as place_of_two_of, place_known, identity_operand};
ghost use Rattle.pliron_dialect.specs.Identities.{annihilating_place as annihilating_place_of, operand_by_fact as operand_by_fact_of};

use pliron_core::{AttrObj, Context, Operation, Ptr};

/// What gives one number. The other operand may be any.
#[derive(Clone, Copy, Debug, PartialEq, Eq)]
pub struct Absorption {
    pub operand: i128,
    pub result: i128,
}

/// An operand that is itself the result. It is the first one, on either side also the second one.
#[derive(Clone, Copy, Debug, PartialEq, Eq)]
pub struct Annihilator {
    pub operand: i128,
    pub either_side: bool,
}

/// What leaves an operand. It may also give one number, whatever the other data are.
#[derive(Clone, Copy, Debug, PartialEq, Eq)]
pub struct Identity {
    /// The number that leaves the first operand, where it is the second.
    pub neutral: Option<i128>,
    /// It leaves the second operand, too, where it is the first; and what absorbs may be the first.
    pub either_side: bool,
    /// Equal operands leave the first of them.
    pub idempotent: bool,
    /// The only operand is left.
    pub only: bool,
    /// The number that equal operands give. It counts for nothing where what is neutral or absorbed is another one.
    pub equal: Option<i128>,
    /// What absorbs as the second operand. Where `either_side` or `idempotent` is so, it counts if it gives itself.
    pub absorbing: Option<Absorption>,
    /// The operand that is itself the result. It counts where nothing is left to the interpretation; there nothing else
    /// but `equal` does.
    pub annihilator: Option<Annihilator>,
}

impl Identity {
    /// Nothing leaves an operand or gives a number. Cost: constant.
    pub fn none() -> Identity
        ensures { result ≡ no_identity }
    {
        Identity {
            neutral: None,
            either_side: false,
            idempotent: false,
            only: false,
            equal: None,
            absorbing: None,
            annihilator: None,
        }
    }
}

// Whether the attribute is this number.
pub(crate) fn is_this(neutral: Option<i128>, attr: &AttrObj) -> bool
    ensures { result ≡ is_this_of neutral (datum_of attr.now) }
{
    match neutral {
        Some(number) => match attr {
            AttrObj::Int(other) => *other == number,
            AttrObj::Text(_) => false,
        },
        None => false,
    }
}

// Whether the operand is known to be this number.
pub(crate) fn is_known_as(neutral: Option<i128>, known: &Option<AttrObj>) -> bool
    ensures { result ≡ is_known_as_of neutral known.now }
{
    match known {
        Some(attr) => is_this(neutral, attr),
        None => false,
    }
}

// Whether both attributes have the same datum.
pub(crate) fn has_same_datum(a: &AttrObj, b: &AttrObj) -> bool
    ensures { result ≡ same_datum (datum_of a.now) (datum_of b.now) }
{
    match a {
        AttrObj::Int(number) => match b {
            AttrObj::Int(other) => *number == *other,
            AttrObj::Text(_) => false,
        },
        AttrObj::Text(text) => match b {
            AttrObj::Int(_) => false,
            AttrObj::Text(other) => text == other,
        },
    }
}

// The place of the operand that is left, by what is so.
fn place_by(second_neutral: bool, first_neutral: bool, equal: bool) -> Option<usize>
    ensures { result ≡ place_by_of second_neutral first_neutral equal }
{
    if second_neutral {
        Some(0)
    } else if first_neutral {
        Some(1)
    } else if equal {
        Some(0)
    } else {
        None
    }
}

// The place of the one of two known operands that is left.
fn place_between(identity: Identity, a: &AttrObj, b: &AttrObj) -> Option<usize>
    ensures { result ≡ place_between_of identity (datum_of a.now) (datum_of b.now) }
{
    let second_neutral = is_this(identity.neutral, b);
    let first_neutral = identity.either_side && is_this(identity.neutral, a);
    let equal = identity.idempotent && has_same_datum(a, b);
    place_by(second_neutral, first_neutral, equal)
}

// The place of the operand that is left of two, where both are known.
fn place_of_two(identity: Identity, a: &Option<AttrObj>, b: &Option<AttrObj>) -> Option<usize>
    ensures { result ≡ place_of_two_of identity a.now b.now }
{
    match a {
        Some(a) => match b {
            Some(b) => place_between(identity, a, b),
            None => None,
        },
        None => None,
    }
}

// The place of an only operand that is left.
fn place_of_one(only: bool) -> Option<usize>
    ensures { result ≡ place_of_one_of only }
{
    if only { Some(0) } else { None }
}

/// The place of the operand that is left, where it is the only one, or one of two that are both known. Cost: that of
/// comparing two attributes.
pub fn known_place(identity: Identity, operand_attrs: &[Option<AttrObj>]) -> Option<usize>
    ensures { result ≡ place_known identity operand_attrs.now }
{
    match operand_attrs {
        [_] => place_of_one(identity.only),
        [a, b] => place_of_two(identity, a, b),
        _ => None,
    }
}

// Whether there are two operands, which are the same value.
pub(crate) fn has_same_operands(op: Ptr<Operation>, ctx: &Context) -> bool
    requires { IsLive ctx.now.tree op }
    ensures { result ≡ are_same (operands_of ctx.now.tree op) }
{
    op.num_operand(ctx) == 2 && op.get_operand(ctx, 0) == op.get_operand(ctx, 1)
}

// The place of the operand that is left of two, where it follows from what is known of one of them, or from both being
// the same value.
fn operand_of_two(
    identity: Identity,
    a: &Option<AttrObj>,
    b: &Option<AttrObj>,
    same: bool,
) -> Option<usize>
    ensures { result ≡ place_by_of (is_known_as_of identity.neutral b.now) (identity.either_side && is_known_as_of
        identity.neutral a.now) (identity.idempotent && same) }
{
    let second_neutral = is_known_as(identity.neutral, b);
    let first_neutral = identity.either_side && is_known_as(identity.neutral, a);
    place_by(second_neutral, first_neutral, identity.idempotent && same)
}

/// The place of the operand that is left, where it is the only one, or one of two and the place follows from what is
/// known of one of them or from both being the same value. Asks that the operation is live (`is_live` tests it). Cost:
/// constant.
pub fn operand_by_identity(
    identity: Identity,
    op: Ptr<Operation>,
    ctx: &Context,
    operand_attrs: &[Option<AttrObj>],
) -> Option<usize>
    requires { IsLive ctx.now.tree op }
    ensures { result ≡ identity_operand identity operand_attrs.now (operands_of ctx.now.tree op) }
{
    match operand_attrs {
        [_] => place_of_one(identity.only),
        [a, b] => operand_of_two(identity, a, b, has_same_operands(op, ctx)),
        _ => None,
    }
}

// The place of the one of two operands that is known to be itself the result.
fn annihilating_place(
    annihilator: Option<Annihilator>,
    a: &Option<AttrObj>,
    b: &Option<AttrObj>,
) -> Option<usize>
    ensures { result ≡ annihilating_place_of annihilator a.now b.now }
{
    match annihilator {
        Some(annihilator) => {
            if is_known_as(Some(annihilator.operand), a) {
                Some(0)
            } else if annihilator.either_side && is_known_as(Some(annihilator.operand), b) {
                Some(1)
            } else {
                None
            }
        }
        None => None,
    }
}

/// The place of the operand that is itself the result, where there are two operands, and that follows from what is
/// known of one of them. Cost: constant.
pub fn operand_by_fact(identity: Identity, operand_attrs: &[Option<AttrObj>]) -> Option<usize>
    ensures { result ≡ operand_by_fact_of identity operand_attrs.now }
{
    match operand_attrs {
        [a, b] => annihilating_place(identity.annihilator, a, b),
        _ => None,
    }
}
