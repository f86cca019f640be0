//! The number that is given whatever the other data are.
ghost use Rattle.std.specs.Prelude.{◌≡◌, ◌&&◌};
ghost use Rattle.pliron_core.specs.Tree.{IsLive, operands_of};
ghost use Rattle.pliron_laws.specs.Datum.{datum_of};
ghost use Rattle.pliron_dialect.specs.Identities.{agrees_with as agrees_with_of, absorption_if as absorption_if_of, absorption_of, absorber_of, absorbed_of, equal_if as equal_if_of, equal_of};
ghost use Rattle.pliron_dialect.specs.Identities.{is_known_as as is_known_as_of, given_by as given_by_of, given_between as given_between_of, given_of_two as given_of_two_of, given_known, identity_constant, constant_by_fact as constant_by_fact_of};

use crate::identity::{
    Absorption, Identity, has_same_datum, has_same_operands, is_known_as, is_this,
};
use pliron_core::{AttrObj, Context, Operation, Ptr};

// Whether there is no other number.
fn agrees_with(number: Option<i128>, other: i128) -> bool
    ensures { result ≡ agrees_with_of number other }
{
    match number {
        Some(number) => number == other,
        None => true,
    }
}

// What absorbs, if it gives itself where it has to.
fn absorption_if(itself: bool, absorbing: Option<Absorption>) -> Option<Absorption>
    ensures { result ≡ absorption_if_of itself absorbing }
{
    match absorbing {
        Some(absorption) => {
            if itself && absorption.operand != absorption.result {
                None
            } else {
                Some(absorption)
            }
        }
        None => None,
    }
}

// What equal operands give, if what is neutral and what is absorbed is no other number.
fn equal_if(neutral: Option<i128>, absorbed: Option<i128>, equal: Option<i128>) -> Option<i128>
    ensures { result ≡ equal_if_of neutral absorbed equal }
{
    match equal {
        Some(number) => {
            if agrees_with(neutral, number) && agrees_with(absorbed, number) {
                Some(number)
            } else {
                None
            }
        }
        None => None,
    }
}

impl Identity {
    // What absorbs.
    fn absorption(self) -> Option<Absorption>
        ensures { result ≡ absorption_of self }
    {
        absorption_if(self.either_side || self.idempotent, self.absorbing)
    }

    // The number that absorbs.
    fn absorber(self) -> Option<i128>
        ensures { result ≡ absorber_of self }
    {
        match self.absorption() {
            Some(absorption) => Some(absorption.operand),
            None => None,
        }
    }

    // The number that is absorbed to.
    fn absorbed_number(self) -> Option<i128>
        ensures { result ≡ absorbed_of self }
    {
        match self.absorption() {
            Some(absorption) => Some(absorption.result),
            None => None,
        }
    }
}

// The number that is given, by what is so.
fn given_by(identity: Identity, second: bool, first: bool, equal: bool) -> Option<i128>
    ensures { result ≡ given_by_of identity second first equal }
{
    if second || first {
        identity.absorbed_number()
    } else if equal {
        equal_if(identity.neutral, identity.absorbed_number(), identity.equal)
    } else {
        None
    }
}

// The number that two known operands give.
fn given_between(identity: Identity, a: &AttrObj, b: &AttrObj) -> Option<i128>
    ensures { result ≡ given_between_of identity (datum_of a.now) (datum_of b.now) }
{
    let second = is_this(identity.absorber(), b);
    let first = identity.either_side && is_this(identity.absorber(), a);
    given_by(identity, second, first, has_same_datum(a, b))
}

// The number that two operands give, where both are known.
fn given_of_two(identity: Identity, a: &Option<AttrObj>, b: &Option<AttrObj>) -> Option<i128>
    ensures { result ≡ given_of_two_of identity a.now b.now }
{
    match a {
        Some(a) => match b {
            Some(b) => given_between(identity, a, b),
            None => None,
        },
        None => None,
    }
}

/// The number that is given, where there are two operands, which are both known. Cost: that of comparing two
/// attributes.
pub fn known_given(identity: Identity, operand_attrs: &[Option<AttrObj>]) -> Option<i128>
    ensures { result ≡ given_known identity operand_attrs.now }
{
    match operand_attrs {
        [a, b] => given_of_two(identity, a, b),
        _ => None,
    }
}

// The number that is given, where it follows from what is known of one of two operands, or from both being the same
// value.
fn constant_of_two(
    identity: Identity,
    a: &Option<AttrObj>,
    b: &Option<AttrObj>,
    same: bool,
) -> Option<i128>
    ensures { result ≡ given_by_of identity (is_known_as_of (absorber_of identity) b.now) (identity.either_side &&
        is_known_as_of (absorber_of identity) a.now) same }
{
    let second = is_known_as(identity.absorber(), b);
    let first = identity.either_side && is_known_as(identity.absorber(), a);
    given_by(identity, second, first, same)
}

/// The number that is given, where there are two operands, and it follows from what is known of one of them or from
/// both being the same value. Asks that the operation is live (`is_live` tests it). Cost: constant.
pub fn constant_by_identity(
    identity: Identity,
    op: Ptr<Operation>,
    ctx: &Context,
    operand_attrs: &[Option<AttrObj>],
) -> Option<i128>
    requires { IsLive ctx.now.tree op }
    ensures { result ≡ identity_constant identity operand_attrs.now (operands_of ctx.now.tree op) }
{
    match operand_attrs {
        [a, b] => constant_of_two(identity, a, b, has_same_operands(op, ctx)),
        _ => None,
    }
}

/// The number that two operands give that are the same value. Asks that the operation is live (`is_live` tests it).
/// Cost: constant.
pub fn constant_by_fact(
    identity: Identity,
    op: Ptr<Operation>,
    ctx: &Context,
    operand_attrs: &[Option<AttrObj>],
) -> Option<i128>
    requires { IsLive ctx.now.tree op }
    ensures { result ≡ constant_by_fact_of identity operand_attrs.now (operands_of ctx.now.tree op) }
{
    match operand_attrs {
        [_, _] => {
            if has_same_operands(op, ctx) {
                identity.equal
            } else {
                None
            }
        }
        _ => None,
    }
}
