//! The operand that is left as it is, and the number that is given whatever the other data are.
ghost use Rattle.std.specs.Prelude.{◌≡◌, map};
ghost use Rattle.pliron_evaluator.specs.Evaluator.{datum_of_value};
ghost use Rattle.pliron_dialect.specs.Identities.{is_this as is_this_of, same_datum as same_datum_of, place_by as place_by_of};
ghost use Rattle.pliron_dialect.specs.Identities.{place_of_one as place_of_one_of, place_between as place_between_of, place_in};
ghost use Rattle.pliron_dialect.specs.Identities.{agrees_with as agrees_with_of, absorption_if as absorption_if_of, absorption_of, absorber_of};
ghost use Rattle.pliron_dialect.specs.Identities.{absorbed_of, equal_if as equal_if_of, given_by as given_by_of, given_between as given_between_of};
ghost use Rattle.pliron_dialect.specs.Identities.{given_in};

use pliron_dialect::{Absorption, Identity};
use pliron_evaluator::evaluator::Datum;

// Whether the datum is this number.
fn is_this(neutral: Option<i128>, datum: &Datum) -> bool
    ensures { result ≡ is_this_of neutral (datum_of_value datum.now) }
{
    match neutral {
        Some(number) => match datum {
            Datum::Number(other) => *other == number,
            _ => false,
        },
        None => false,
    }
}

// Whether both are one datum.
fn same_datum(a: &Datum, b: &Datum) -> bool
    ensures { result ≡ same_datum_of (datum_of_value a.now) (datum_of_value b.now) }
{
    match a {
        Datum::Empty => matches!(b, Datum::Empty),
        Datum::Number(number) => match b {
            Datum::Number(other) => *number == *other,
            _ => false,
        },
        Datum::Text(text) => match b {
            Datum::Text(other) => text == other,
            _ => false,
        },
        Datum::Join(first, others) => match b {
            Datum::Join(other_first, other_others) => {
                same_datum(first, other_first) && same_datum(others, other_others)
            }
            _ => false,
        },
    }
}

// The place of the operand that is left, by what is so.
fn place_by(second_neutral: bool, first_neutral: bool, equal: bool) -> Option<usize>
    ensures { result ≡ place_by_of second_neutral first_neutral equal }
{
    if second_neutral {
        Some(0)
    } else if first_neutral {
        Some(1)
    } else if equal {
        Some(0)
    } else {
        None
    }
}

// The place of the one of two operands that is left.
fn place_between(identity: Identity, a: &Datum, b: &Datum) -> Option<usize>
    ensures { result ≡ place_between_of identity (datum_of_value a.now) (datum_of_value b.now) }
{
    let second_neutral = is_this(identity.neutral, b);
    let first_neutral = identity.either_side && is_this(identity.neutral, a);
    let equal = identity.idempotent && same_datum(a, b);
    place_by(second_neutral, first_neutral, equal)
}

// The place of an only operand that is left.
fn place_of_one(only: bool) -> Option<usize>
    ensures { result ≡ place_of_one_of only }
{
    if only { Some(0) } else { None }
}

/// The place of the operand that is left, where there is one. Cost: that of comparing two data.
pub fn place_left(identity: Identity, input: &[Datum]) -> Option<usize>
    ensures { result ≡ place_in identity (map datum_of_value input.now) }
{
    match input {
        [_] => place_of_one(identity.only),
        [a, b] => place_between(identity, a, b),
        _ => None,
    }
}

// Whether there is no other number.
fn agrees_with(number: Option<i128>, other: i128) -> bool
    ensures { result ≡ agrees_with_of number other }
{
    match number {
        Some(number) => number == other,
        None => true,
    }
}

// What absorbs, if it gives itself where it has to.
fn absorption_if(itself: bool, absorbing: Option<Absorption>) -> Option<Absorption>
    ensures { result ≡ absorption_if_of itself absorbing }
{
    match absorbing {
        Some(absorption) => {
            if itself && absorption.operand != absorption.result {
                None
            } else {
                Some(absorption)
            }
        }
        None => None,
    }
}

// What absorbs.
fn absorption(identity: Identity) -> Option<Absorption>
    ensures { result ≡ absorption_of identity }
{
    absorption_if(
        identity.either_side || identity.idempotent,
        identity.absorbing,
    )
}

// The number that absorbs.
fn absorber(identity: Identity) -> Option<i128>
    ensures { result ≡ absorber_of identity }
{
    match absorption(identity) {
        Some(absorption) => Some(absorption.operand),
        None => None,
    }
}

// The number that is absorbed to.
fn absorbed_number(identity: Identity) -> Option<i128>
    ensures { result ≡ absorbed_of identity }
{
    match absorption(identity) {
        Some(absorption) => Some(absorption.result),
        None => None,
    }
}

// What equal operands give, if what is neutral and what is absorbed is no other number.
fn equal_if(neutral: Option<i128>, absorbed: Option<i128>, equal: Option<i128>) -> Option<i128>
    ensures { result ≡ equal_if_of neutral absorbed equal }
{
    match equal {
        Some(number) => {
            if agrees_with(neutral, number) && agrees_with(absorbed, number) {
                Some(number)
            } else {
                None
            }
        }
        None => None,
    }
}

// The number that is given, by what is so.
fn given_by(identity: Identity, second: bool, first: bool, equal: bool) -> Option<i128>
    ensures { result ≡ given_by_of identity second first equal }
{
    if second || first {
        absorbed_number(identity)
    } else if equal {
        equal_if(identity.neutral, absorbed_number(identity), identity.equal)
    } else {
        None
    }
}

// The number that two operands give.
fn given_between(identity: Identity, a: &Datum, b: &Datum) -> Option<i128>
    ensures { result ≡ given_between_of identity (datum_of_value a.now) (datum_of_value b.now) }
{
    let second = is_this(absorber(identity), b);
    let first = identity.either_side && is_this(absorber(identity), a);
    given_by(identity, second, first, same_datum(a, b))
}

/// The number that is given whatever the other data are, where there is one. Cost: that of comparing two data.
pub fn number_given(identity: Identity, input: &[Datum]) -> Option<i128>
    ensures { result ≡ given_in identity (map datum_of_value input.now) }
{
    match input {
        [a, b] => given_between(identity, a, b),
        _ => None,
    }
}
