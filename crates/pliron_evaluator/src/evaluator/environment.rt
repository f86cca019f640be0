//! The data of values, and lists of which the first item is put and taken.
ghost use Rattle.std.specs.Prelude.{◌≡◌, [], ◌∷◌, drop, map, Some, None, if◌then◌else◌, IfOk, OnOk, MatchOption};
ghost use Rattle.std.specs.Option.{option_map};
ghost use Rattle.pliron_laws.specs.States.{bind, environment_with, data_of};
ghost use Rattle.pliron_evaluator.specs.Evaluator.{datum_of_value, environment_of, answer_of_values};

use crate::evaluator::values::Datum;
use pliron_core::{Operation, Ptr, Value};
use std::alloc::{AllocError, Global};
use std::collections::{HashMap, VecDeque};

/// Puts the item before all others.
pub(super) fn put_first<T: Drop>(items: &mut VecDeque<T>, item: T) -> Result<(), AllocError>
    ensures { OnOk result (items.new.items ≡ item ∷ items.old.items) }
{
    items.push_front(item)?;
    Ok(())
}

/// Takes the first item out, if there is one.
pub(super) fn take_first<T>(items: &mut VecDeque<T>) -> Option<T>
    ensures { MatchOption result ((items.old.items ≡ []) × (items.new.items ≡ []))
        (λ item. items.old.items ≡ item ∷ items.new.items) }
{
    items.pop_front()
}

/// The first item, if there is one.
pub(super) fn first<T>(items: &VecDeque<T>) -> Option<&T>
    ensures { MatchOption result (items.now.items ≡ []) (λ item. items.now.items ≡ item.now ∷ drop 1 items.now.items) }
{
    items.front()
}

/// The first of the operations, if there is one.
pub(super) fn first_operation(rest: &VecDeque<Ptr<Operation>>) -> Option<Ptr<Operation>>
    ensures { MatchOption result (rest.now.items ≡ []) (λ op. rest.now.items ≡ op ∷ drop 1 rest.now.items) }
{
    match first(rest) {
        Some(op) => Some(*op),
        None => None,
    }
}

// Binds the value to a copy of the datum.
fn bind_one(
    alloc: Global,
    environment: &mut HashMap<Value, Datum>,
    value: Value,
    datum: &Datum,
) -> Result<(), AllocError>
    ensures { OnOk result (environment_of environment.new ≡ environment_with (environment_of environment.old) value
        (datum_of_value datum.now)) }
{
    let copy = datum.copy(alloc)?;
    environment.insert(value, copy)?;
    Ok(())
}

/// Binds each of the values to its datum, in order. Answers whether there are as many of both.
pub(super) fn bind(
    alloc: Global,
    environment: &mut HashMap<Value, Datum>,
    values: &[Value],
    content: &[Datum],
) -> Result<bool, AllocError>
    ensures { IfOk result (λ fits. bind (environment_of environment.old) values.now (map datum_of_value content.now) ≡
        (if fits then Some (environment_of environment.new) else None)) }
{
    if values.len() != content.len() {
        return Ok(false);
    }
    for i in 0..values.len() {
        bind_one(alloc, environment, values[i], &content[i])?;
    }
    Ok(true)
}

/// The datum of the value, if it has one.
pub(super) fn datum_at(
    alloc: Global,
    environment: &HashMap<Value, Datum>,
    value: Value,
) -> Result<Option<Datum>, AllocError>
    ensures { IfOk result (λ found. option_map datum_of_value found ≡ environment_of environment.now value) }
{
    match environment.get(&value) {
        Some(datum) => Ok(Some(datum.copy(alloc)?)),
        None => Ok(None),
    }
}

/// The data of these values, where each has one.
pub(super) fn all_data(
    alloc: Global,
    environment: &HashMap<Value, Datum>,
    values: &[Value],
) -> Result<Option<Vec<Datum>>, AllocError>
    ensures { IfOk result (λ found. answer_of_values found ≡ data_of (environment_of environment.now) values.now) }
{
    let mut data = Vec::new(alloc);
    for value in values {
        let Some(datum) = datum_at(alloc, environment, *value)? else {
            return Ok(None);
        };
        data.push(datum)?;
    }
    Ok(Some(data))
}
