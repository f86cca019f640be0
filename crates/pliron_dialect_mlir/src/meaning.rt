//! The dialect.
ghost use Rattle.std.specs.Prelude.{◌≡◌, Some, map, IfOk, IfSome};
ghost use Rattle.pliron_evaluator.specs.Evaluator.{datum_of_value};
ghost use Rattle.pliron_dialect_mlir.specs.ComputedMeaning.{no_edge as edge_behind_all, given_to_class, given_in_runs};

use crate::kind::{Class, Interpretation, MlirKind, numbered_class};
use pliron_core::Head;
use pliron_dialect::ByRoles;
use pliron_evaluator::evaluator::Datum;
use std::alloc::{AllocError, Global};

/// Operations of MLIR under an interpretation. It is a dialect under each.
pub type Mlir<I> = ByRoles<MlirKind<I>>;

/// Interpretations that can be computed.
pub trait Computes: Interpretation {
    /// What an operation with this head gives of these data, where no table says it; `None` where that isn't known.
    /// Errors: allocation failure.
    fn compute(
        alloc: Global,
        head: &Head,
        input: &[Datum],
    ) -> Result<Option<Vec<Datum>>, AllocError>
        ensures { IfOk result (λ found. IfSome found (λ values. map datum_of_value values.items ≡ Self.value
            head.now (map datum_of_value input.now))) };
}

/// Some interpretation, by which functions run: nothing is given of other data than integers, and a branch on what is no
/// number goes nowhere. No pass depends on which it is.
#[derive(Clone, Copy, Debug, PartialEq, Eq)]
pub struct AnyMeaning;

impl Interpretation for AnyMeaning {
    ghost value = { given_in_runs };
}

// An edge that a branch or a switch with this head, without the counts of its edges, hasn't.
fn no_edge(alloc: Global, head: &Head) -> Result<Vec<Datum>, AllocError>
    ensures { IfOk result (λ values. map datum_of_value values.items ≡ edge_behind_all head.now) }
{
    let edge = head.attrs.len() as i128 + 2;
    let mut data = Vec::new(alloc);
    data.push(Datum::Number(edge))?;
    Ok(data)
}

// What an operation of the class with this head gives.
fn given_of_class(alloc: Global, class: Class, head: &Head) -> Result<Vec<Datum>, AllocError>
    ensures { IfOk result (λ values. map datum_of_value values.items ≡ given_to_class (Some class) head.now) }
{
    match class {
        Class::Branch | Class::Switch => no_edge(alloc, head),
        _ => Ok(Vec::new(alloc)),
    }
}

impl Computes for AnyMeaning {
    fn compute(
        alloc: Global,
        head: &Head,
        _input: &[Datum],
    ) -> Result<Option<Vec<Datum>>, AllocError> {
        match numbered_class(head.kind) {
            Some(class) => Ok(Some(given_of_class(alloc, class, head)?)),
            None => Ok(Some(Vec::new(alloc))),
        }
    }
}
