//! Numbered operations in the pre-order of their tree.
ghost use Rattle.std.specs.Prelude.{◌≡◌, ℕ, suc, IfOk, IsOkUnless, length};
ghost use Rattle.pliron_core.specs.Tree.{In};
ghost use Rattle.pliron_graph_dominance.specs.TreeIntervals.{AreIntervals};
ghost use Rattle.pliron_graph_order.specs.Numbering.{tables_of, IsNumbering};
ghost use Rattle.pliron_graph_order.specs.Order.{IsOrder};
ghost use Rattle.pliron_graph_order.specs.Preorder.{AreAtPlaces, HaveIndices, ListsInPlace};
ghost use Rattle.pliron_graph_order.specs.Seen.{IsSeen};

use crate::numbering::Numbering;
use pliron_core::{Context, Operation, Ptr};
use pliron_graph_dominance::tree_intervals::TreePlaces;
use pliron_laws::OptError;
use std::alloc::Global;

/// Operations in dominance order: those that one dominates come directly behind it, up to its end.
#[derive(Drop)]
pub struct DominanceOrder {
    pub operations: Vec<Ptr<Operation>>,
    /// For each operation, the place behind all that it dominates.
    pub ends: Vec<usize>,
}

// For each place the number that has it.
fn numbers_by_place(
    alloc: Global,
    parents: &[usize],
    places: &TreePlaces,
) -> Result<Vec<usize>, OptError>
    requires counted { length places.now.places ≡ length parents.now }
    requires intervals { AreIntervals parents.now places.now }
    ensures numbers { IfOk result (λ r. AreAtPlaces (length parents.now) places.now.places r.items) }
    ensures memory { IsOkUnless result OptError.Memory }
{
    let mut numbers = vec![in alloc; 0; parents.len()]?;
    for number in 0..parents.len() {
        numbers[places.place(number)] = number;
    }
    Ok(numbers)
}

// The operations of the numbers in the order of their places, but for the first, and for each the place behind all
// below it.
fn list_by_place(
    alloc: Global,
    listed: &[Ptr<Operation>],
    numbers: &[usize],
    places: &TreePlaces,
) -> Result<DominanceOrder, OptError>
    requires counted { length numbers.now ≡ suc (length listed.now) }
    requires placed { HaveIndices numbers.now places.now }
    ensures listed { IfOk result (λ o. ListsInPlace (length numbers.now) numbers.now listed.now places.now
        o.operations.items o.ends.items) }
    ensures memory { IsOkUnless result OptError.Memory }
{
    let mut operations = Vec::new(alloc);
    let mut ends = Vec::new(alloc);
    for place in 1..numbers.len() {
        let number = numbers[place];
        operations.push(listed[number - 1])?;
        ends.push(place + places.size(number) - 1)?;
    }
    Ok(DominanceOrder { operations, ends })
}

/// The numbered operations in pre-order. Asks that the numbers are those of the operations that are seen inside
/// the root. Errors: allocation failure. Cost: linear in the numbers.
pub fn in_preorder(
    alloc: Global,
    numbering: &Numbering,
    ctx: &Context,
) -> Result<DominanceOrder, OptError>
    requires numbered { IsNumbering ctx.now.tree (tables_of numbering.now) }
    requires all { (k : ℕ) → IsSeen ctx.now.tree numbering.now.root k → In k (tables_of numbering.now).ops }
    ensures order { IfOk result (λ o. IsOrder ctx.now.tree numbering.now.root o.operations.items o.ends.items) }
    ensures memory { IsOkUnless result OptError.Memory }
{
    let places = TreePlaces::new(alloc, &numbering.parents)?;
    let numbers = numbers_by_place(alloc, &numbering.parents, &places)?;
    list_by_place(alloc, numbering.operations.as_slice(), &numbers, &places)
}
