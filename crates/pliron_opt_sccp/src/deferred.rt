//! The deferred worklist: operations with many operands wait until nothing shorter is left to visit.
//!
//! Deferred operations are in sets by the binary logarithm of the number of operands: an operation is there
//! once, and one of the shortest is found in constant time. What was propagated eagerly, and isn't urgent (it
//! folds no result, and no operand that it doesn't just forward was lowered), comes last. Eight operands cost
//! at most seventeen visits, since each is lowered twice at most, so shorter operations are never deferred. The
//! search ends since what can still be popped counts 2^64 times as much as what is deferred.
//!
//! A deferred visit is no lattice value, and this is no worklist of values or blocks. Each block that is entered and
//! each value that is lowered waits in `Tables`, by its number, with the room reserved beforehand; it is popped there
//! one by one, and counted, before an operation is visited for it or deferred. A visit pops nothing and is not counted,
//! whether it was deferred or not.
//!
//! The sets are by handle, and grow: operations have no numbers here, and a number for each would cost each text a
//! table as long as itself, while few operations have so many operands. So deferring may fail to allocate. No rewrite
//! was begun by then, so the tree is as before.
//!
//! It serves growth alone: without it `shiftcbr` of `docs/benchmarks/shapes.py` is quadratic.
ghost use Rattle.std.specs.Prelude.{◌≡◌, ◌<◌, ◌≤◌, ◌+◌, ℕ, [], IfNone, IfOk, IfSome, OnOk, IsOkUnless, IsTrue, Some, ◌↔◌, length, slice_get};
ghost use Rattle.pliron_opt_sccp.specs.Deferring.{HasFirst, Defers, PopsDeferred, deferred_operations};

use indexmap::IndexSet;
use pliron_core::{Operation, Ptr};
use pliron_laws::OptError;
use std::alloc::Global;

/// Operations that are deferred: in set number i those with at least `2^i` operands and fewer than `2^(i + 1)`,
/// so that one of those with the fewest is found in constant time. In the last set are those of which all that
/// was lowered was propagated eagerly, so that a visit most likely changes nothing.
#[derive(Drop)]
pub struct DeferredOperations {
    sets: Vec<IndexSet<Ptr<Operation>>>,
}

/// The number of the last set.
const LAST: usize = 64;

// The number of the set for an operation with so many operands.
fn set_number(operands: usize, is_urgent: bool) -> usize
    requires { 0 < operands }
    ensures { result ≤ 64 }
{
    if is_urgent {
        operands.ilog2() as usize
    } else {
        LAST
    }
}

impl DeferredOperations {
    /// Nothing is deferred. Takes no memory. Cost: constant.
    pub fn new(alloc: Global) -> Self
        ensures { deferred_operations result ≡ [] }
    {
        DeferredOperations {
            sets: Vec::new(alloc),
        }
    }

    /// Defers an operation with so many operands, behind all that are urgent where it isn't.
    ///
    /// Asks that it has an operand. Errors: allocation failure. Cost: constant.
    pub fn put(
        &mut self,
        alloc: Global,
        op: Ptr<Operation>,
        operands: usize,
        is_urgent: bool,
    ) -> Result<(), OptError>
        requires { 0 < operands }
        ensures ok { OnOk result (Defers op (deferred_operations self.old) (deferred_operations self.new)) }
        ensures memory { IsOkUnless result OptError.Memory }
    {
        let i = set_number(operands, is_urgent);
        while self.sets.len() <= i {
            self.sets.push(IndexSet::new(alloc))?;
        }
        self.sets[i].insert(op)?;
        Ok(())
    }

    /// Takes one of those with the fewest operands, to within a factor of two, or else of the last set; `None` where
    /// nothing is deferred. Cost: constant, since there are at most 65 sets.
    pub fn take(&mut self) -> Option<Ptr<Operation>>
        ensures some { IfSome result (λ op. PopsDeferred op (deferred_operations self.old)
            (deferred_operations self.new)) }
        ensures none { IfNone result (deferred_operations self.old ≡ []) }
    {
        let i = self.first()?;
        self.sets[i].pop()
    }

    // The first set that isn't empty.
    fn first(&self) -> Option<usize>
        ensures some { IfSome result (λ i. HasFirst self.now i) }
        ensures none { IfNone result (deferred_operations self.now ≡ []) }
    {
        for i in 0..self.sets.len() {
            if !self.sets[i].is_empty() {
                return Some(i);
            }
        }
        None
    }
}
