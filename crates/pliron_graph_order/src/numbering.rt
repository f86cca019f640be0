//! Operations by number, each with the nearest one that dominates it.
ghost use Rattle.std.specs.Prelude.{◌≡◌, ◌<◌, ℕ, IfOk, OnOk, IsOkUnless, length};
ghost use Rattle.pliron_graph_order.specs.Numbering.{tables_of, AddsOperation, AddsRegion, IsStart};

use indexmap::IndexSet;
use pliron_core::{Operation, Ptr, Region};
use pliron_laws::OptError;
use std::alloc::Global;

/// The operations that are seen inside a root, and the regions that are visited.
#[derive(Drop)]
pub struct Numbering {
    pub root: Ptr<Operation>,
    /// The number of each is one greater than its place.
    pub operations: IndexSet<Ptr<Operation>>,
    /// For each number, that of the nearest operation that dominates its operation; 0 is the root's.
    pub parents: Vec<usize>,
    pub regions: IndexSet<Ptr<Region>>,
    /// For each region, the number of the nearest operation that dominates the one that holds it.
    pub above: Vec<usize>,
}

impl Numbering {
    /// The root alone has a number. Errors: allocation failure. Cost: constant.
    pub fn start(alloc: Global, root: Ptr<Operation>) -> Result<Numbering, OptError>
        ensures start { IfOk result (λ n. IsStart root (tables_of n)) }
        ensures memory { IsOkUnless result OptError.Memory }
    {
        let mut parents = Vec::new(alloc);
        parents.push(0)?;
        Ok(Numbering {
            root,
            operations: IndexSet::new(alloc),
            parents,
            regions: IndexSet::new(alloc),
            above: Vec::new(alloc),
        })
    }

    /// The operation gets the next number, below this one, unless it has one. Answers its number. Errors:
    /// allocation failure. Cost: amortised constant.
    pub fn add_operation(&mut self, op: Ptr<Operation>, above: usize) -> Result<usize, OptError>
        ensures added { IfOk result (λ number. AddsOperation (tables_of self.old) (tables_of self.new) op above
            number) }
        ensures memory { IsOkUnless result OptError.Memory }
    {
        let (place, added) = self.operations.insert_full(op)?;
        let count = self.operations.len();
        prove!(place < count);
        if !added {
            return Ok(place + 1);
        }
        self.parents.push(above)?;
        Ok(place + 1)
    }

    /// The region is visited, below this number, unless it is. Errors: allocation failure. Cost: amortised
    /// constant.
    pub fn add_region(&mut self, region: Ptr<Region>, above: usize) -> Result<(), OptError>
        ensures added { OnOk result (AddsRegion (tables_of self.old) (tables_of self.new) region above) }
        ensures memory { IsOkUnless result OptError.Memory }
    {
        if self.regions.insert(region)? {
            self.above.push(above)?;
        }
        Ok(())
    }
}
