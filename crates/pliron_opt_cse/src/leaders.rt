//! The operations that lead others, by what they have in common with them.
ghost use Rattle.std.specs.Prelude.{◌≡◌, ◌≢◌, ℕ, List, None, Some, OnOk, IsOkUnless};
ghost use Rattle.pliron_opt_cse.specs.Leaders.{leader_with};

use indexmap::IndexMap;
use pliron_laws::OptError;
use std::alloc::Global;

/// For each key the place of the last operation with it that stayed.
#[derive(Drop)]
pub struct Leaders {
    places: IndexMap<Vec<u64>, usize>,
}

impl Leaders {
    /// No operation leads. Cost: constant.
    pub fn new(alloc: Global) -> Leaders
        ensures { (key : List ℕ) → leader_with result key ≡ None }
    {
        Leaders {
            places: IndexMap::new(alloc),
        }
    }

    /// The place of the operation that leads those with this key. Takes no memory. Cost: one table look-up.
    pub fn find(&self, key: &Vec<u64>) -> Option<usize>
        ensures { result ≡ leader_with self.now key.now.items }
    {
        self.places.get(key).copied()
    }

    /// The operation at this place leads those with this key. Errors: allocation failure. Cost: one table look-up.
    pub fn put(&mut self, key: Vec<u64>, place: usize) -> Result<(), OptError>
        ensures put { OnOk result (leader_with self.new key.items ≡ Some place) }
        ensures others { OnOk result ((other : List ℕ) → other ≢ key.items → leader_with self.new other ≡ leader_with
            self.old other) }
        ensures memory { IsOkUnless result OptError.Memory }
    {
        self.places.insert(key, place)?;
        Ok(())
    }
}
