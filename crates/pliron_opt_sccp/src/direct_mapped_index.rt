//! A direct-mapped index: guesses of numbers by handles, so that a look-up takes no hash where handles lie close
//! together.
//!
//! Handles of what is inside an operation mostly lie close together, so a table by the distance from the least handle
//! has the number of each, and one comparison with the list of handles shows whether it is that one's. A wrong guess
//! costs a look-up by hash, so no invariant is owed. The table has two entries for each handle.
ghost use Rattle.std.specs.Prelude.{IsOkUnless};

use pliron_core::{BasicBlock, Ptr, Value};
use pliron_laws::OptError;
use std::alloc::Global;

/// What is a handle, with a number among those of its kind.
pub trait HasKey {
    /// The number of the handle. Cost: constant.
    fn own_key(&self) -> u64;
}

impl HasKey for Value {
    fn own_key(&self) -> u64 {
        self.key()
    }
}

impl HasKey for Ptr<BasicBlock> {
    fn own_key(&self) -> u64 {
        self.key()
    }
}

/// The number that each of some handles most likely has. Nothing is promised of it: a caller tests it.
///
/// ```text
/// first     the least of the handles
/// numbers   by the distance from the first; the handles further away than there is room have none
/// ```
#[derive(Drop)]
pub struct DirectMappedIndex {
    first: u64,
    numbers: Vec<usize>,
}

impl DirectMappedIndex {
    /// The places in the list are the numbers. There is room for twice as many handles as are listed.
    ///
    /// Errors: allocation failure. Cost: one step for each.
    pub fn of_handles<T: HasKey>(alloc: Global, listed: &[T]) -> Result<DirectMappedIndex, OptError>
        ensures memory { IsOkUnless result OptError.Memory }
    {
        let mut first = u64::MAX;
        for n in 0..listed.len() {
            first = first.min(listed[n].own_key());
        }
        let numbers = Vec::from_elem(alloc, 0, listed.len().saturating_mul(2))?;
        let mut mapped_keys = DirectMappedIndex { first, numbers };
        for n in 0..listed.len() {
            mapped_keys.put(listed[n].own_key(), n);
        }
        Ok(mapped_keys)
    }

    // The index of the guess for a handle; one behind the last where there is no room for it.
    #[inline(always)]
    fn place(&self, key: u64) -> usize {
        key.wrapping_sub(self.first) as usize
    }

    fn put(&mut self, key: u64, number: usize) {
        let place = self.place(key);
        if place < self.numbers.len() {
            self.numbers[place] = number;
        }
    }

    /// A number that the handle may have. Takes no memory. Cost: constant.
    #[inline(always)]
    pub fn get(&self, key: u64) -> usize {
        let place = self.place(key);
        if place < self.numbers.len() {
            self.numbers[place]
        } else {
            0
        }
    }
}
