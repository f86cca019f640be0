//! Numbers by keys, so that a look-up takes no hash where keys are close together.
use std::alloc::{AllocError, Global};
use std::collections::HashMap;

/// The number of each of some keys.
///
/// ```text
/// first   the least key with a place of its own
/// near    by the distance from the first: one more than the number, or 0 where there is none
/// far     the numbers of all keys that have no place there
/// ```
#[derive(Drop)]
pub struct Numbers {
    first: u64,
    near: Vec<usize>,
    far: HashMap<u64, usize>,
}

impl Numbers {
    /// No numbers yet. So many keys from `first` on have a place of their own.
    ///
    /// Errors: allocation failure. Cost: one step for each place.
    pub fn new(alloc: Global, first: u64, places: usize) -> Result<Numbers, AllocError> {
        Ok(Numbers {
            first,
            near: Vec::from_elem(alloc, 0, places)?,
            far: HashMap::new(alloc),
        })
    }

    // The place of the key. That of a key below the first is behind all places.
    #[inline(always)]
    fn place(&self, key: u64) -> usize {
        key.wrapping_sub(self.first) as usize
    }

    /// Gives the key its number.
    ///
    /// Errors: allocation failure. Cost: constant, amortised.
    #[inline(always)]
    pub fn insert(&mut self, key: u64, number: usize) -> Result<(), AllocError> {
        let place = self.place(key);
        if place < self.near.len() {
            self.near[place] = number.saturating_add(1);
            return Ok(());
        }
        self.insert_far(key, number)
    }

    #[inline(never)]
    fn insert_far(&mut self, key: u64, number: usize) -> Result<(), AllocError> {
        self.far.insert(key, number)?;
        Ok(())
    }

    /// The number of the key, if it has one. Cost: constant.
    #[inline(always)]
    pub fn get(&self, key: u64) -> Option<usize> {
        let place = self.place(key);
        if place < self.near.len() {
            return self.near[place].checked_sub(1);
        }
        self.get_far(key)
    }

    #[inline(never)]
    fn get_far(&self, key: u64) -> Option<usize> {
        self.far.get(&key).copied()
    }
}
