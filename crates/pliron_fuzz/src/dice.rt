//! Choices at random, which a seed determines.
ghost use Rattle.std.specs.Prelude.{◌<◌};

use rand_core::{Rng, SeedableRng};
use rand_xoshiro::Xoshiro256PlusPlus;

/// A source of choices. Equal seeds make equal choices.
#[derive(Drop)]
pub struct Dice {
    generator: Xoshiro256PlusPlus,
}

impl Dice {
    /// The choices of this seed. Cost: constant.
    pub fn new(seed: u64) -> Self {
        Dice {
            generator: Xoshiro256PlusPlus::seed_from_u64(seed),
        }
    }

    /// A number below the bound. Asks that the bound isn't 0. Cost: constant.
    pub fn below(&mut self, bound: u64) -> u64
        requires { 0 < bound }
        ensures { result < bound }
    {
        self.generator.next_u64() % bound
    }

    /// Whether a choice is taken that is taken once in so many times, and always where that is 0. Cost:
    /// constant.
    pub fn once_in(&mut self, times: u64) -> bool {
        times == 0 || self.below(times) == 0
    }

    /// A place in a list of this length. Asks that the length isn't 0. Cost: constant.
    pub fn place_in(&mut self, length: usize) -> usize
        requires { 0 < length }
        ensures { result < length }
    {
        self.below(length as u64) as usize
    }

    /// One of the items, if there is one. Cost: constant.
    pub fn one_of<T: Copy>(&mut self, items: &[T]) -> Option<T> {
        if items.is_empty() {
            return None;
        }
        items.get(self.place_in(items.len())).copied()
    }
}
