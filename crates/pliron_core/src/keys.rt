//! Handles of what a context holds.
ghost use Rattle.std.specs.Prelude.{◌≡◌, ◌<◌, IfOk};
ghost use Rattle.pliron_core.specs.Keys.{key_limit};

use std::alloc::AllocError;
use std::marker::{Model, PhantomData};

/// Names the operations.
#[derive(Clone, Copy, Debug, PartialEq, Eq, Hash)]
pub struct Operation;

/// Names the blocks.
#[derive(Clone, Copy, Debug, PartialEq, Eq, Hash)]
pub struct BasicBlock;

/// Names the regions.
#[derive(Clone, Copy, Debug, PartialEq, Eq, Hash)]
pub struct Region;

/// The handle of one `T` of a context. Handles count up from 0 in the order in which things are created, and
/// are never used again.
#[derive(Clone, Copy, Debug, PartialEq, Eq, Hash)]
pub struct Ptr<T> {
    key: u32,
    of: PhantomData<T>,
}

impl<T> Model for Ptr<T> {
    ghost use Rattle.std.specs.Prelude.{ℕ};

    ghost Value = { ℕ };

    ghost view = { λ p. p.key };

    ghost inverse = { λ k. record { key = k; of = record {} } };
}

impl<T> Ptr<T> {
    pub(crate) fn new(key: u32) -> Self
        ensures { result ≡ key }
    {
        Ptr {
            key,
            of: PhantomData,
        }
    }

    // The place in a table.
    pub(crate) fn index(self) -> u32
        ensures { result ≡ self }
    {
        self.key
    }

    /// The number of this handle. Cost: constant.
    pub fn key(self) -> u64
        ensures { result ≡ self }
    {
        self.key as u64
    }
}

/// The handle of a value.
#[derive(Clone, Copy, Debug, PartialEq, Eq, Hash)]
pub struct Value {
    key: u32,
}

impl Model for Value {
    ghost use Rattle.std.specs.Prelude.{ℕ};

    ghost Value = { ℕ };

    ghost view = { λ v. v.key };

    ghost inverse = { λ k. record { key = k } };
}

impl Value {
    pub(crate) fn new(key: u32) -> Self
        ensures { result ≡ key }
    {
        Value { key }
    }

    // The place in a table.
    pub(crate) fn index(self) -> u32
        ensures { result ≡ self }
    {
        self.key
    }

    /// The number of this handle. Cost: constant.
    pub fn key(self) -> u64
        ensures { result ≡ self }
    {
        self.key as u64
    }
}

// The handle of the next of so many things.
//
// Errors: there are as many as handles of 32 bits, which counts as allocation failure.
#[inline(always)]
pub(crate) fn next_key(count: usize) -> Result<u32, AllocError>
    ensures key { IfOk result (λ key. key ≡ count) }
    ensures few { IfOk result (λ key. key < key_limit) }
{
    if count < u32::MAX as usize {
        Ok(count as u32)
    } else {
        Err(AllocError)
    }
}
