//! What values and blocks are called in a printed module.
use crate::constants::write_number;
use std::alloc::AllocError;

/// What values and blocks are called.
pub trait Naming {
    /// Writes the name of the value with this handle, behind `%`. Errors: allocation failure. Cost: linear in it.
    fn value(&self, key: u64, out: &mut Vec<u8>) -> Result<(), AllocError>;

    /// Writes the name of the block with this handle, behind `^`. Errors: allocation failure. Cost: linear in it.
    fn block(&self, key: u64, out: &mut Vec<u8>) -> Result<(), AllocError>;
}

/// Names by the handles: `%7`, `^bb7`.
#[derive(Clone, Copy, Debug)]
pub struct ByHandle;

impl Naming for ByHandle {
    fn value(&self, key: u64, out: &mut Vec<u8>) -> Result<(), AllocError> {
        out.extend_from_slice(b"%")?;
        write_number(key, out)
    }

    fn block(&self, key: u64, out: &mut Vec<u8>) -> Result<(), AllocError> {
        out.extend_from_slice(b"^bb")?;
        write_number(key, out)
    }
}
