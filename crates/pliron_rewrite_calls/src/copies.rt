//! What was copied, and its copies.
ghost use Rattle.std.specs.Prelude.{◌≡◌, ℕ, None, Some, OnOk, IsOkUnless, cond, nat_eq};
ghost use Rattle.indexmap.specs.IndexMap.{get};
ghost use Rattle.pliron_laws.specs.Tree.{is_one_key};
ghost use Rattle.pliron_rewrite_calls.specs.CopyTables.{block_copy, value_copy, block_or_copy_in, value_or_copy_in};

use indexmap::IndexMap;
use pliron_core::{BasicBlock, Ptr, Value};
use pliron_laws::OptError;
use std::alloc::Global;

/// Copies of blocks: of each block that was copied, and of each value defined in one, its copy.
#[derive(Drop)]
pub struct Copies {
    blocks: IndexMap<Ptr<BasicBlock>, Ptr<BasicBlock>>,
    values: IndexMap<Value, Value>,
}

impl Copies {
    // Nothing was copied yet.
    pub(crate) fn new(alloc: Global) -> Copies
        ensures blocks { (b : ℕ) → block_copy result b ≡ None }
        ensures values { (v : ℕ) → value_copy result v ≡ None }
    {
        Copies {
            blocks: IndexMap::new(alloc),
            values: IndexMap::new(alloc),
        }
    }

    /// The copy of the block, if it was copied. Cost: constant.
    pub fn copy_of_block(&self, block: Ptr<BasicBlock>) -> Option<Ptr<BasicBlock>>
        ensures { result ≡ block_copy self.now block }
    {
        self.blocks.get(&block).copied()
    }

    /// The copy of the value, if it was copied. Cost: constant.
    pub fn copy_of_value(&self, value: Value) -> Option<Value>
        ensures { result ≡ value_copy self.now value }
    {
        self.values.get(&value).copied()
    }

    /// The copy of each value that was copied. Cost: constant.
    pub fn values(&self) -> &IndexMap<Value, Value>
        ensures { (v : ℕ) → get nat_eq result.now v ≡ value_copy self.now v }
    {
        &self.values
    }

    // The copy of the block, or the block itself.
    pub(crate) fn block_or_copy(&self, block: Ptr<BasicBlock>) -> Ptr<BasicBlock>
        ensures { result ≡ block_or_copy_in self.now block }
    {
        match self.copy_of_block(block) {
            Some(copy) => copy,
            None => block,
        }
    }

    // The copy of the value, or the value itself.
    pub(crate) fn value_or_copy(&self, value: Value) -> Value
        ensures { result ≡ value_or_copy_in self.now value }
    {
        match self.copy_of_value(value) {
            Some(copy) => copy,
            None => value,
        }
    }

    // The block has this copy from now on.
    pub(crate) fn add_block(
        &mut self,
        block: Ptr<BasicBlock>,
        copy: Ptr<BasicBlock>,
    ) -> Result<(), OptError>
        ensures added { OnOk result ((b : ℕ) → block_copy self.new b ≡ cond (is_one_key block b) (Some copy)
            (block_copy self.old b)) }
        ensures values { OnOk result ((v : ℕ) → value_copy self.new v ≡ value_copy self.old v) }
        ensures memory { IsOkUnless result OptError.Memory }
    {
        self.blocks.insert(block, copy)?;
        Ok(())
    }

    // The value has this copy from now on.
    pub(crate) fn add_value(&mut self, value: Value, copy: Value) -> Result<(), OptError>
        ensures added { OnOk result ((v : ℕ) → value_copy self.new v ≡ cond (nat_eq value v) (Some copy)
            (value_copy self.old v)) }
        ensures blocks { OnOk result ((b : ℕ) → block_copy self.new b ≡ block_copy self.old b) }
        ensures memory { IsOkUnless result OptError.Memory }
    {
        self.values.insert(value, copy)?;
        Ok(())
    }
}
