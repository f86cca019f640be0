//! Numbers by names.
ghost use Rattle.std.specs.Prelude.{◌≡◌, ◌≢◌, [], None, Some, IfOk, OnOk};
ghost use Rattle.pliron_text_llvm_names.specs.Names.{NameKey, key_of};
ghost use Rattle.pliron_text_llvm_names.specs.Tables.{number_named, IsIndexOf};

use crate::names::LocalName;
use indexmap::IndexMap;
use std::alloc::{AllocError, Global};

/// For each name a number.
#[doc(hidden)]
#[derive(Drop)]
pub struct LocalNameTable {
    alloc: Global,
    numbers: IndexMap<u32, usize>,
    texts: IndexMap<Vec<u8>, usize>,
}

impl LocalNameTable {
    /// No name has a number. Takes no memory. Cost: constant.
    #[tactic(auto, using(crate::proofs::TableLemmas::index_none))]
    pub fn new(alloc: Global) -> LocalNameTable
        ensures none { (key : NameKey) → number_named result key ≡ None }
        ensures index { IsIndexOf result [] }
    {
        LocalNameTable {
            alloc,
            numbers: IndexMap::new(alloc),
            texts: IndexMap::new(alloc),
        }
    }

    /// The number of what has this name. Cost: one look-up.
    pub fn find(&self, name: LocalName<'_>) -> Option<usize>
        ensures { result ≡ number_named self.now (key_of name.entry) }
    {
        match name {
            LocalName::Number(number) => self.numbers.get(&number).copied(),
            LocalName::Text(text) => self.texts.get(text).copied(),
        }
    }

    /// The name has this number from now on. Answers the one that it had before. Errors: allocation failure. Cost: one
    /// look-up.
    pub fn put(&mut self, name: LocalName<'_>, number: usize) -> Result<Option<usize>, AllocError>
        ensures before { IfOk result (λ before. before ≡ number_named self.old (key_of name.entry)) }
        ensures put { OnOk result (number_named self.new (key_of name.entry) ≡ Some number) }
        ensures others { OnOk result ((other : NameKey) → other ≢ key_of name.entry
            → number_named self.new other ≡ number_named self.old other) }
    {
        match name {
            LocalName::Number(key) => Ok(self.numbers.insert(key, number)?),
            LocalName::Text(text) => {
                let key = Vec::from_slice(self.alloc, text)?;
                Ok(self.texts.insert(key, number)?)
            }
        }
    }
}
