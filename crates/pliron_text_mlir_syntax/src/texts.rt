//! Distinct texts, each with a number.
ghost use Rattle.std.specs.Prelude.{◌≡◌, List, ℕ, [], Some, length, unwrap_or, IfOk};

use indexmap::IndexSet;
use std::alloc::{AllocError, Global};

/// Distinct texts, which have numbers from 0 on in the order in which they came.
#[doc(hidden)]
#[derive(Drop)]
pub struct Texts {
    alloc: Global,
    texts: IndexSet<Vec<u8>>,
}

impl Texts {
    ghost use Rattle.pliron_text_mlir_syntax.specs.Sheets.{text_in, KeepsTexts};

    /// None yet. Takes no memory. Cost: constant.
    pub fn new(alloc: Global) -> Self {
        Texts {
            alloc,
            texts: IndexSet::new(alloc),
        }
    }

    /// The number of the text, which gets one where it is new. Others keep theirs. Errors: allocation failure. Cost: its
    /// length.
    #[tactic(auto, using(crate::proofs::SheetLemmas::text_stored))]
    pub fn number(&mut self, text: &[u8]) -> Result<usize, AllocError>
        ensures numbered { IfOk result (λ number. text_in self.new number ≡ Some text.now) }
        ensures kept { KeepsTexts self.old self.new }
    {
        if let Some(number) = self.texts.get_index_of(text) {
            return Ok(number);
        }
        let copy = Vec::from_slice(self.alloc, text)?;
        let (number, _) = self.texts.insert_full(copy)?;
        Ok(number)
    }

    /// The text of this number, empty where none has it. Cost: constant.
    pub fn get(&self, number: usize) -> &[u8]
        ensures { result.now ≡ unwrap_or (text_in self.now number) [] }
    {
        match self.texts.get_index(number) {
            Some(text) => text.as_slice(),
            None => &[],
        }
    }

    /// How many there are. Cost: constant.
    pub fn len(&self) -> usize {
        self.texts.len()
    }

    /// Whether there is none. Cost: constant.
    pub fn is_empty(&self) -> bool {
        self.texts.len() == 0
    }
}
