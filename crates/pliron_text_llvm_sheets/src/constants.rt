//! The constants of a function.
ghost use Rattle.std.specs.Prelude.{◌≡◌, ℕ, Some, None, length, IfOk};
ghost use Rattle.pliron_text_llvm_sheets.specs.declared.constants.TextConstant.{TextConstant as Constant};

use indexmap::IndexSet;
use std::alloc::{AllocError, Global};

/// A constant of a text.
#[doc(hidden)]
#[derive(Clone, Copy, Debug, PartialEq, Eq, Hash)]
pub struct TextConstant {
    /// The width of its type: 0 of what is no integer of at most 64 bits.
    pub width: u32,
    /// The number of its text.
    pub text: usize,
}

/// Distinct constants, which have numbers from 0 on in the order in which they came.
#[doc(hidden)]
#[derive(Drop)]
pub struct ConstantTable {
    constants: IndexSet<TextConstant>,
}

impl ConstantTable {
    ghost use Rattle.pliron_text_llvm_sheets.specs.Constants.{constant_at, KeepsTextConstants};

    /// None yet. Takes no memory. Cost: constant.
    pub fn new(alloc: Global) -> ConstantTable
        ensures { (number : ℕ) → constant_at result number ≡ None }
    {
        ConstantTable {
            constants: IndexSet::new(alloc),
        }
    }

    /// The number of the constant, which gets one where it is new. Others keep theirs. Errors: allocation failure. Cost:
    /// constant.
    #[tactic(auto, using(pliron_text_mlir_syntax::proofs::SheetLemmas::keys_kept))]
    pub fn number(&mut self, constant: TextConstant) -> Result<usize, AllocError>
        ensures numbered { IfOk result (λ number. constant_at self.new number ≡ Some constant) }
        ensures kept { KeepsTextConstants self.old self.new }
    {
        let (number, _) = self.constants.insert_full(constant)?;
        Ok(number)
    }

    /// The constant of this number, if there is one. Cost: constant.
    pub fn get(&self, number: usize) -> Option<TextConstant>
        ensures { result ≡ constant_at self.now number }
    {
        self.constants.get_index(number).copied()
    }

    /// How many there are. Cost: constant.
    pub fn num_constant(&self) -> usize
        ensures { result ≡ length self.now.constants.keys }
    {
        self.constants.len()
    }
}
