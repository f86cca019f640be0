//! Heads of operations as a text has them.
ghost use Rattle.pliron_text_mlir_reader.specs.TakenHeads.{IsTakenHead};

use pliron_core::Head;

/// A head that an operation of a text is taken for.
#[doc(hidden)]
#[derive(Drop)]
pub struct TakenHead {
    pub head: Head,
    /// By the name and the shape of some operation; or the operation is kept as it is written.
    pub ghost taken: { ∥ IsTakenHead head ∥₁ },
}
