//! Calls and functions by name.
ghost use Rattle.std.specs.Prelude.{◌≡◌};
ghost use Rattle.pliron_dialect_mlir.specs.CallClasses.{mlir_calls, keeps_mlir_calls};

use crate::kind::{Class, Interpretation, MlirKind};
use pliron_dialect_calls::Calls;

impl<I: Interpretation> Calls for MlirKind<I> {
    ghost calls = { mlir_calls (λ k. k.class) };

    fn callee_place(self) -> Option<usize> {
        match self.class {
            Class::Call => Some(0),
            _ => None,
        }
    }

    fn symbol_place(self) -> Option<usize> {
        match self.class {
            Class::Function => Some(0),
            _ => None,
        }
    }

    fn stays(self) -> bool {
        matches!(self.class, Class::Effect | Class::Call)
    }

    ghost keeps_calls = { keeps_mlir_calls (λ k. k.class) (λ c. record { class = c; meaning = record {} }) I.value };
}
