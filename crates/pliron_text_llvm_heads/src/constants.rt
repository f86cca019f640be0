//! Heads of constants.
ghost use Rattle.std.specs.Prelude.{◌≡◌, ◌≤◌, IfOk, option_and_then};
ghost use Rattle.pliron_text_mlir_syntax.specs.Numbers.{signed_written, bits_written};
ghost use Rattle.pliron_text_llvm_heads.specs.StatementHeads.{other_constant_head, constant_by, head_of_constant};

use pliron_core::Head;
use pliron_dialect_mlir::{Class, constant_head, number, other_constant, plain_head};
use pliron_text_llvm_classes::names_undef;
use pliron_text_llvm_syntax::LlvmFault;
use pliron_text_mlir_syntax::{bits_of, number_of};
use std::alloc::Global;

/// The most bytes of a constant that passes carry.
const MAX_CONSTANT: usize = 256;

// The bits of the text at this width, where it is a number that fits.
fn constant_bits(width: u32, text: &[u8]) -> Option<u64>
    ensures { result ≡ option_and_then (bits_written width) (signed_written text.now) }
{
    bits_of(width, number_of(text)?)
}

// The head of a constant that is no integer.
fn other_constant_head(alloc: Global, text: &[u8], form: usize) -> Result<Head, LlvmFault>
    ensures { IfOk result (λ head. head ≡ other_constant_head text.now form) }
{
    if names_undef(alloc, text)? {
        Ok(plain_head(alloc, Class::Effect, form)?)
    } else if text.len() > MAX_CONSTANT {
        Ok(plain_head(alloc, Class::Opaque, form)?)
    } else {
        Ok(constant_head(alloc, other_constant(form), form)?)
    }
}

/// The head of a constant that is this text, of a type with this width, 0 where that is no integer of at most 64 bits;
/// its form has this number. Asks for a width of at most 65. Errors: allocation failure. Cost: linear in the text.
#[doc(hidden)]
pub fn head_of_constant(
    alloc: Global,
    width: u32,
    text: &[u8],
    form: usize,
) -> Result<Head, LlvmFault>
    requires { width ≤ 65 }
    ensures { IfOk result (λ head. head ≡ head_of_constant width text.now form) }
{
    match constant_bits(width, text) {
        Some(bits) => Ok(constant_head(alloc, number(width, bits), form)?),
        None => other_constant_head(alloc, text, form),
    }
}
