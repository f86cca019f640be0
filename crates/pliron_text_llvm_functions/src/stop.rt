//! What stops reading a function.
ghost use Rattle.std.specs.Prelude.{◌≡◌};
ghost use Rattle.pliron_text_llvm_syntax.specs.declared.fault.LlvmFault.TheVariants.{NoMemory};
ghost use Rattle.pliron_text_llvm_functions.specs.declared.stop.FunctionStop.TheVariants.{Keep, Fault};
ghost use Rattle.pliron_text_llvm_functions.specs.declared.stop.FunctionFault.TheVariants.{Refused, Broken};
ghost use Rattle.pliron_text_llvm_functions.specs.declared.stop.KeptFor.TheVariants.{Name};
ghost use Rattle.pliron_text_llvm_functions.specs.Functions.{stop_of_body};

use pliron_text_llvm_names::NameFault;
use pliron_text_llvm_reader::{BodyStop, KeptReason};
use pliron_text_llvm_syntax::LlvmFault;
use std::alloc::AllocError;
use thiserror::Error;

/// Why a function is refused at a byte: what was expected there.
#[doc(hidden)]
#[derive(Clone, Copy, Debug, Drop, PartialEq, Eq, Error)]
pub enum Refusal {
    #[error("a block")]
    Block,
    #[error("an instruction that ends the block")]
    Terminator,
    #[error("no name, since nothing is given")]
    Nameless,
    #[error("the name of a value that its function doesn't define before")]
    NewValue,
    #[error("the name of a block that its function doesn't define before")]
    NewBlock,
    #[error("%{0} or a greater number")]
    GreaterNumber(u32),
    #[error("a value of this function")]
    Value,
    #[error("a block of this function")]
    BlockName,
}

/// Why a function is kept as it is written.
#[doc(hidden)]
#[derive(Clone, Copy, Debug, Drop, PartialEq, Eq, Error)]
pub enum KeptFor {
    #[error("{0}")]
    Statement(KeptReason),
    #[error("{0}")]
    Name(NameFault),
}

/// Why a function isn't read, and isn't kept either.
#[doc(hidden)]
#[derive(Clone, Copy, Debug, Drop, PartialEq, Eq)]
pub enum FunctionFault {
    /// At this byte this was expected.
    Refused(usize, Refusal),
    /// The text is broken, or memory lacks.
    Broken(LlvmFault),
}

/// What stops reading a function.
#[doc(hidden)]
#[derive(Clone, Copy, Debug, Drop, PartialEq, Eq)]
pub enum FunctionStop {
    /// For what is at this byte the function is kept as it is written.
    Keep(usize, KeptFor),
    Fault(FunctionFault),
}

/// A fault of the text is reported as such.
impl From<LlvmFault> for FunctionStop {
    ghost from_gives = { λ fault e. e ≡ Fault (Broken fault) };

    fn from(fault: LlvmFault) -> FunctionStop {
        FunctionStop::Fault(FunctionFault::Broken(fault))
    }
}

/// A failed allocation is reported as `NoMemory`.
impl From<AllocError> for FunctionStop {
    ghost from_gives = { λ _ e. e ≡ Fault (Broken NoMemory) };

    fn from(_refused: AllocError) -> FunctionStop {
        FunctionStop::Fault(FunctionFault::Broken(LlvmFault::NoMemory))
    }
}

/// The function is refused at this byte, where this was expected. Cost: constant.
pub fn stop_at_byte(place: usize, refusal: Refusal) -> FunctionStop
    ensures { result ≡ Fault (Refused place refusal) }
{
    FunctionStop::Fault(FunctionFault::Refused(place, refusal))
}

/// Memory lacks. Cost: constant.
pub fn stop_of_memory() -> FunctionStop
    ensures { result ≡ Fault (Broken NoMemory) }
{
    FunctionStop::Fault(FunctionFault::Broken(LlvmFault::NoMemory))
}

/// What stops a body stops its function. Cost: constant.
pub fn stop_of_body(stop: BodyStop) -> FunctionStop
    ensures { result ≡ stop_of_body stop }
{
    match stop {
        BodyStop::Kept(place, reason) => FunctionStop::Keep(place, KeptFor::Statement(reason)),
        BodyStop::Broken(fault) => FunctionStop::Fault(FunctionFault::Broken(fault)),
        BodyStop::NoBlock(place) => stop_at_byte(place, Refusal::Block),
        BodyStop::NoTerminator(place) => stop_at_byte(place, Refusal::Terminator),
    }
}

/// For a name at this byte that isn't read its function is kept. Cost: constant.
pub fn stop_of_name(place: usize, fault: NameFault) -> FunctionStop
    ensures { result ≡ Keep place (Name fault) }
{
    FunctionStop::Keep(place, KeptFor::Name(fault))
}
