//! What stops reading.
use pliron_core::NoMemory;
use std::alloc::{AllocError, AllocFailed};
use thiserror::Error;

/// What was expected where a text leaves the grammar.
#[derive(Clone, Copy, Debug, Drop, PartialEq, Eq, Error)]
pub enum Expectation {
    #[error("`(`")]
    OpenRound,
    #[error("`)` or `,`")]
    CloseRound,
    #[error("`]` or `,`")]
    CloseSquare,
    #[error("`}}` or `,`")]
    CloseBrace,
    #[error("`{{`")]
    OpenBrace,
    #[error("`>`")]
    CloseAngle,
    #[error("`:`")]
    Colon,
    #[error("`=`")]
    Equals,
    #[error("`,` or `=`")]
    CommaOrEquals,
    #[error("`->`")]
    Arrow,
    #[error("`%` and the name of a value")]
    Value,
    #[error("`^` and the name of a block")]
    Block,
    #[error("a name")]
    Name,
    #[error("a number")]
    Number,
    #[error("the name of an operation in quotes; print with --mlir-print-op-generic")]
    Operation,
    #[error("a string in quotes that ends on its line")]
    Text,
    #[error("a type")]
    Type,
    #[error("an attribute")]
    Attribute,
    #[error("the bracket that closes the one before")]
    Closing,
    #[error("an operation, a block or `}}`")]
    OperationOrEnd,
    #[error("`,` and a region, or `)`")]
    RegionOrEnd,
    #[error("at most 64 regions in one another")]
    FewerRegions,
    #[error("a value's name that its region doesn't define before")]
    NewValue,
    #[error("a block's name that its region doesn't define before")]
    NewBlock,
    #[error("a value that is defined here or around")]
    DefinedValue,
    #[error("a block of this region")]
    DefinedBlock,
    #[error("as many types as operands")]
    OperandTypes,
    #[error("as many results as there are types")]
    ResultTypes,
    #[error("operands of the types that their definitions have")]
    SameTypes,
    #[error("operations with successors only at the ends of blocks")]
    LastOfBlock,
    #[error("an operation that fits its name")]
    Admitted,
    #[error("the end of the text")]
    End,
    #[error("a text of at most 256 MiB")]
    ShorterText,
}

/// What stops reading.
#[derive(Clone, Copy, Debug, Drop, PartialEq, Eq)]
pub enum Fault {
    /// At this byte this was expected.
    Expected(usize, Expectation),
    /// A function that isn't kept as a tree: it is to be kept as it is written.
    KeptAsText,
    NoMemory,
}

impl From<AllocError> for Fault {
    fn from(_: AllocError) -> Self {
        Fault::NoMemory
    }
}

impl From<NoMemory> for Fault {
    fn from(_: NoMemory) -> Self {
        Fault::NoMemory
    }
}

impl<T: Drop> From<AllocFailed<T>> for Fault {
    fn from(_: AllocFailed<T>) -> Self {
        Fault::NoMemory
    }
}
