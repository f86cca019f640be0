//! What was expected where a text leaves the notation.
use thiserror::Error;

/// What was expected where a text leaves the notation.
#[derive(Clone, Copy, Debug, Drop, PartialEq, Eq, Error)]
pub enum ExpectedItem {
    #[error("a word, a number or one of `{{ }} ( ) , : ; =`")]
    Token,
    #[error("a number from -2^63 to 2^63 - 1, without leading zeros")]
    Number,
    #[error("a word of at most 64 bytes")]
    ShortWord,
    #[error("`mod` or `func`")]
    Root,
    #[error("`mod` or `func`, as operations of a `mod` are")]
    TopKind,
    #[error("an operation that stands in a `func`, and no `mod` or `func`")]
    InnerKind,
    #[error("a kind of operations")]
    Kind,
    #[error("a kind of operations with no results")]
    KindWithoutResults,
    #[error("a kind of operations with one result")]
    KindWithOneResult,
    #[error("a kind of operations with two results")]
    KindWithTwoResults,
    #[error("a kind of operations with more results than two")]
    KindWithMoreResults,
    #[error("the name of a value")]
    Value,
    #[error("the name of a block")]
    Block,
    #[error("a value's name that its `func` doesn't define before")]
    NewValue,
    #[error("a block's name that its region doesn't define before")]
    NewBlock,
    #[error("the name of a value that its `func` defines")]
    DefinedValue,
    #[error("the name of a block that its region defines")]
    DefinedBlock,
    #[error("a value's name that the text doesn't define before")]
    NewValueOfText,
    #[error("the name of a value that the text defines")]
    DefinedValueOfText,
    #[error("no arguments, as blocks of a `mod` have none")]
    NoArguments,
    #[error("`{{`")]
    OpenBrace,
    #[error("`(`")]
    OpenRound,
    #[error("`:`")]
    Colon,
    #[error("`,` or `=`")]
    CommaOrEquals,
    #[error("`=`")]
    Equals,
    #[error("`,` or `)`")]
    CommaOrCloseRound,
    #[error("a block, as each `func` and `scope` has one")]
    BlockOfRegion,
    #[error("a block, or `}}`")]
    BlockOrEnd,
    #[error("an operation, `;` and a block, or `}}`")]
    OperationOrEnd,
    #[error("an operation or a block")]
    OperationOrBlock,
    #[error("a block, since no operation follows one with successors")]
    BlockAfterBranch,
    #[error("`;` or `}}`")]
    SemicolonOrEnd,
    #[error("at most 64 regions in one another")]
    FewerRegions,
    #[error("the end of the text")]
    End,
    #[error("an operation that the dialect admits, with so many operands, results and regions")]
    AdmittedOperation,
    #[error("operations with edges at the ends of blocks")]
    Tree,
}

/// Where a text leaves the notation, by the number of the token, and what was expected there.
#[derive(Clone, Copy, Debug, Drop, PartialEq, Eq)]
pub struct SyntaxFault {
    pub token: usize,
    pub expected: ExpectedItem,
}
