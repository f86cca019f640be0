//! The kinds of operations.

/// The kind of an operation.
#[derive(Clone, Copy, Debug, PartialEq, Eq)]
pub enum ArithmeticKind {
    Function,
    Lit,
    Add,
    Mul,
    Neg,
    Less,
    Jump,
    Branch,
    Return,
    If,
    While,
}
