//! The kinds of the dialect `Looped`. They stand outside the tests, since the tables in `specs/` name them.

/// The kind of an operation.
#[derive(Clone, Copy, Debug, PartialEq, Eq)]
pub enum LoopedKind {
    Function,
    Lit,
    Add,
    Jump,
    Return,
    Repeat,
    Ask,
    Twice,
}
