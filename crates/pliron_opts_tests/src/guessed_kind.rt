//! The kinds of the dialect whose guesses may be unknown. They stand outside the tests, since the tables in `specs/`
//! name them.

/// The kind of an operation.
#[derive(Clone, Copy, Debug, PartialEq, Eq)]
pub enum GuessedKind {
    Function,
    Lit,
    Jump,
    Return,
    Ask,
    Guess,
}
