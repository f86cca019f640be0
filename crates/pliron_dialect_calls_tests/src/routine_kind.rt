//! The kinds of operations.

/// The kind of an operation.
#[derive(Clone, Copy, Debug, PartialEq, Eq)]
pub enum RoutineKind {
    Func,
    Call,
    Ret,
    Jmp,
    Lit,
    Pack,
    Print,
}
