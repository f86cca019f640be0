//! How texts write the small dialect.
use crate::routine_kind::RoutineKind;
use pliron_text::{Grammar, Word};

impl Word for RoutineKind {
    fn from_word(word: &[u8]) -> Option<RoutineKind> {
        match word {
            b"func" => Some(RoutineKind::Func),
            b"call" => Some(RoutineKind::Call),
            b"ret" => Some(RoutineKind::Ret),
            b"jmp" => Some(RoutineKind::Jmp),
            b"lit" => Some(RoutineKind::Lit),
            b"pack" => Some(RoutineKind::Pack),
            b"print" => Some(RoutineKind::Print),
            _ => None,
        }
    }

    fn word(self) -> &'static str {
        match self {
            RoutineKind::Func => "func",
            RoutineKind::Call => "call",
            RoutineKind::Ret => "ret",
            RoutineKind::Jmp => "jmp",
            RoutineKind::Lit => "lit",
            RoutineKind::Pack => "pack",
            RoutineKind::Print => "print",
        }
    }
}

impl Grammar for RoutineKind {}
