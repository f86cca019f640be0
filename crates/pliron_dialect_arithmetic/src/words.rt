//! The words of the kinds, by which texts name them, and how texts write them.
use crate::kind::ArithmeticKind;
use pliron_text::{Grammar, Word};

impl Word for ArithmeticKind {
    fn from_word(word: &[u8]) -> Option<ArithmeticKind> {
        match word {
            b"function" => Some(ArithmeticKind::Function),
            b"lit" => Some(ArithmeticKind::Lit),
            b"add" => Some(ArithmeticKind::Add),
            b"mul" => Some(ArithmeticKind::Mul),
            b"neg" => Some(ArithmeticKind::Neg),
            b"less" => Some(ArithmeticKind::Less),
            b"jump" => Some(ArithmeticKind::Jump),
            b"branch" => Some(ArithmeticKind::Branch),
            b"return" => Some(ArithmeticKind::Return),
            b"if" => Some(ArithmeticKind::If),
            b"while" => Some(ArithmeticKind::While),
            _ => None,
        }
    }

    fn word(self) -> &'static str {
        match self {
            ArithmeticKind::Function => "function",
            ArithmeticKind::Lit => "lit",
            ArithmeticKind::Add => "add",
            ArithmeticKind::Mul => "mul",
            ArithmeticKind::Neg => "neg",
            ArithmeticKind::Less => "less",
            ArithmeticKind::Jump => "jump",
            ArithmeticKind::Branch => "branch",
            ArithmeticKind::Return => "return",
            ArithmeticKind::If => "if",
            ArithmeticKind::While => "while",
        }
    }
}

impl Grammar for ArithmeticKind {}
