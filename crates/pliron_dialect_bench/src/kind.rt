//! The kinds of operations.
ghost use Rattle.std.specs.Prelude.{◌≡◌, IsTrue};
ghost use Rattle.pliron_dialect_bench.specs.Bench.{kind_of, number_of_kind, is_ssa, result_count, region_count, successor_count, IsTopKind};

/// The kind of an operation.
#[derive(Clone, Copy, Debug, PartialEq, Eq)]
pub enum BenchKind {
    Mod,
    Func,
    Const,
    Add,
    Mul,
    Div,
    Read,
    Print,
    Pair,
    Sink,
    Scope,
    Box,
    Br,
    Cbr,
    Ret,
    Fork,
}

impl BenchKind {
    /// The kind that a word names. Cost: constant.
    pub fn from_word(word: &[u8]) -> Option<BenchKind> {
        match word {
            b"mod" => Some(BenchKind::Mod),
            b"func" => Some(BenchKind::Func),
            b"const" => Some(BenchKind::Const),
            b"add" => Some(BenchKind::Add),
            b"mul" => Some(BenchKind::Mul),
            b"div" => Some(BenchKind::Div),
            b"read" => Some(BenchKind::Read),
            b"print" => Some(BenchKind::Print),
            b"pair" => Some(BenchKind::Pair),
            b"sink" => Some(BenchKind::Sink),
            b"scope" => Some(BenchKind::Scope),
            b"box" => Some(BenchKind::Box),
            b"br" => Some(BenchKind::Br),
            b"cbr" => Some(BenchKind::Cbr),
            b"ret" => Some(BenchKind::Ret),
            b"fork" => Some(BenchKind::Fork),
            _ => None,
        }
    }

    /// The word that names the kind. Cost: constant.
    pub fn word(self) -> &'static str {
        match self {
            BenchKind::Mod => "mod",
            BenchKind::Func => "func",
            BenchKind::Const => "const",
            BenchKind::Add => "add",
            BenchKind::Mul => "mul",
            BenchKind::Div => "div",
            BenchKind::Read => "read",
            BenchKind::Print => "print",
            BenchKind::Pair => "pair",
            BenchKind::Sink => "sink",
            BenchKind::Scope => "scope",
            BenchKind::Box => "box",
            BenchKind::Br => "br",
            BenchKind::Cbr => "cbr",
            BenchKind::Ret => "ret",
            BenchKind::Fork => "fork",
        }
    }

    /// The number of the kind in a head. Cost: constant.
    pub fn number(self) -> u32
        ensures { result ≡ number_of_kind self }
    {
        match self {
            BenchKind::Mod => 0,
            BenchKind::Func => 1,
            BenchKind::Const => 2,
            BenchKind::Add => 3,
            BenchKind::Mul => 4,
            BenchKind::Div => 5,
            BenchKind::Read => 6,
            BenchKind::Print => 7,
            BenchKind::Pair => 8,
            BenchKind::Sink => 9,
            BenchKind::Scope => 10,
            BenchKind::Box => 11,
            BenchKind::Br => 12,
            BenchKind::Cbr => 13,
            BenchKind::Ret => 14,
            BenchKind::Fork => 15,
        }
    }

    /// The kind that a head's number names, if it is one. Cost: constant.
    #[tactic(auto, unfolding(crate::specs::Bench::kind_of))]
    pub fn from_number(number: u32) -> Option<BenchKind>
        ensures { result ≡ kind_of number }
    {
        if number > 15 {
            return None;
        }
        match number {
            0 => Some(BenchKind::Mod),
            1 => Some(BenchKind::Func),
            2 => Some(BenchKind::Const),
            3 => Some(BenchKind::Add),
            4 => Some(BenchKind::Mul),
            5 => Some(BenchKind::Div),
            6 => Some(BenchKind::Read),
            7 => Some(BenchKind::Print),
            8 => Some(BenchKind::Pair),
            9 => Some(BenchKind::Sink),
            10 => Some(BenchKind::Scope),
            11 => Some(BenchKind::Box),
            12 => Some(BenchKind::Br),
            13 => Some(BenchKind::Cbr),
            14 => Some(BenchKind::Ret),
            _ => Some(BenchKind::Fork),
        }
    }

    /// Whether definitions dominate uses in the regions of an operation of the kind. Cost: constant.
    pub fn is_ssa(self) -> bool
        ensures { result ≡ is_ssa self }
    {
        match self {
            BenchKind::Mod => false,
            _ => true,
        }
    }

    /// How many results an operation of the kind has. Cost: constant.
    pub fn result_count(self) -> usize
        ensures { result ≡ result_count self }
    {
        match self {
            BenchKind::Const | BenchKind::Add | BenchKind::Mul | BenchKind::Div | BenchKind::Read =>
                1,
            BenchKind::Pair => 2,
            _ => 0,
        }
    }

    /// How many regions an operation of the kind has. Cost: constant.
    pub fn region_count(self) -> usize
        ensures { result ≡ region_count self }
    {
        match self {
            BenchKind::Mod | BenchKind::Func | BenchKind::Scope | BenchKind::Box => 1,
            _ => 0,
        }
    }

    /// How many successors an operation of the kind has. Cost: constant.
    pub fn successor_count(self) -> usize
        ensures { result ≡ successor_count self }
    {
        match self {
            BenchKind::Br => 1,
            BenchKind::Cbr | BenchKind::Fork => 2,
            _ => 0,
        }
    }

    /// Whether operations of the kind are in a `mod` or in no block. Cost: constant.
    pub fn is_top(self) -> bool
        ensures { IsTrue result → IsTopKind self }
    {
        match self {
            BenchKind::Mod | BenchKind::Func => true,
            _ => false,
        }
    }
}
