//! A dialect by roles with a kind whose results its tables leave open: with an operand they are known, with none they
//! aren't.
ghost use Rattle.std.specs.Prelude.{◌≡◌};
ghost use Rattle.pliron_opts_tests.specs.Guessed.{guessed, guessed_takes, keeps_guessed};

use crate::guessed_kind::GuessedKind;
use pliron_core::{AttrObj, Head};
use pliron_dialect::{Form, Identity, Roles};
use pliron_evaluator::evaluator::{Datum, Move};
use pliron_role_runs::numbers::is_number;
use pliron_role_runs::own_moves::{ask_world, visit_and_leave};
use pliron_role_runs::plain::is_plain;
use pliron_role_runs::{Counts, Interprets};
use pliron_text::{Grammar, Word};
use std::alloc::{AllocError, Global};

impl GuessedKind {
    // Whether an operation of the kind may have so many operands, results and regions, beyond its form.
    fn takes(self, operands: usize, results: usize, regions: usize) -> bool
        ensures { result ≡ guessed_takes self operands results regions }
    {
        match self {
            GuessedKind::Function => operands == 0 && results == 0 && regions == 1,
            GuessedKind::Ask => regions == 0,
            _ => true,
        }
    }
}

impl Roles for GuessedKind {
    ghost tables = { guessed };

    fn number(self) -> u32 {
        match self {
            GuessedKind::Function => 0,
            GuessedKind::Lit => 1,
            GuessedKind::Jump => 2,
            GuessedKind::Return => 3,
            GuessedKind::Ask => 4,
            GuessedKind::Guess => 5,
        }
    }

    fn from_number(number: u32) -> Option<GuessedKind> {
        match number {
            0 => Some(GuessedKind::Function),
            1 => Some(GuessedKind::Lit),
            2 => Some(GuessedKind::Jump),
            3 => Some(GuessedKind::Return),
            4 => Some(GuessedKind::Ask),
            5 => Some(GuessedKind::Guess),
            _ => None,
        }
    }

    fn constant() -> GuessedKind {
        GuessedKind::Lit
    }

    fn jump() -> GuessedKind {
        GuessedKind::Jump
    }

    fn form(self) -> Form {
        match self {
            GuessedKind::Function => Form::Acts(true, true),
            GuessedKind::Lit => Form::Constant,
            GuessedKind::Jump => Form::Jumps,
            GuessedKind::Return => Form::Leaves,
            GuessedKind::Ask => Form::Acts(true, true),
            GuessedKind::Guess => Form::Opaque,
        }
    }

    fn fold_numbers(self, _head: &Head, _numbers: &[Option<i128>]) -> Option<i128> {
        None
    }

    fn identity(self, _head: &Head) -> Identity {
        Identity::none()
    }

    fn picks(self, _number: i128) -> Option<bool> {
        None
    }

    fn choose_edge(self, _head: &Head, _edges: usize, _number: i128) -> Option<usize> {
        None
    }

    fn allows(
        self,
        head: &Head,
        operands: usize,
        results: usize,
        _successors: usize,
        regions: usize,
    ) -> bool {
        self.takes(operands, results, regions) && is_plain(self.form(), head, operands)
    }

    fn is_ssa(self) -> bool {
        true
    }

    fn accepts(attr: &AttrObj) -> bool {
        is_number(attr)
    }

    fn entry_operand(self, _operands: usize, _region: usize, _argument: usize) -> Option<usize> {
        None
    }

    fn checks_edges(self) -> bool {
        false
    }

    ghost keeps_tables = { keeps_guessed };
}

impl Interprets for GuessedKind {
    fn interpret(
        alloc: Global,
        _head: &Head,
        input: &[Datum],
    ) -> Result<Option<Vec<Datum>>, AllocError> {
        if input.is_empty() {
            return Ok(None);
        }
        let mut values = Vec::new(alloc);
        values.push(input[0].copy(alloc)?)?;
        Ok(Some(values))
    }

    fn own_move(
        self,
        alloc: Global,
        _head: &Head,
        counts: &Counts,
        memo: &Datum,
        input: &[Datum],
    ) -> Result<Move, AllocError> {
        match self {
            GuessedKind::Function => visit_and_leave(alloc, counts, 0, memo, input),
            GuessedKind::Ask => ask_world(alloc, counts, 4, memo, input),
            _ => Ok(Move::Trap),
        }
    }
}

impl Word for GuessedKind {
    fn from_word(word: &[u8]) -> Option<GuessedKind> {
        match word {
            b"function" => Some(GuessedKind::Function),
            b"lit" => Some(GuessedKind::Lit),
            b"jump" => Some(GuessedKind::Jump),
            b"return" => Some(GuessedKind::Return),
            b"ask" => Some(GuessedKind::Ask),
            b"guess" => Some(GuessedKind::Guess),
            _ => None,
        }
    }

    fn word(self) -> &'static str {
        match self {
            GuessedKind::Function => "function",
            GuessedKind::Lit => "lit",
            GuessedKind::Jump => "jump",
            GuessedKind::Return => "return",
            GuessedKind::Ask => "ask",
            GuessedKind::Guess => "guess",
        }
    }
}

impl Grammar for GuessedKind {}
