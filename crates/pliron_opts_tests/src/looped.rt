//! A dialect by roles with a counted loop, which names the operands that each visit of its region passes, an effect
//! with its answer, and a kind that keeps a memo of its own.
ghost use Rattle.std.specs.Prelude.{◌≡◌, map, IfOk};
ghost use Rattle.pliron_evaluator.specs.Evaluator.{datum_of_value, move_of};
ghost use Rattle.pliron_role_runs.specs.OwnMoves.{shape_of_counts};
ghost use Rattle.pliron_opts_tests.specs.Looped.{looped, looped_takes, keeps_looped, twice_act};

use crate::looped_kind::LoopedKind;
use pliron_core::{AttrObj, Head};
use pliron_dialect::{ByRoles, Form, Identity, Otherwise, Roles};
use pliron_evaluator::evaluator::{Datum, Move};
use pliron_role_runs::entries::operand_from;
use pliron_role_runs::numbers::{is_number, known_at, number_of, sum, where_known};
use pliron_role_runs::own_moves::{ask_world, counted_loop, give, visit_and_leave, visit_keeping};
use pliron_role_runs::plain::is_plain;
use pliron_role_runs::{Counts, Interprets};
use pliron_text::{Grammar, Word};
use std::alloc::{AllocError, Global};

/// The dialect of these kinds.
pub type Looped = ByRoles<LoopedKind>;

impl LoopedKind {
    // Whether an operation of the kind may have so many operands, results and regions, beyond its form.
    fn takes(self, operands: usize, results: usize, regions: usize) -> bool
        ensures { result ≡ looped_takes self operands results regions }
    {
        match self {
            LoopedKind::Function => operands == 0 && results == 0 && regions == 1,
            LoopedKind::Repeat => regions == 1,
            LoopedKind::Ask => regions == 0,
            LoopedKind::Twice => regions == 1,
            _ => true,
        }
    }
}

impl Roles for LoopedKind {
    ghost tables = { looped };

    fn number(self) -> u32 {
        match self {
            LoopedKind::Function => 0,
            LoopedKind::Lit => 1,
            LoopedKind::Add => 2,
            LoopedKind::Jump => 3,
            LoopedKind::Return => 4,
            LoopedKind::Repeat => 5,
            LoopedKind::Ask => 6,
            LoopedKind::Twice => 7,
        }
    }

    fn from_number(number: u32) -> Option<LoopedKind> {
        match number {
            0 => Some(LoopedKind::Function),
            1 => Some(LoopedKind::Lit),
            2 => Some(LoopedKind::Add),
            3 => Some(LoopedKind::Jump),
            4 => Some(LoopedKind::Return),
            5 => Some(LoopedKind::Repeat),
            6 => Some(LoopedKind::Ask),
            7 => Some(LoopedKind::Twice),
            _ => None,
        }
    }

    fn constant() -> LoopedKind {
        LoopedKind::Lit
    }

    fn jump() -> LoopedKind {
        LoopedKind::Jump
    }

    fn form(self) -> Form {
        match self {
            LoopedKind::Function => Form::Acts(true, true),
            LoopedKind::Lit => Form::Constant,
            LoopedKind::Add => Form::Folds(2, Otherwise::Never),
            LoopedKind::Jump => Form::Jumps,
            LoopedKind::Return => Form::Leaves,
            LoopedKind::Repeat => Form::Names,
            LoopedKind::Ask => Form::Acts(true, true),
            LoopedKind::Twice => Form::Acts(true, true),
        }
    }

    fn fold_numbers(self, _head: &Head, numbers: &[Option<i128>]) -> Option<i128> {
        match self {
            LoopedKind::Add => {
                where_known(numbers, sum(known_at(numbers, 0), known_at(numbers, 1)))
            }
            _ => None,
        }
    }

    fn identity(self, _head: &Head) -> Identity {
        Identity::none()
    }

    fn picks(self, _number: i128) -> Option<bool> {
        None
    }

    fn choose_edge(self, _head: &Head, _edges: usize, _number: i128) -> Option<usize> {
        None
    }

    fn allows(
        self,
        head: &Head,
        operands: usize,
        results: usize,
        _successors: usize,
        regions: usize,
    ) -> bool {
        self.takes(operands, results, regions) && is_plain(self.form(), head, operands)
    }

    fn is_ssa(self) -> bool {
        true
    }

    fn accepts(attr: &AttrObj) -> bool {
        is_number(attr)
    }

    fn entry_operand(self, operands: usize, _region: usize, argument: usize) -> Option<usize> {
        match self {
            LoopedKind::Repeat => operand_from(1, operands, argument),
            _ => None,
        }
    }

    fn checks_edges(self) -> bool {
        false
    }

    ghost keeps_tables = { keeps_looped };
}

// A region two times; the memo counts the visits.
fn twice_move(
    alloc: Global,
    counts: &Counts,
    memo: &Datum,
    input: &[Datum],
) -> Result<Move, AllocError>
    ensures { IfOk result (λ next. move_of next ≡ twice_act (shape_of_counts counts.now) (datum_of_value memo.now)
        (map datum_of_value input.now)) }
{
    let visits = number_of(memo);
    if visits < 2 {
        let memo = Datum::Number(sum(visits, 1) as i128);
        visit_keeping(alloc, counts, 0, input, memo)
    } else {
        give(alloc, counts, input)
    }
}

impl Interprets for LoopedKind {
    fn interpret(
        alloc: Global,
        _head: &Head,
        _input: &[Datum],
    ) -> Result<Option<Vec<Datum>>, AllocError> {
        Ok(Some(Vec::new(alloc)))
    }

    fn own_move(
        self,
        alloc: Global,
        _head: &Head,
        counts: &Counts,
        memo: &Datum,
        input: &[Datum],
    ) -> Result<Move, AllocError> {
        match self {
            LoopedKind::Function => visit_and_leave(alloc, counts, 0, memo, input),
            LoopedKind::Repeat => counted_loop(alloc, counts, memo, input),
            LoopedKind::Ask => ask_world(alloc, counts, 6, memo, input),
            LoopedKind::Twice => twice_move(alloc, counts, memo, input),
            _ => Ok(Move::Trap),
        }
    }
}

impl Word for LoopedKind {
    fn from_word(word: &[u8]) -> Option<LoopedKind> {
        match word {
            b"function" => Some(LoopedKind::Function),
            b"lit" => Some(LoopedKind::Lit),
            b"add" => Some(LoopedKind::Add),
            b"jump" => Some(LoopedKind::Jump),
            b"return" => Some(LoopedKind::Return),
            b"repeat" => Some(LoopedKind::Repeat),
            b"ask" => Some(LoopedKind::Ask),
            b"twice" => Some(LoopedKind::Twice),
            _ => None,
        }
    }

    fn word(self) -> &'static str {
        match self {
            LoopedKind::Function => "function",
            LoopedKind::Lit => "lit",
            LoopedKind::Add => "add",
            LoopedKind::Jump => "jump",
            LoopedKind::Return => "return",
            LoopedKind::Repeat => "repeat",
            LoopedKind::Ask => "ask",
            LoopedKind::Twice => "twice",
        }
    }
}

impl Grammar for LoopedKind {}
