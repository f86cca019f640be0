//! What the kinds are and compute.
ghost use Rattle.std.specs.Prelude.{◌≡◌};
ghost use Rattle.pliron_dialect_arithmetic.specs.Arithmetic.{arithmetic, arithmetic_takes, keeps_arithmetic};

use crate::kind::ArithmeticKind;
use pliron_core::{AttrObj, Head};
use pliron_dialect::{Counting, Form, Identity, Otherwise, Roles};
use pliron_role_runs::numbers::{
    edge_of, is_number, known_at, less, product, sum, where_known, wrap,
};
use pliron_role_runs::plain::is_plain;

impl ArithmeticKind {
    // Whether an operation of the kind may have so many operands, results and regions, beyond its form.
    fn takes(self, operands: usize, results: usize, regions: usize) -> bool
        ensures { result ≡ arithmetic_takes self operands results regions }
    {
        match self {
            ArithmeticKind::Function => operands == 0 && results == 0 && regions == 1,
            ArithmeticKind::If => regions == 2,
            ArithmeticKind::While => regions == 1,
            _ => true,
        }
    }
}

impl Roles for ArithmeticKind {
    ghost tables = { arithmetic };

    fn number(self) -> u32 {
        match self {
            ArithmeticKind::Function => 0,
            ArithmeticKind::Lit => 1,
            ArithmeticKind::Add => 2,
            ArithmeticKind::Mul => 3,
            ArithmeticKind::Neg => 4,
            ArithmeticKind::Less => 5,
            ArithmeticKind::Jump => 6,
            ArithmeticKind::Branch => 7,
            ArithmeticKind::Return => 8,
            ArithmeticKind::If => 9,
            ArithmeticKind::While => 10,
        }
    }

    fn from_number(number: u32) -> Option<ArithmeticKind> {
        match number {
            0 => Some(ArithmeticKind::Function),
            1 => Some(ArithmeticKind::Lit),
            2 => Some(ArithmeticKind::Add),
            3 => Some(ArithmeticKind::Mul),
            4 => Some(ArithmeticKind::Neg),
            5 => Some(ArithmeticKind::Less),
            6 => Some(ArithmeticKind::Jump),
            7 => Some(ArithmeticKind::Branch),
            8 => Some(ArithmeticKind::Return),
            9 => Some(ArithmeticKind::If),
            10 => Some(ArithmeticKind::While),
            _ => None,
        }
    }

    fn constant() -> ArithmeticKind {
        ArithmeticKind::Lit
    }

    fn jump() -> ArithmeticKind {
        ArithmeticKind::Jump
    }

    fn form(self) -> Form {
        match self {
            ArithmeticKind::Function => Form::Acts(true, true),
            ArithmeticKind::Lit => Form::Constant,
            ArithmeticKind::Add => Form::Folds(2, Otherwise::Never),
            ArithmeticKind::Mul => Form::Folds(2, Otherwise::Never),
            ArithmeticKind::Neg => Form::Folds(1, Otherwise::Never),
            ArithmeticKind::Less => Form::Folds(2, Otherwise::Never),
            ArithmeticKind::Jump => Form::Jumps,
            ArithmeticKind::Branch => Form::Chooses(Counting::OfFirst),
            ArithmeticKind::Return => Form::Leaves,
            ArithmeticKind::If => Form::Acts(true, true),
            ArithmeticKind::While => Form::Acts(true, true),
        }
    }

    fn fold_numbers(self, _head: &Head, numbers: &[Option<i128>]) -> Option<i128> {
        let first = known_at(numbers, 0);
        let second = known_at(numbers, 1);
        match self {
            ArithmeticKind::Add => where_known(numbers, sum(first, second)),
            ArithmeticKind::Mul => where_known(numbers, product(first, second)),
            ArithmeticKind::Neg => where_known(numbers, product(first, -1)),
            ArithmeticKind::Less => where_known(numbers, less(first, second)),
            _ => None,
        }
    }

    fn identity(self, _head: &Head) -> Identity {
        Identity::none()
    }

    fn picks(self, _number: i128) -> Option<bool> {
        None
    }

    fn choose_edge(self, _head: &Head, _edges: usize, number: i128) -> Option<usize> {
        match self {
            ArithmeticKind::Branch => Some(edge_of(wrap(number))),
            _ => None,
        }
    }

    fn allows(
        self,
        head: &Head,
        operands: usize,
        results: usize,
        _successors: usize,
        regions: usize,
    ) -> bool {
        self.takes(operands, results, regions) && is_plain(self.form(), head, operands)
    }

    fn is_ssa(self) -> bool {
        true
    }

    fn accepts(attr: &AttrObj) -> bool {
        is_number(attr)
    }

    fn entry_operand(self, _operands: usize, _region: usize, _argument: usize) -> Option<usize> {
        None
    }

    fn checks_edges(self) -> bool {
        false
    }

    ghost keeps_tables = { keeps_arithmetic };
}
