//! What the kinds are, and which call.
ghost use Rattle.pliron_dialect_calls_tests.specs.Routines.{routines, routine_calls, keeps_routines, keeps_routine_calls};

use crate::routine_kind::RoutineKind;
use pliron_core::{AttrObj, Head};
use pliron_dialect::{Form, Identity, Roles};
use pliron_dialect_calls::Calls;

impl Roles for RoutineKind {
    ghost tables = { routines };

    fn number(self) -> u32 {
        match self {
            RoutineKind::Func => 0,
            RoutineKind::Call => 1,
            RoutineKind::Ret => 2,
            RoutineKind::Jmp => 3,
            RoutineKind::Lit => 4,
            RoutineKind::Pack => 5,
            RoutineKind::Print => 6,
        }
    }

    fn from_number(number: u32) -> Option<RoutineKind> {
        match number {
            0 => Some(RoutineKind::Func),
            1 => Some(RoutineKind::Call),
            2 => Some(RoutineKind::Ret),
            3 => Some(RoutineKind::Jmp),
            4 => Some(RoutineKind::Lit),
            5 => Some(RoutineKind::Pack),
            6 => Some(RoutineKind::Print),
            _ => None,
        }
    }

    fn constant() -> RoutineKind {
        RoutineKind::Lit
    }

    fn jump() -> RoutineKind {
        RoutineKind::Jmp
    }

    fn form(self) -> Form {
        match self {
            RoutineKind::Func => Form::Acts(true, true),
            RoutineKind::Call => Form::Acts(true, false),
            RoutineKind::Ret => Form::Leaves,
            RoutineKind::Jmp => Form::Jumps,
            RoutineKind::Lit => Form::Constant,
            RoutineKind::Pack => Form::Opaque,
            RoutineKind::Print => Form::Acts(true, false),
        }
    }

    fn fold_numbers(self, _head: &Head, _numbers: &[Option<i128>]) -> Option<i128> {
        None
    }

    fn identity(self, _head: &Head) -> Identity {
        Identity::none()
    }

    fn picks(self, _number: i128) -> Option<bool> {
        None
    }

    fn choose_edge(self, _head: &Head, _edges: usize, _number: i128) -> Option<usize> {
        None
    }

    fn allows(
        self,
        _head: &Head,
        _operands: usize,
        _results: usize,
        _successors: usize,
        _regions: usize,
    ) -> bool {
        true
    }

    fn is_ssa(self) -> bool {
        true
    }

    fn accepts(_attr: &AttrObj) -> bool {
        true
    }

    fn entry_operand(self, _operands: usize, _region: usize, _argument: usize) -> Option<usize> {
        None
    }

    fn checks_edges(self) -> bool {
        false
    }

    ghost keeps_tables = { keeps_routines };
}

impl Calls for RoutineKind {
    ghost calls = { routine_calls };

    fn callee_place(self) -> Option<usize> {
        match self {
            RoutineKind::Call => Some(0),
            _ => None,
        }
    }

    fn symbol_place(self) -> Option<usize> {
        match self {
            RoutineKind::Func => Some(0),
            _ => None,
        }
    }

    fn stays(self) -> bool {
        matches!(self, RoutineKind::Call | RoutineKind::Print)
    }

    ghost keeps_calls = { keeps_routine_calls };
}
