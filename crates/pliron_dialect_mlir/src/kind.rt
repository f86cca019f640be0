//! The kinds of operations.
ghost use Rattle.std.specs.Prelude.{◌≡◌, Some};
ghost use Rattle.pliron_dialect.specs.Roles.{Interpretation as Interprets, form_of};
ghost use Rattle.pliron_dialect_mlir.specs.ClassNumbers.{number_of_class, class_of_number};
ghost use Rattle.pliron_dialect_mlir.specs.Classes.{role_of_class};

use pliron_bits::{BinaryOperator, Cast};
use pliron_dialect::{Counting, Form, Otherwise};
use std::marker::PhantomData;

/// What pure operations give. It counts where no table says it, but not for those that compare, cast or compute integers:
/// they pass on what is no number. Contracts alone speak of it.
pub trait Interpretation: Copy + Eq {
    ghost value: { Interprets };
}

/// What distinguishes operations.
#[derive(Clone, Copy, Debug, PartialEq, Eq)]
pub enum Class {
    /// It gives the datum of its first attribute.
    Constant,
    /// It gives its second operand where its first one, of one bit, is 1, else its third.
    Select,
    /// It is pure, and gives what the interpretation says.
    Opaque,
    /// It jumps to its one successor, with its operands.
    Jump,
    /// It jumps to its first successor where its first operand, of one bit, is 1, else to its second.
    Branch,
    /// It jumps to the successor of the case that its first operand is, or to its first one where it is none of the
    /// cases.
    Switch,
    /// It leaves the region with its operands.
    Leave,
    /// It traps.
    Unreachable,
    /// It asks the world for its results.
    Effect,
    /// It asks the world for its results, and belongs to the function that it stands in.
    Local,
    /// It asks the world for its results, as a call of the function that its first attribute names.
    Call,
    /// The world visits its regions as it likes.
    Regions,
    /// A function: it visits its region once.
    Root,
    /// A function that its first attribute names.
    Function,
    /// A module: its region is never visited.
    Module,
    /// A terminator of which nothing is known, without regions: the world says where control goes.
    Fork,
    /// It compares two integers.
    Compare,
    /// It takes an integer to another width.
    Cast(Cast),
    /// It computes an integer of two.
    Binary(BinaryOperator),
}

/// A class under an interpretation.
#[derive(Clone, Copy, Debug, PartialEq, Eq)]
pub struct MlirKind<I> {
    pub class: Class,
    pub meaning: PhantomData<I>,
}

/// The number of a class in a head. Cost: constant.
pub fn class_number(class: Class) -> u32
    ensures { result ≡ number_of_class class }
{
    match class {
        Class::Constant => 0,
        Class::Select => 1,
        Class::Opaque => 2,
        Class::Jump => 3,
        Class::Branch => 4,
        Class::Switch => 5,
        Class::Leave => 6,
        Class::Unreachable => 7,
        Class::Effect => 8,
        Class::Regions => 9,
        Class::Root => 10,
        Class::Module => 11,
        Class::Fork => 12,
        Class::Local => 13,
        Class::Call => 14,
        Class::Function => 15,
        Class::Compare => 16,
        Class::Cast(Cast::ZeroExtend) => 17,
        Class::Cast(Cast::SignExtend) => 18,
        Class::Cast(Cast::Truncate) => 19,
        Class::Binary(operator) => 20 + operator.number(),
    }
}

/// The class with this number, if there is one. Cost: constant.
pub fn numbered_class(number: u32) -> Option<Class>
    ensures { result ≡ class_of_number number }
{
    match number {
        0 => Some(Class::Constant),
        1 => Some(Class::Select),
        2 => Some(Class::Opaque),
        3 => Some(Class::Jump),
        4 => Some(Class::Branch),
        5 => Some(Class::Switch),
        6 => Some(Class::Leave),
        7 => Some(Class::Unreachable),
        8 => Some(Class::Effect),
        9 => Some(Class::Regions),
        10 => Some(Class::Root),
        11 => Some(Class::Module),
        12 => Some(Class::Fork),
        13 => Some(Class::Local),
        14 => Some(Class::Call),
        15 => Some(Class::Function),
        16 => Some(Class::Compare),
        17 => Some(Class::Cast(Cast::ZeroExtend)),
        18 => Some(Class::Cast(Cast::SignExtend)),
        19 => Some(Class::Cast(Cast::Truncate)),
        _ => match BinaryOperator::from_number(number.saturating_sub(20)) {
            Some(operator) => Some(Class::Binary(operator)),
            None => None,
        },
    }
}

// The form of the operations of the class.
pub(crate) fn form(class: Class) -> Form
    ensures { result ≡ form_of (role_of_class class) }
{
    match class {
        Class::Constant => Form::Constant,
        Class::Select => Form::Picks,
        Class::Opaque => Form::Opaque,
        Class::Jump => Form::Jumps,
        Class::Branch | Class::Switch => Form::Chooses(Counting::OfEach),
        Class::Leave => Form::Leaves,
        Class::Unreachable => Form::Stops,
        Class::Effect | Class::Local | Class::Call => Form::Acts(true, true),
        Class::Regions | Class::Root | Class::Function | Class::Module => Form::Acts(true, true),
        Class::Fork => Form::Forks(true),
        Class::Cast(_) => Form::Folds(1, Otherwise::Says),
        Class::Compare | Class::Binary(_) => Form::Folds(2, Otherwise::Says),
    }
}
