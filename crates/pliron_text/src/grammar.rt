//! How texts write the operations of each kind of a dialect by roles.
use crate::word_table::Word;
use pliron_dialect::{Counting, Form, Roles};

/// What is behind the word of a kind, up to the regions.
#[derive(Clone, Copy, Debug, PartialEq, Eq)]
pub enum Tail {
    /// A number, which is the attribute.
    Number,
    /// The names of so many operands.
    Operands(usize),
    /// The names of operands, as many as there are.
    AnyOperands,
    /// The name of an operand, then the names of two blocks.
    Fork,
    /// A block with all operands in brackets.
    Edge,
    /// The name of the first operand, then two blocks, each with operands in brackets. The attribute counts those of
    /// the first block.
    TwoEdges,
}

/// How many results or regions a text writes of an operation.
#[derive(Clone, Copy, Debug, PartialEq, Eq)]
pub enum Count {
    /// So many.
    Exactly(usize),
    /// Any number, which the dialect is to admit.
    Any,
}

/// What a region has.
#[derive(Clone, Copy, Debug, PartialEq, Eq)]
pub enum Body {
    /// Blocks, or none.
    Blocks,
    /// A block at least.
    SomeBlocks,
    /// A block at least. Names of values begin anew.
    Function,
    /// Blocks without arguments, or none. The operations in them stand at the top, and no others do.
    Module,
}

/// The grammar of the texts of a dialect of these kinds. What is given here is the grammar of a small dialect, in which
/// the form of a kind says what a text writes of it; nothing in it forks.
pub trait Grammar: Roles + Word {
    /// The body that a whole text is read as standing in. In a module it is an operation without results. Cost: constant.
    fn around() -> Body {
        Body::Blocks
    }

    /// The most results that a text writes of an operation. Cost: constant.
    fn most_results() -> usize {
        usize::MAX
    }

    /// Whether operations of the kind stand at the top, and so in modules alone. Cost: constant.
    fn is_top(self) -> bool {
        false
    }

    /// What each region of an operation of the kind has. Cost: constant.
    fn body(self) -> Body {
        Body::Blocks
    }

    /// How many results an operation of the kind has. Cost: constant.
    fn results(self) -> Count {
        match self.form() {
            Form::Constant | Form::Folds(_, _) | Form::Picks => Count::Exactly(1),
            Form::Jumps | Form::Chooses(_) | Form::Leaves | Form::Holds(_) => Count::Exactly(0),
            _ => Count::Any,
        }
    }

    /// How many regions an operation of the kind has. Cost: constant.
    fn regions(self) -> Count {
        match self.form() {
            Form::Stops | Form::Acts(_, _) | Form::Names | Form::Forks(_) | Form::Holds(_) =>
                Count::Any,
            _ => Count::Exactly(0),
        }
    }

    /// What is behind the word of the kind. Cost: constant.
    fn tail(self) -> Tail {
        match self.form() {
            Form::Constant => Tail::Number,
            Form::Folds(count, _) => Tail::Operands(count),
            Form::Picks => Tail::Operands(3),
            Form::Jumps => Tail::Edge,
            Form::Chooses(Counting::OfFirst) => Tail::TwoEdges,
            _ => Tail::AnyOperands,
        }
    }
}
