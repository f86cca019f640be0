//! What is noted of the moves of a run.
use crate::evaluator::environment::first_operation;
use crate::evaluator::state::{State, input_of};
use crate::evaluator::values::Datum;
use pliron_core::{Context, Operation, Ptr};
use std::alloc::{AllocError, Global};

/// A move of a run: the operation that made it, and its input. At the first move that is the data of its operands, later
/// what it was answered; there is none where an operand has no datum.
#[derive(Drop)]
pub struct NotedMove {
    pub op: Ptr<Operation>,
    pub input: Option<Vec<Datum>>,
}

/// What is noted of the moves of a run.
#[derive(Drop)]
pub struct Notes {
    /// The operation that made the last move. There is none before the first one, and where a block ended that
    /// no operation ended.
    pub last: Option<Ptr<Operation>>,
    /// All moves in order, where they are noted.
    pub moves: Vec<NotedMove>,
    keeps_moves: bool,
}

impl Notes {
    /// Of the last move alone. Cost: constant.
    pub fn of_last(alloc: Global) -> Self {
        Notes {
            last: None,
            moves: Vec::new(alloc),
            keeps_moves: false,
        }
    }

    /// Of all moves. Cost: constant.
    pub fn of_all(alloc: Global) -> Self {
        Notes {
            last: None,
            moves: Vec::new(alloc),
            keeps_moves: true,
        }
    }

    /// Notes the move that comes next.
    pub(super) fn take(
        &mut self,
        alloc: Global,
        ctx: &Context,
        state: &State,
    ) -> Result<(), AllocError> {
        self.last = first_operation(&state.rest);
        match self.last {
            Some(op) if self.keeps_moves && op.is_live(ctx) => {
                let input = input_of(alloc, ctx, state, op)?;
                self.moves.push(NotedMove { op, input })?;
                Ok(())
            }
            _ => Ok(()),
        }
    }
}
