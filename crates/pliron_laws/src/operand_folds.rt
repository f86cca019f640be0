//! Folding to operands: what an operation's results are, where they are one of its operands or where equal
//! operands decide them.
ghost use Rattle.std.specs.Prelude.{◌≡◌, IfOk, IsOkUnless, length};
ghost use Rattle.pliron_core.specs.Tree.{IsLive, operands_of};
ghost use Rattle.pliron_laws.specs.declared.fault.OptError.{OptError as FaultName};
ghost use Rattle.pliron_laws.specs.OperandFolding.{OperandFolds, ReadsOperands};

use crate::dialect::HasMeaning;
use crate::fault::OptError;
use pliron_core::{AttrObj, Context, Operation, Ptr};
use std::alloc::Global;

/// What a result of an operation is.
#[derive(Debug, Drop, PartialEq, Eq)]
pub enum OpFoldResult {
    /// The operand at this place.
    Operand(usize),
    /// The constant of this attribute.
    Constant(AttrObj),
}

/// Operations whose results are one of their operands, as `x + 0`, or constants that equal operands decide, as
/// `x - x`.
pub trait OperandFoldInterface: HasMeaning {
    // what each result is, under known constants, where the operands are these values
    ghost operand_folds: { OperandFolds };

    /// What each result is, where it is known, if the operands have these constants: an operand, or a constant.
    /// Reads the shape of the operation, and which of its operands are the same value. An answer for fewer
    /// results says nothing of the others.
    ///
    /// Asks that the operation is live (`is_live` tests it), and for one entry for each operand. Errors:
    /// allocation failure.
    fn fold_to_operand(
        alloc: Global,
        op: Ptr<Operation>,
        ctx: &Context,
        operand_attrs: &[Option<AttrObj>],
    ) -> Result<Vec<Option<OpFoldResult>>, OptError>
        requires live { IsLive ctx.now.tree op }
        requires entries { length operand_attrs.now ≡ length (operands_of ctx.now.tree op) }
        ensures ok { IfOk result (λ answers. ReadsOperands Self.meaning operand_folds operand_attrs.now ctx.now.tree op
            answers.items) }
        ensures memory { IsOkUnless result OptError.Memory };
}
