//! Loops of a module that are rotated.
ghost use Rattle.std.specs.Prelude.{◌≡◌};
ghost use Rattle.pliron_theory.specs.Change.{IsWholeChange};

use pliron_core::Context;
use pliron_dialect_edges::LengthensEdges;
use pliron_driver::Document;
use pliron_driver_stages::ModuleStage;
use pliron_laws::{OptError, is_well_linked};
use pliron_opt_rotate::{RotatedValue, rotate_loops};
use pliron_text_mlir_syntax::Sheet;
use std::alloc::{AllocError, Global};

/// The name of the stage, in words that ask for passes.
pub const ROTATION_STAGE: &str = "rotate";

/// The stage that rotates the loops of a module. The sheet gets the types of what was made, and counts the headers that were
/// copied.
///
/// The module's operation stays live and well linked, nothing outside it changes, and each root that is fit to run does the same.
pub struct RotatingStage;

// Gives each of these values the type of the one that it stands for, which is older.
fn set_types(sheet: &mut Sheet, values: &[RotatedValue]) -> Result<(), AllocError> {
    for made in values {
        sheet.set_type_of(made.value.key(), made.original.key())?;
    }
    Ok(())
}

impl<D: LengthensEdges> ModuleStage<D, Sheet> for RotatingStage {
    ghost makes = { λ t u root. IsWholeChange D.meaning t u root };

    fn apply(
        alloc: Global,
        document: &mut Document<Sheet>,
        ctx: &mut Context,
    ) -> Result<(), OptError> {
        if !is_well_linked::<D>(document.root, ctx) {
            return Err(OptError::VerifyBefore);
        }
        let rotated = rotate_loops::<D>(alloc, document.root, ctx)?;
        set_types(&mut document.sheet, rotated.values.as_slice())?;
        document.sheet.rotated = document.sheet.rotated.saturating_add(rotated.copies);
        Ok(())
    }
}
