//! Types of the values that inlining makes.
use pliron_opt_inline::MadeValue;
use pliron_text_mlir_syntax::Sheet;
use std::alloc::AllocError;

/// Gives each of these values the type of the one that it stands for, which is older. Errors: allocation failure. Cost: linear
/// in them.
pub(crate) fn set_types(sheet: &mut Sheet, values: &[MadeValue]) -> Result<(), AllocError> {
    for made in values {
        sheet.set_type_of(made.value.key(), made.original.key())?;
    }
    Ok(())
}
