//! Functions of a module that nothing names.
ghost use Rattle.std.specs.Prelude.{◌≡◌};
ghost use Rattle.pliron_driver_symbols.specs.Erased.{IsErasedFrom};

use pliron_core::{Context, IRRewriter};
use pliron_dialect_calls::InliningDialect;
use pliron_driver::Document;
use pliron_driver_stages::ModuleStage;
use pliron_laws::{Dialect, OptError};
use pliron_mlir_symbols::ModuleSymbols;
use pliron_opt_symbols::{SymbolPolicy, symbol_dce};
use pliron_text_mlir_syntax::Sheet;
use std::alloc::Global;

/// The name of the stage, in words that ask for passes.
pub const SYMBOL_STAGE: &str = "symbol-dce";

/// The stage that erases the functions of a module that nothing names, as far as its texts say so. The sheet counts them.
///
/// Whatever the texts say, in each program that has the module linked runs of what is left are the same.
pub struct ErasingStage;

impl<D: Dialect + InliningDialect> ModuleStage<D, Sheet> for ErasingStage
where
    ModuleSymbols: SymbolPolicy<D>,
{
    ghost makes = { IsErasedFrom D.meaning D.convention D.callee };

    fn apply(
        alloc: Global,
        document: &mut Document<Sheet>,
        ctx: &mut Context,
    ) -> Result<(), OptError> {
        let symbols = ModuleSymbols::of(alloc, &document.sheet)?;
        let gone = symbol_dce::<D, ModuleSymbols, IRRewriter>(
            alloc,
            document.root,
            &symbols,
            ctx,
            &mut IRRewriter::new(),
        )?;
        document.sheet.erased = document.sheet.erased.saturating_add(gone.len());
        Ok(())
    }
}
