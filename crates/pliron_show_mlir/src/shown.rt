//! The generic form of MLIR.
ghost use Rattle.std.specs.Prelude.{◌≡◌, IfOk, IfSome, string_bytes};
ghost use Rattle.pliron_core.specs.Writes.{no_tree};
ghost use Rattle.pliron_show.specs.Faults.{faults_as_unreadable};

use crate::constants::{constant_of, name_of_head};
use crate::edges::{edge_names, edge_range, edge_way, operand_range};
use crate::notation::MlirNotation;
use crate::parts::module_parts;
use pliron_core::{Context, Operation, Ptr};
use pliron_dialect_mlir::{Class, class_of_head};
use pliron_driver::{Notation, TextFailure};
use pliron_driver_mlir::{ModuleDocument, ModuleFault};
use pliron_laws::OptError;
use pliron_show::{NameScopes, NameSource, NewNames, ShownNotation};
use pliron_show_places::{Source, SourceMark, TextParts, TextRange, mark_source};
use pliron_text_mlir_printer::{Naming, print_module_named};
use pliron_text_mlir_syntax::Sheet;
use std::alloc::{AllocError, Global};

/// Names that are given, as printing takes them.
#[derive(Drop)]
struct GivenNames<'n, T> {
    alloc: Global,
    names: &'n T,
}

impl<T: NameSource> Naming for GivenNames<'_, T> {
    fn value(&self, key: u64, out: &mut Vec<u8>) -> Result<(), AllocError> {
        let mut name = String::new(self.alloc);
        self.names.push_value(key, &mut name)?;
        out.extend_from_slice(name.as_bytes())
    }

    fn block(&self, key: u64, out: &mut Vec<u8>) -> Result<(), AllocError> {
        let mut name = String::new(self.alloc);
        self.names.push_block(key, &mut name)?;
        out.extend_from_slice(name.as_bytes())
    }
}

// The message for a text with this fault.
fn message_of(alloc: Global, source: &Source, fault: ModuleFault) -> Result<String, AllocError>
    ensures { IfOk result (λ message. faults_as_unreadable source.now.text.now (string_bytes message)) }
{
    let label = format!(in alloc; "expected {}", fault.expected)?;
    let mark = SourceMark {
        message: "unreadable text",
        label: label.as_str(),
        name: source.name,
        start: fault.place,
        len: 1,
    };
    mark_source(alloc, source.text, &mark)
}

// The same for a text that is read in this empty context; `None` for one without a fault.
fn message_in(alloc: Global, source: &Source, ctx: &mut Context) -> Result<Option<String>, OptError>
    requires { ctx.old.tree ≡ no_tree }
    ensures { IfOk result (λ found. IfSome found (λ message. faults_as_unreadable source.now.text.now
        (string_bytes message))) }
{
    match MlirNotation::read_document(alloc, source.text, ctx) {
        Ok(_) => Ok(None),
        Err(TextFailure::Text(fault)) => Ok(Some(message_of(alloc, source, fault)?)),
        Err(TextFailure::Refused(error)) => Err(error),
    }
}

impl NameScopes for MlirNotation {
    fn begins_names(op: Ptr<Operation>, ctx: &Context) -> bool {
        matches!(
            class_of_head(op.head(ctx)),
            Some(Class::Root) | Some(Class::Function)
        )
    }
}

impl ShownNotation for MlirNotation {
    ghost faults = { faults_as_unreadable };

    fn fault_message(alloc: Global, source: &Source) -> Result<Option<String>, OptError> {
        let mut ctx = Context::new(alloc);
        message_in(alloc, source, &mut ctx)
    }

    fn on_lines(alloc: Global, printed: &[u8]) -> Result<Vec<u8>, AllocError> {
        Vec::from_slice(alloc, printed)
    }

    fn new_names() -> NewNames {
        NewNames {
            value: "%v",
            block: "^b",
        }
    }

    fn print_named<T: NameSource>(
        alloc: Global,
        document: &ModuleDocument,
        names: &T,
        ctx: &Context,
    ) -> Result<Vec<u8>, OptError> {
        let naming = GivenNames { alloc, names };
        Ok(print_module_named(alloc, document.root, &document.sheet, &naming, ctx)?)
    }

    fn parts(alloc: Global, text: &[u8]) -> Result<TextParts, AllocError> {
        module_parts(alloc, text)
    }

    fn word<'s>(op: Ptr<Operation>, sheet: &'s Sheet, ctx: &Context) -> Option<&'s str> {
        name_of_head(op.head(ctx), sheet)
    }

    fn constant(
        alloc: Global,
        op: Ptr<Operation>,
        sheet: &Sheet,
        ctx: &Context,
    ) -> Result<Option<String>, AllocError> {
        constant_of(alloc, op.head(ctx), sheet)
    }

    fn edge_way(
        alloc: Global,
        op: Ptr<Operation>,
        ctx: &Context,
        index: usize,
    ) -> Result<String, AllocError> {
        edge_way(alloc, op, ctx, index)
    }

    fn edge_names<'t>(
        op: Ptr<Operation>,
        ctx: &Context,
        words: &'t [u8],
        index: usize,
    ) -> &'t [u8] {
        edge_names(op, ctx, words, index)
    }

    fn operand_range(words: &[u8], index: usize) -> Option<TextRange> {
        operand_range(words, index)
    }

    fn edge_range(words: &[u8], index: usize) -> Option<TextRange> {
        edge_range(words, index)
    }
}
