//! Runs of functions.
ghost use Rattle.std.specs.Prelude.{◌≡◌, true, map, IfOk, IfSome};
ghost use Rattle.std.specs.List.{All};
ghost use Rattle.pliron_core.specs.Tree.{IsLive, IsBlock};
ghost use Rattle.pliron_core.specs.Writes.{no_tree};
ghost use Rattle.pliron_show_mlir.specs.Functions.{body_block, IsFunctionHead, IsFunction, IsRunnableAt, AreFunctionsRead};
ghost use Rattle.pliron_show_mlir.specs.LostNumbers.{LosesNumber};
ghost use Rattle.pliron_show_mlir.specs.RunWords.{says_input, says_answer};

use crate::lost_numbers::lost_label;
use crate::notation::MlirNotation;
use crate::words::{WORDS, answer_of_word, datum_of_word, number_in, push_datum, push_effect};
use pliron_core::{BasicBlock, Context, Head, Operation, Ptr};
use pliron_dialect::Roles;
use pliron_dialect_mlir::{AnyMeaning, Class, Mlir, MlirKind, class_of_head};
use pliron_driver::Notation;
use pliron_driver_mlir::ClosedForm;
use pliron_evaluator::evaluator::{Datum, Notes, Sight};
use pliron_laws::OptError;
use pliron_laws::reads::all_operations;
use pliron_role_runs::RunByRoles;
use pliron_show::{RunOptions, Runnable, TrapReason, edge_counts, evaluated_sight, read_shown};
use pliron_text_mlir_printer::form_of_head;
use pliron_text_mlir_syntax::Sheet;
use std::alloc::{AllocError, Global};

// Why the branch that took this input traps.
fn branch_reason(
    alloc: Global,
    ctx: &Context,
    op: Ptr<Operation>,
    input: &[Datum],
) -> Result<TrapReason, OptError>
    requires { IsLive ctx.now.tree op }
{
    let head = op.head(ctx);
    let Some(kind) = MlirKind::<AnyMeaning>::from_number(head.kind) else {
        return Ok(TrapReason::Unknown);
    };
    let number = match input.first() {
        Some(datum) => number_in(datum),
        None => None,
    };
    let edge = match number {
        Some(number) => kind.choose_edge(head, op.num_successor(ctx), number),
        None => None,
    };
    match edge {
        Some(edge) => edge_counts::<Mlir<AnyMeaning>>(alloc, ctx, op, edge),
        None => Ok(TrapReason::NoNumber),
    }
}

impl Runnable for MlirNotation {
    ghost input_words = { says_input };

    ghost answer_words = { says_answer };

    ghost loses = { LosesNumber };

    fn run_sight(
        alloc: Global,
        root: Ptr<Operation>,
        ctx: &Context,
        options: &RunOptions,
        notes: &mut Notes,
    ) -> Result<Sight, AllocError> {
        evaluated_sight::<RunByRoles<MlirKind<AnyMeaning>>>(alloc, root, ctx, options, notes)
    }

    fn trap_reason(
        alloc: Global,
        ctx: &Context,
        op: Ptr<Operation>,
        input: Option<&[Datum]>,
    ) -> Result<TrapReason, OptError> {
        match (class_of_head(op.head(ctx)), input) {
            (Some(Class::Unreachable), _) => Ok(TrapReason::Unreachable),
            (Some(Class::Jump), _) => edge_counts::<Mlir<AnyMeaning>>(alloc, ctx, op, 0),
            (Some(Class::Branch), Some(input)) => branch_reason(alloc, ctx, op, input),
            (Some(Class::Switch), Some(input)) => branch_reason(alloc, ctx, op, input),
            _ => Ok(TrapReason::Unknown),
        }
    }

    fn lost_number(ctx: &Context, op: Ptr<Operation>, input: &[Datum]) -> Option<&'static str> {
        lost_label(op.head(ctx), input)
    }

    fn input_of_word(_alloc: Global, word: &str) -> Result<Option<Datum>, AllocError> {
        Ok(datum_of_word(word))
    }

    fn answer_of_word(alloc: Global, word: &str) -> Result<Option<Datum>, AllocError> {
        answer_of_word(alloc, word)
    }

    fn words_of_data() -> &'static str {
        WORDS
    }

    fn has_worded_data() -> bool {
        true
    }

    fn write_datum(
        alloc: Global,
        text: &mut String,
        sheet: &Sheet,
        datum: &Datum,
    ) -> Result<(), AllocError> {
        let mut out = Vec::new(alloc);
        push_datum(&mut out, sheet, datum)?;
        text.push_str(String::from_utf8_lossy(alloc, &out)?.as_str())
    }

    fn write_effect(
        alloc: Global,
        text: &mut String,
        sheet: &Sheet,
        effect: &Datum,
    ) -> Result<(), AllocError> {
        let mut out = Vec::new(alloc);
        push_effect(alloc, &mut out, sheet, effect)?;
        text.push_str(String::from_utf8_lossy(alloc, &out)?.as_str())
    }
}

/// A function of a module that can be run.
#[derive(Drop)]
pub struct FunctionPlace {
    /// Its index in the module's region.
    pub index: usize,
    /// Its symbol; empty where its text says none.
    pub name: String,
}

// The name between quotes behind `sym_name = `, if there is one.
fn symbol_in(text: &[u8]) -> Option<&str> {
    let text = std::str::from_utf8(text).ok()?;
    let (_, rest) = text.split_once("sym_name = \"")?;
    let (name, _) = rest.split_once('"')?;
    Some(name)
}

// The symbol of the operation, empty where its text says none.
fn symbol_of<'s>(op: Ptr<Operation>, sheet: &'s Sheet, ctx: &Context) -> &'s str
    requires { IsLive ctx.now.tree op }
{
    let Some(form) = form_of_head(op.head(ctx), sheet) else {
        return "";
    };
    match form.properties.or(form.attributes) {
        Some(listed) => symbol_in(sheet.text(listed)).unwrap_or(""),
        None => "",
    }
}

// The first block of the operation's first region, if it has one.
fn first_block(op: Ptr<Operation>, ctx: &Context) -> Option<Ptr<BasicBlock>>
    requires { IsLive ctx.now.tree op }
    ensures block { result ≡ body_block ctx.now.tree op }
    ensures liveness { IfSome result (λ block. IsBlock ctx.now.tree block) }
{
    if op.num_region(ctx) == 0 {
        return None;
    }
    op.get_region(ctx, 0).get_head(ctx)
}

// Whether the head is that of a function, with a name or without.
fn is_function_head(head: &Head) -> bool
    ensures { result ≡ true → IsFunctionHead head.now }
{
    match class_of_head(head) {
        Some(Class::Root) => true,
        Some(Class::Function) => true,
        _ => false,
    }
}

// Whether the operation is a function with a body.
fn is_function(op: Ptr<Operation>, ctx: &Context) -> bool
    requires { IsLive ctx.now.tree op }
    ensures { result ≡ true → IsFunction ctx.now.tree op }
{
    match first_block(op, ctx) {
        Some(_) => is_function_head(op.head(ctx)),
        None => false,
    }
}

// The functions with a body that are directly in the operation, if it is a module.
fn functions_inside(
    alloc: Global,
    root: Ptr<Operation>,
    sheet: &Sheet,
    ctx: &Context,
) -> Result<Option<Vec<FunctionPlace>>, AllocError>
    requires { IsLive ctx.now.tree root }
    ensures { IfOk result (λ found. IfSome found (λ functions. All (IsRunnableAt ctx.now.tree root)
        (map (λ function. function.index) functions.items))) }
{
    let mut functions = Vec::new(alloc);
    if class_of_head(root.head(ctx)) != Some(Class::Module) || root.num_region(ctx) == 0 {
        return Ok(None);
    }
    let Some(block) = first_block(root, ctx) else {
        return Ok(Some(functions));
    };
    let operations = all_operations(alloc, block, ctx)?;
    for index in 0..operations.len() {
        let op = operations[index];
        if op.is_live(ctx) && is_function(op, ctx) {
            let name = String::from_str(alloc, symbol_of(op, sheet, ctx))?;
            functions.push(FunctionPlace { index, name })?;
        }
    }
    Ok(Some(functions))
}

/// The functions with a body that are directly in a module, in order; `None` for a text that is no module. Errors:
/// allocation failure. Cost: that of reading the text.
pub fn functions_of(alloc: Global, text: &[u8]) -> Result<Option<Vec<FunctionPlace>>, OptError>
    ensures { IfOk result (λ found. IfSome found (λ functions. AreFunctionsRead ⟦<ClosedForm as Notation>⟧.reads
        text.now (map (λ function. function.index) functions.items))) }
{
    let mut ctx = Context::new(alloc);
    functions_in(alloc, text, &mut ctx)
}

// The same in this context, which is empty.
fn functions_in(
    alloc: Global,
    text: &[u8],
    ctx: &mut Context,
) -> Result<Option<Vec<FunctionPlace>>, OptError>
    requires { ctx.old.tree ≡ no_tree }
    ensures { IfOk result (λ found. IfSome found (λ functions. AreFunctionsRead ⟦<ClosedForm as Notation>⟧.reads
        text.now (map (λ function. function.index) functions.items))) }
{
    match read_shown::<MlirNotation>(alloc, text, ctx)? {
        Some(document) => { Ok(functions_inside(alloc, document.root, &document.sheet, ctx)?) }
        None => Ok(None),
    }
}
