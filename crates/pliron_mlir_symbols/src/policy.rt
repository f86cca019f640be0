//! What a module says of names, by the forms of its operations.
ghost use Rattle.std.specs.Prelude.{◌≡◌, IfOk, length};
ghost use Rattle.pliron_core.specs.Tree.{IsLive};
ghost use Rattle.pliron_laws.specs.Answers.{ReadsHead};
ghost use Rattle.pliron_mlir_symbols.specs.Symbols.{private_in, is_traced_class, mlir_callers, traced_itself};
ghost use Rattle.pliron_rewrite_symbols.specs.CallersByRole.{has_kind, CallersLaw};

use crate::lists::{NamedValue, values_of};
use crate::mentions::MentionedNames;
use pliron_core::{Context, Operation, Ptr};
use pliron_dialect::Roles;
use pliron_dialect_calls::Calls;
use pliron_dialect_mlir::{Class, Interpretation, Mlir, MlirKind, form_of};
use pliron_opt_symbols::SymbolPolicy;
use pliron_text_mlir_syntax::{OperationForm, Sheet, is_word};
use std::alloc::{AllocError, Global};

/// Linkages and visibilities of functions that nobody else names.
static PRIVATE: [&str; 2] = ["private", "internal"];

/// Which functions nobody names but calls in their module, by the numbers of their forms.
///
/// What passes make has no form, and isn't private.
#[derive(Drop)]
pub struct ModuleSymbols {
    /// By the numbers of forms: whether functions of the form are private.
    pub forms: Vec<bool>,
}

// Whether the entry says that nobody else names the function.
fn says_private(entry: &NamedValue) -> bool {
    let says = entry.name == b"linkage".as_slice() || entry.name == b"sym_visibility".as_slice();
    says && entry
        .value
        .split(|byte| !is_word(*byte))
        .any(|part| PRIVATE.iter().any(|word| word.as_bytes() == part))
}

// Whether a text may mention the function with these entries: it does, or the name isn't known.
fn may_be_mentioned(values: &[NamedValue], mentioned: &MentionedNames) -> bool {
    for entry in values {
        if entry.name == b"sym_name".as_slice() {
            return mentioned.may_have(entry.value);
        }
    }
    true
}

// Whether functions of the form are private.
fn is_private_form(
    alloc: Global,
    form: &OperationForm,
    sheet: &Sheet,
    mentioned: &MentionedNames,
) -> Result<bool, AllocError> {
    let Some(values) = values_of(alloc, form, sheet)? else {
        return Ok(false);
    };
    if !values.iter().any(says_private) {
        return Ok(false);
    }
    Ok(!may_be_mentioned(&values, mentioned))
}

impl ModuleSymbols {
    /// What the texts of the sheet say. Errors: allocation failure. Cost: linear in the texts.
    pub fn of(alloc: Global, sheet: &Sheet) -> Result<Self, AllocError>
        ensures { IfOk result (λ symbols. length symbols.forms.items ≡ length sheet.now.forms.keys) }
    {
        let mentioned = MentionedNames::of(alloc, sheet)?;
        let mut forms = Vec::new(alloc);
        for number in 0..sheet.num_form() {
            let is_private = match sheet.form(number) {
                Some(form) => is_private_form(alloc, &form, sheet, &mentioned)?,
                None => false,
            };
            forms.push(is_private)?;
        }
        Ok(ModuleSymbols { forms })
    }
}

// Whether an operation of the class can call its callee alone.
fn is_traced_kind(class: Class) -> bool
    ensures { result ≡ is_traced_class class }
{
    !matches!(class, Class::Regions)
}

/// What has regions of which nothing is known may call any function: it shows the world what its regions gave.
impl<I: Interpretation> SymbolPolicy<Mlir<I>> for ModuleSymbols {
    ghost is_private = { λ symbols. private_in symbols.forms.items };

    ghost is_traced = { λ symbols. has_kind ⟦<MlirKind<I> as Roles>⟧.tables (λ k. is_traced_class k.class) };

    fn is_private(&self, function: Ptr<Operation>, ctx: &Context) -> bool {
        let Some(number) = form_of(function.head(ctx)) else {
            return false;
        };
        match usize::try_from(number) {
            Ok(number) => match self.forms.get(number) {
                Some(is_private) => *is_private,
                None => false,
            },
            Err(_) => false,
        }
    }

    fn is_traced(&self, op: Ptr<Operation>, ctx: &Context) -> bool {
        match MlirKind::<I>::from_number(op.head(ctx).kind) {
            Some(kind) => is_traced_kind(kind.class),
            None => false,
        }
    }

    ghost callers = { λ symbols. let law : CallersLaw ⟦<MlirKind<I> as Roles>⟧.tables ⟦<MlirKind<I> as Calls>⟧.calls
        = mlir_callers (λ k. k.class) (λ c. record { class = c; meaning = record {} }) I.value in
        law (λ k. is_traced_class k.class) (λ k p. traced_itself (λ z. z.class) k p) };
}
