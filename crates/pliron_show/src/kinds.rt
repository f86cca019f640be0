//! The notations of dialects by roles.
ghost use Rattle.pliron_core.specs.Tree.{IsLive};
ghost use Rattle.pliron_show.specs.Faults.{faults_as_unreadable};
ghost use Rattle.pliron_show.specs.Words.{says_long_number};

use crate::plain_data::datum_of_number;
use crate::renaming::{LETTERS, print_renamed};
use crate::run_report::{RunOptions, evaluated_sight};
use crate::shown::{NameScopes, NameSource, NewNames, Runnable, ShownNotation};
use crate::trap_reason::TrapReason;
use pliron_core::{Context, Operation, Ptr};
use pliron_dialect::{ByRoles, Form, Roles};
use pliron_driver::{Document, KindNotation};
use pliron_evaluator::evaluator::{Datum, Notes, Sight};
use pliron_laws::OptError;
use pliron_rewrite_rules::Rules;
use pliron_role_runs::{Interprets, RunByRoles};
use pliron_show_places::{
    Source, TextParts, TextRange, edge_range, forwarded_names, kind_fault, operand_range, parts_of,
    pretty,
};
use pliron_text::{Grammar, number_of};
use std::alloc::{AllocError, Global};

// The form of the operation's kind, if it has one.
fn form_of<K: Roles>(op: Ptr<Operation>, ctx: &Context) -> Option<Form>
    requires { IsLive ctx.now.tree op }
{
    match K::from_number(op.head(ctx).kind) {
        Some(kind) => Some(kind.form()),
        None => None,
    }
}

impl<K: Grammar, L: Rules<ByRoles<K>>> NameScopes for KindNotation<K, L> {
    fn begins_names(_op: Ptr<Operation>, _ctx: &Context) -> bool {
        false
    }
}

impl<K: Grammar, L: Rules<ByRoles<K>>> ShownNotation for KindNotation<K, L> {
    ghost faults = { faults_as_unreadable };

    fn fault_message(alloc: Global, source: &Source) -> Result<Option<String>, OptError> {
        kind_fault::<K>(alloc, source.name, source.text)
    }

    fn on_lines(alloc: Global, printed: &[u8]) -> Result<Vec<u8>, AllocError> {
        pretty(alloc, printed)
    }

    fn new_names() -> NewNames {
        LETTERS
    }

    fn print_named<T: NameSource>(
        alloc: Global,
        document: &Document<()>,
        names: &T,
        ctx: &Context,
    ) -> Result<Vec<u8>, OptError> {
        print_renamed::<Self, T>(alloc, document, names, ctx)
    }

    fn parts(alloc: Global, text: &[u8]) -> Result<TextParts, AllocError> {
        parts_of(alloc, text)
    }

    fn word<'s>(op: Ptr<Operation>, _sheet: &'s (), ctx: &Context) -> Option<&'s str> {
        match K::from_number(op.head(ctx).kind) {
            Some(kind) => Some(kind.word()),
            None => None,
        }
    }

    fn constant(
        alloc: Global,
        op: Ptr<Operation>,
        _sheet: &(),
        ctx: &Context,
    ) -> Result<Option<String>, AllocError> {
        match (form_of::<K>(op, ctx), number_of(op, ctx)) {
            (Some(Form::Constant), Some(number)) => Ok(Some(number.to_string(alloc)?)),
            _ => Ok(None),
        }
    }

    fn edge_way(
        alloc: Global,
        op: Ptr<Operation>,
        ctx: &Context,
        index: usize,
    ) -> Result<String, AllocError> {
        match (form_of::<K>(op, ctx), index) {
            (Some(Form::Chooses(_)), 0) => String::from_str(alloc, "true"),
            (Some(Form::Chooses(_)), _) => String::from_str(alloc, "false"),
            _ => Ok(String::new(alloc)),
        }
    }

    fn edge_names<'t>(
        _op: Ptr<Operation>,
        _ctx: &Context,
        words: &'t [u8],
        index: usize,
    ) -> &'t [u8] {
        forwarded_names(words, index).unwrap_or(b"")
    }

    fn operand_range(words: &[u8], index: usize) -> Option<TextRange> {
        operand_range(words, index)
    }

    fn edge_range(words: &[u8], index: usize) -> Option<TextRange> {
        edge_range(words, index)
    }
}

impl<K: Grammar + Interprets, L: Rules<ByRoles<K>>> Runnable for KindNotation<K, L> {
    ghost input_words = { says_long_number };

    ghost answer_words = { says_long_number };

    fn run_sight(
        alloc: Global,
        root: Ptr<Operation>,
        ctx: &Context,
        options: &RunOptions,
        notes: &mut Notes,
    ) -> Result<Sight, AllocError> {
        evaluated_sight::<RunByRoles<K>>(alloc, root, ctx, options, notes)
    }

    fn trap_reason(
        _alloc: Global,
        _ctx: &Context,
        _op: Ptr<Operation>,
        _input: Option<&[Datum]>,
    ) -> Result<TrapReason, OptError> {
        Ok(TrapReason::Unknown)
    }

    fn input_of_word(_alloc: Global, word: &str) -> Result<Option<Datum>, AllocError> {
        Ok(datum_of_number(word))
    }

    fn answer_of_word(_alloc: Global, word: &str) -> Result<Option<Datum>, AllocError> {
        Ok(datum_of_number(word))
    }
}
