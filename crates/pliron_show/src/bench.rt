//! The notation of `Bench`.
ghost use Rattle.pliron_show.specs.Faults.{faults_as_unreadable};
ghost use Rattle.pliron_show.specs.Words.{says_long_number};

use crate::bench_traps::{reason_by_input, reason_without_input};
use crate::plain_data::datum_of_number;
use crate::renaming::{LETTERS, print_renamed};
use crate::run_report::{RunOptions, evaluated_sight};
use crate::shown::{NameScopes, NameSource, NewNames, Runnable, ShownNotation};
use crate::trap_reason::TrapReason;
use pliron_core::{Context, Operation, Ptr};
use pliron_dialect_bench::tables::kind_at;
use pliron_dialect_bench::{Bench, BenchKind};
use pliron_driver::{BenchNotation, Document};
use pliron_evaluator::evaluator::{Datum, Notes, Sight};
use pliron_laws::OptError;
use pliron_show_places::{
    Source, TextParts, TextRange, edge_range, forwarded_names, operand_range, parts_of, pretty,
    text_fault,
};
use pliron_text::number_of;
use std::alloc::{AllocError, Global};

impl NameScopes for BenchNotation {
    fn begins_names(op: Ptr<Operation>, ctx: &Context) -> bool {
        kind_at(op, ctx) == Some(BenchKind::Func)
    }
}

impl ShownNotation for BenchNotation {
    ghost faults = { faults_as_unreadable };

    fn fault_message(alloc: Global, source: &Source) -> Result<Option<String>, OptError> {
        text_fault(alloc, source.name, source.text)
    }

    fn on_lines(alloc: Global, printed: &[u8]) -> Result<Vec<u8>, AllocError> {
        pretty(alloc, printed)
    }

    fn new_names() -> NewNames {
        LETTERS
    }

    fn print_named<T: NameSource>(
        alloc: Global,
        document: &Document<()>,
        names: &T,
        ctx: &Context,
    ) -> Result<Vec<u8>, OptError> {
        print_renamed::<Self, T>(alloc, document, names, ctx)
    }

    fn parts(alloc: Global, text: &[u8]) -> Result<TextParts, AllocError> {
        parts_of(alloc, text)
    }

    fn word<'s>(op: Ptr<Operation>, _sheet: &'s (), ctx: &Context) -> Option<&'s str> {
        match kind_at(op, ctx) {
            Some(kind) => Some(kind.word()),
            None => None,
        }
    }

    fn constant(
        alloc: Global,
        op: Ptr<Operation>,
        _sheet: &(),
        ctx: &Context,
    ) -> Result<Option<String>, AllocError> {
        if kind_at(op, ctx) != Some(BenchKind::Const) {
            return Ok(None);
        }
        match number_of(op, ctx) {
            Some(number) => Ok(Some(number.to_string(alloc)?)),
            None => Ok(None),
        }
    }

    fn edge_way(
        alloc: Global,
        op: Ptr<Operation>,
        ctx: &Context,
        index: usize,
    ) -> Result<String, AllocError> {
        match (kind_at(op, ctx), index) {
            (Some(BenchKind::Cbr), 0) => String::from_str(alloc, "true"),
            (Some(BenchKind::Cbr), _) => String::from_str(alloc, "false"),
            _ => Ok(String::new(alloc)),
        }
    }

    fn edge_names<'t>(
        _op: Ptr<Operation>,
        _ctx: &Context,
        words: &'t [u8],
        index: usize,
    ) -> &'t [u8] {
        forwarded_names(words, index).unwrap_or(b"")
    }

    fn operand_range(words: &[u8], index: usize) -> Option<TextRange> {
        operand_range(words, index)
    }

    fn edge_range(words: &[u8], index: usize) -> Option<TextRange> {
        edge_range(words, index)
    }
}

impl Runnable for BenchNotation {
    ghost input_words = { says_long_number };

    ghost answer_words = { says_long_number };

    fn run_sight(
        alloc: Global,
        root: Ptr<Operation>,
        ctx: &Context,
        options: &RunOptions,
        notes: &mut Notes,
    ) -> Result<Sight, AllocError> {
        evaluated_sight::<Bench>(alloc, root, ctx, options, notes)
    }

    fn trap_reason(
        alloc: Global,
        ctx: &Context,
        op: Ptr<Operation>,
        input: Option<&[Datum]>,
    ) -> Result<TrapReason, OptError> {
        match input {
            Some(input) => reason_by_input(alloc, ctx, op, input),
            None => Ok(reason_without_input(op, ctx)),
        }
    }

    fn input_of_word(_alloc: Global, word: &str) -> Result<Option<Datum>, AllocError> {
        Ok(datum_of_number(word))
    }

    fn answer_of_word(_alloc: Global, word: &str) -> Result<Option<Datum>, AllocError> {
        Ok(datum_of_number(word))
    }
}
