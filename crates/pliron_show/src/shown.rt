//! What people ask of a notation.
ghost use Rattle.std.specs.Prelude.{◌≡◌, ◌≤◌, ◌+◌, length, map, IfOk, IfSome, string_bytes};
ghost use Rattle.pliron_core.specs.Tree.{IsLive};
ghost use Rattle.pliron_laws.specs.Machine.{run, sight_after as seen_of};
ghost use Rattle.pliron_show_places.specs.Layout.{words_of};
ghost use Rattle.pliron_evaluator.specs.Evaluator.{datum_of_value, sight_of};
ghost use Rattle.pliron_show.specs.Faults.{TextFaults};
ghost use Rattle.pliron_show.specs.Lost.{Losses, LosesAt};
ghost use Rattle.pliron_show.specs.Words.{DataWords};

use crate::plain_data::write_plain_datum;
use crate::run_report::RunOptions;
use crate::trap_reason::TrapReason;
use pliron_core::{Context, Operation, Ptr};
use pliron_driver::{Document, Notation};
use pliron_evaluator::evaluator::{Datum, Notes, Sight};
use pliron_laws::OptError;
use pliron_show_places::{Source, TextParts, TextRange};
use std::alloc::{AllocError, Global};

/// What the names of new values and of new blocks begin with.
#[derive(Clone, Copy, Debug)]
pub struct NewNames {
    pub value: &'static str,
    pub block: &'static str,
}

/// What values and blocks are called.
pub trait NameSource {
    /// Adds the name of the value with this handle. Errors: allocation failure. Cost: linear in it.
    fn push_value(&self, key: u64, line: &mut String) -> Result<(), AllocError>;

    /// Adds the name of the block with this handle. Errors: allocation failure. Cost: linear in it.
    fn push_block(&self, key: u64, line: &mut String) -> Result<(), AllocError>;
}

/// Where the names of values begin anew.
pub trait NameScopes {
    /// Whether the names of values begin anew at the operation. Asks that it is live (`is_live` tests it). Cost: constant.
    fn begins_names(op: Ptr<Operation>, ctx: &Context) -> bool
        requires { IsLive ctx.now.tree op };
}

/// A notation whose texts and trees are shown to people.
pub trait ShownNotation: Notation + NameScopes {
    // the report says what is wrong with the text
    ghost faults: { TextFaults };

    /// The message for a text outside the notation; `None` for one inside it. Errors: allocation failure.
    fn fault_message(alloc: Global, source: &Source) -> Result<Option<String>, OptError>
        ensures { IfOk result (λ found. IfSome found (λ message. faults source.now.text.now (string_bytes message))) };

    /// A printed text with each block and each operation on a line of its own: the same words in the same order. Errors:
    /// allocation failure. Cost: linear in the text, and its depth for each line.
    fn on_lines(alloc: Global, printed: &[u8]) -> Result<Vec<u8>, AllocError>
        ensures { IfOk result (λ laid. words_of laid.items ≡ words_of printed.now) };

    /// What the names of new values and of new blocks begin with. Cost: constant.
    fn new_names() -> NewNames;

    /// Prints the operation with its sheet, with these names of values and blocks. Asks that it is live (`is_live` tests
    /// it). Errors: allocation failure. Cost: that of `print_document`, and of the names.
    fn print_named<T: NameSource>(
        alloc: Global,
        document: &Document<Self::Sheet>,
        names: &T,
        ctx: &Context,
    ) -> Result<Vec<u8>, OptError>
        requires { IsLive ctx.now.tree document.now.root };

    /// Where the operations, the heads of blocks and the names of values are in a text that the notation has. Errors:
    /// allocation failure. Cost: linear in the text.
    fn parts(alloc: Global, text: &[u8]) -> Result<TextParts, AllocError>;

    /// The word of the operation, if it has one. Asks that it is live (`is_live` tests it). Cost: linear in the word.
    fn word<'s>(op: Ptr<Operation>, sheet: &'s Self::Sheet, ctx: &Context) -> Option<&'s str>
        requires { IsLive ctx.now.tree op };

    /// The constant that the operation makes, as people read it; `None` of an operation that makes none. Asks that it is
    /// live (`is_live` tests it). Errors: allocation failure. Cost: linear in what is written.
    fn constant(
        alloc: Global,
        op: Ptr<Operation>,
        sheet: &Self::Sheet,
        ctx: &Context,
    ) -> Result<Option<String>, AllocError>
        requires { IsLive ctx.now.tree op };

    /// Which way the edge at this index is, of a branch; empty where it isn't one of several. Asks that the operation is
    /// live (`is_live` tests it). Errors: allocation failure. Cost: constant.
    fn edge_way(
        alloc: Global,
        op: Ptr<Operation>,
        ctx: &Context,
        index: usize,
    ) -> Result<String, AllocError>
        requires { IsLive ctx.now.tree op };

    /// The names of the values that the edge at this index forwards, as these words of its operation have them. Asks that
    /// the operation is live (`is_live` tests it). Cost: linear in the words, and in the edges before it.
    fn edge_names<'t>(op: Ptr<Operation>, ctx: &Context, words: &'t [u8], index: usize) -> &'t [u8]
        requires { IsLive ctx.now.tree op };

    /// Where these words of an operation, up to its regions, have the operand at this index; `None` where they don't.
    /// Cost: linear in the words.
    fn operand_range(words: &[u8], index: usize) -> Option<TextRange>
        ensures { IfSome result (λ part. part.start + part.len ≤ length words.now) };

    /// The same of the edge at this index. Cost: linear in the words.
    fn edge_range(words: &[u8], index: usize) -> Option<TextRange>
        ensures { IfSome result (λ part. part.start + part.len ≤ length words.now) };
}

/// A notation whose operations are run for people.
pub trait Runnable: ShownNotation {
    // which words say inputs, and which say answers of the world
    ghost input_words: { DataWords };

    ghost answer_words: { DataWords };

    // where its operations lose a number
    ghost loses: { Losses } = { λ _ _. ⊥ };

    /// What is seen of a run of the operation, with notes of its moves. Errors: allocation failure. Cost: that of the run.
    fn run_sight(
        alloc: Global,
        root: Ptr<Operation>,
        ctx: &Context,
        options: &RunOptions,
        notes: &mut Notes,
    ) -> Result<Sight, AllocError>
        ensures { IfOk result (λ sight. sight_of sight ≡ seen_of
            (run Self.D.meaning ctx.now.tree root (map datum_of_value options.now.inputs.now)
            (map datum_of_value options.now.world.now) options.now.steps)) };

    /// Why the operation that took this input traps; without an input, why it may. Asks that it is live (`is_live` tests
    /// it). Errors: allocation failure. Cost: linear in its operands.
    fn trap_reason(
        alloc: Global,
        ctx: &Context,
        op: Ptr<Operation>,
        input: Option<&[Datum]>,
    ) -> Result<TrapReason, OptError>
        requires { IsLive ctx.now.tree op };

    /// Why the operation that took these numbers gives none, where it computes one; `None` where it gives one, and of any
    /// other operation. Asks that it is live (`is_live` tests it). Cost: constant.
    fn lost_number(ctx: &Context, op: Ptr<Operation>, input: &[Datum]) -> Option<&'static str>
        requires { IsLive ctx.now.tree op }
        ensures { IfSome result (λ reason. LosesAt loses ctx.now.tree op (map datum_of_value input.now)) }
    {
        let _ = ctx;
        let _ = op;
        let _ = input;
        None
    }

    /// The input that the word says; `None` where it says none. Errors: allocation failure. Cost: linear in the word.
    fn input_of_word(alloc: Global, word: &str) -> Result<Option<Datum>, AllocError>
        ensures { IfOk result (λ found. IfSome found (λ datum. input_words word.now (datum_of_value datum))) };

    /// The answer of the world that the word says; `None` where it says none. Errors: allocation failure. Cost: linear in
    /// the word.
    fn answer_of_word(alloc: Global, word: &str) -> Result<Option<Datum>, AllocError>
        ensures { IfOk result (λ found. IfSome found (λ datum. answer_words word.now (datum_of_value datum))) };

    /// Which words say data. Cost: constant.
    fn words_of_data() -> &'static str {
        "a number from -9223372036854775808 to 9223372036854775807"
    }

    /// Whether a datum is written as words: commas are between such, and JSON has them as strings. Else blanks are, and
    /// JSON has a number, a string, `null` or an array of two. Cost: constant.
    fn has_worded_data() -> bool {
        false
    }

    /// Writes a datum as people read it. Errors: allocation failure. Cost: linear in it.
    fn write_datum(
        _alloc: Global,
        text: &mut String,
        _sheet: &Self::Sheet,
        datum: &Datum,
    ) -> Result<(), AllocError> {
        write_plain_datum(text, datum)
    }

    /// Writes an effect as people read it. Errors: allocation failure. Cost: linear in it.
    fn write_effect(
        _alloc: Global,
        text: &mut String,
        _sheet: &Self::Sheet,
        effect: &Datum,
    ) -> Result<(), AllocError> {
        write_plain_datum(text, effect)
    }
}
