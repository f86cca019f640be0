//! What is reported of a violation: the operand by its number and its name, where it is defined, and for an edge both
//! counts.
ghost use Rattle.std.specs.Prelude.{◌≡◌, codes, IfOk, string_bytes};
ghost use Rattle.pliron_text.specs.Beginnings.{BeginsWith};
ghost use Rattle.pliron_show_places.specs.Messages.{heading};
ghost use Rattle.pliron_show_commands.specs.Reports.{TellsRefusal};

use crate::live_use::LiveUse;
use pliron_core::{BasicBlock, Context, Def, Operation, Ptr, Region, Value};
use pliron_laws::{Dialect, OptError};
use pliron_pass_fit::Violation;
use pliron_show::{ShownNotation, push_value_name};
use pliron_show_places::{Source, SourceMark, TextPart, TextParts, TextRange, mark_source_as};
use std::alloc::{AllocError, Global};

/// Another place in the text, and what is said of it.
#[derive(Drop)]
struct Note {
    part: TextPart,
    message: String,
}

/// What is wrong, what is said under the operation, what helps, and where it comes from.
#[derive(Drop)]
struct ViolationWords {
    message: &'static str,
    label: String,
    help: &'static str,
    note: Option<Note>,
}

/// Words whose label mentions nothing that the text names.
#[derive(Clone, Copy)]
struct PlainWords {
    message: &'static str,
    label: &'static str,
    help: &'static str,
}

// What is said of a violation, whatever the text names.
fn plain_words(violation: &Violation) -> PlainWords {
    match violation {
        Violation::NotRoot => PlainWords {
            message: "runs may not begin at this operation",
            label: "no run begins here",
            help: "write a `func`",
        },
        Violation::HasSuccessors => PlainWords {
            message: "the operation that is to run has successors",
            label: "it leads out of itself",
            help: "take the successors away",
        },
        Violation::NotAdmitted(_) => PlainWords {
            message: "the dialect has no such operation",
            label: "with these operands, results, successors and regions",
            help: "count them: each kind of operation has its own numbers",
        },
        Violation::EdgeNotLast(_) => PlainWords {
            message: "an edge that doesn't end its block, or leads to another region",
            label: "this operation has successors",
            help: "let it be the last of its block, and name blocks of its own region",
        },
        Violation::ForeignValue(_, _) => PlainWords {
            message: "an operand is defined outside the operation that is to run",
            label: "is defined outside",
            help: "pass the value as an argument of the first block",
        },
        Violation::NoDominance(_) => PlainWords {
            message: "a region in which definitions need not come before uses",
            label: "this operation has such a region",
            help: "only the first block of a `mod` is entered: take one of its `func`s alone, as by `--at 0.0`",
        },
        Violation::UnequalEdge(_, _) => PlainWords {
            message: "an edge passes another number of values than its block takes",
            label: "the numbers differ here",
            help: "give each argument of the block one value",
        },
        Violation::TerminatorNotLast(_) => PlainWords {
            message: "an operation that ends a block isn't its last one",
            label: "what stands behind it is never run",
            help: "let it be the last of its block",
        },
        Violation::ResultUsed(_, _) => PlainWords {
            message: "a result of an operation with successors is used",
            label: "it has successors and a result",
            help: "pass the value along the edges",
        },
        Violation::UsedOutside(_, _) => PlainWords {
            message: "a value is used outside the operation that is to run",
            label: "is defined inside",
            help: "give the value as a result of the run",
        },
        Violation::NotDominated(_, _) => PlainWords {
            message: "an operand isn't defined on each way to this operation",
            label: "may not be defined yet when this runs",
            help: "define the value before the ways part, or pass it as an argument of a block",
        },
    }
}

/// What is said of an operand that is defined in a region that the operation isn't inside.
static INVISIBLE: PlainWords = PlainWords {
    message: "an operand isn't visible at this operation",
    label: "is defined inside another operation, and isn't visible here",
    help: "a value is visible in its own region and inside that: define it before the operation that holds it",
};

/// What is said of an operand that is a result of the same operation.
static OWN_RESULT: PlainWords = PlainWords {
    message: "an operand isn't defined on each way to this operation",
    label: "is a result of this very operation",
    help: "an operation can't take what it gives: pass the value along an edge, as an argument of a block",
};

// Whether the value is a result of the operation.
fn is_result_of(ctx: &Context, op: Ptr<Operation>, value: Value) -> bool {
    if !value.is_live(ctx) {
        return false;
    }
    match value.def(ctx) {
        Def::Result(maker, _) => maker == op,
        Def::Argument(_, _) => false,
    }
}

// What is said of a use for which passes are refused.
fn unreached_words() -> PlainWords
    ensures { result.message.now ≡ codes "refused: a value of an unreachable block is used" }
{
    PlainWords {
        message: "refused: a value of an unreachable block is used",
        label: "is defined in a block that isn't reached",
        help: "define the value in a block that is reached, or pass it as an argument of a block",
    }
}

// The operation that is wrong.
fn operation_of(violation: &Violation, root: Ptr<Operation>) -> Ptr<Operation> {
    match violation {
        Violation::NotAdmitted(op)
        | Violation::EdgeNotLast(op)
        | Violation::ForeignValue(op, _)
        | Violation::UnequalEdge(op, _)
        | Violation::TerminatorNotLast(op)
        | Violation::ResultUsed(op, _)
        | Violation::UsedOutside(op, _)
        | Violation::NotDominated(op, _) => *op,
        Violation::NotRoot | Violation::HasSuccessors | Violation::NoDominance(_) => root,
    }
}

// The region that the block is in.
fn region_around(ctx: &Context, block: Option<Ptr<BasicBlock>>) -> Option<Ptr<Region>> {
    match block {
        Some(block) if block.is_live(ctx) => block.get_parent_region(ctx),
        _ => None,
    }
}

// The region that the value is defined in.
fn region_of_value(ctx: &Context, value: Value) -> Option<Ptr<Region>> {
    if !value.is_live(ctx) {
        return None;
    }
    match value.def(ctx) {
        Def::Result(op, _) if op.is_live(ctx) => region_around(ctx, op.get_parent_block(ctx)),
        Def::Result(_, _) => None,
        Def::Argument(block, _) => region_around(ctx, Some(block)),
    }
}

// Whether the operation is, however deep, inside the region that the value is defined in.
fn is_visible(ctx: &Context, op: Ptr<Operation>, value: Value) -> bool {
    let Some(region) = region_of_value(ctx, value) else {
        return false;
    };
    let mut at = Some(op);
    for _ in 0..u64::MAX {
        let Some(inner) = at else {
            return false;
        };
        if !inner.is_live(ctx) {
            return false;
        }
        if region_around(ctx, inner.get_parent_block(ctx)) == Some(region) {
            return true;
        }
        at = inner.get_parent_op(ctx);
    }
    false
}

// The operand at this index, if there are so many.
fn operand_at(ctx: &Context, op: Ptr<Operation>, index: usize) -> Option<Value> {
    if op.is_live(ctx) && index < op.num_operand(ctx) {
        Some(op.get_operand(ctx, index))
    } else {
        None
    }
}

// What is said of an operand whose definition doesn't dominate the operation.
fn undominated_words(
    ctx: &Context,
    op: Ptr<Operation>,
    index: usize,
    plain: PlainWords,
) -> PlainWords {
    match operand_at(ctx, op, index) {
        Some(value) if is_result_of(ctx, op, value) => OWN_RESULT,
        Some(value) if !is_visible(ctx, op, value) => INVISIBLE,
        _ => plain,
    }
}

// The target of the branch's edge at this index, and how many values the edge forwards, if there is such an edge.
// Errors: allocation failure.
fn edge_of<D: Dialect>(
    alloc: Global,
    ctx: &Context,
    op: Ptr<Operation>,
    index: usize,
) -> Result<Option<(Ptr<BasicBlock>, usize)>, OptError> {
    if !op.is_live(ctx) {
        return Ok(None);
    }
    if !D::is_branch(op, ctx) {
        return Ok(None);
    }
    if index >= op.num_successor(ctx) {
        return Ok(None);
    }
    let values = D::successor_operands(alloc, op, ctx, index)?;
    Ok(Some((op.get_successor(ctx, index), values.len())))
}

// Where the text names the result of the operation at this index, if it has one.
fn result_part(
    ctx: &Context,
    parts: &TextParts,
    op: Ptr<Operation>,
    index: usize,
) -> Option<TextPart> {
    if op.is_live(ctx) && index < op.num_result(ctx) {
        Some(parts.value(op.get_result(ctx, index).key())?.part)
    } else {
        None
    }
}

// The range of the whole part. Cost: constant.
fn range_of(part: TextPart) -> TextRange {
    TextRange {
        start: part.start,
        len: part.len,
    }
}

// The range of what is inside the part; that of the part where there is none. Cost: constant.
fn range_inside(whole: TextPart, inside: Option<TextRange>) -> TextRange {
    match inside {
        Some(inside) => TextRange {
            start: whole.start.saturating_add(inside.start),
            len: inside.len,
        },
        None => range_of(whole),
    }
}

/// A text of which something is reported.
#[derive(Clone, Copy)]
pub(crate) struct ViolationText<'t> {
    pub alloc: Global,
    pub source: &'t Source<'t>,
    pub parts: &'t TextParts,
}

impl ViolationText<'_> {
    // Adds the name of the value in the text.
    fn push_value(&self, label: &mut String, value: Value) -> Result<(), AllocError> {
        let mut name = String::new(self.alloc);
        if push_value_name(&mut name, self.source.text, self.parts, value.key())? {
            write!(label, "`{name}`")
        } else {
            label.push_str("a value")
        }
    }

    // Where the value is defined in the text.
    fn definition(&self, value: Value) -> Result<Option<Note>, AllocError> {
        let Some(name) = self.parts.value(value.key()) else {
            return Ok(None);
        };
        let mut message = String::new(self.alloc);
        self.push_value(&mut message, value)?;
        message.push_str(" is defined here")?;
        Ok(Some(Note {
            part: name.part,
            message,
        }))
    }

    // The words of a violation by an operand: its number, its name, what is said of it, and where it is defined.
    fn operand_words(
        &self,
        ctx: &Context,
        op: Ptr<Operation>,
        index: usize,
        plain: PlainWords,
    ) -> Result<ViolationWords, AllocError>
        ensures { IfOk result (λ words. words.message.now ≡ plain.message.now) }
    {
        let number = index.saturating_add(1);
        let mut label = format!(in self.alloc; "operand {number}")?;
        let mut note = None;
        if let Some(value) = operand_at(ctx, op, index) {
            label.push_str(", ")?;
            self.push_value(&mut label, value)?;
            label.push_str(",")?;
            note = self.definition(value)?;
        }
        label.push_str(" ")?;
        label.push_str(plain.label)?;
        Ok(ViolationWords {
            message: plain.message,
            label,
            help: plain.help,
            note,
        })
    }

    // The words of an edge with another number of values than its block takes: both counts, and the block.
    fn edge_words<D: Dialect>(
        &self,
        ctx: &Context,
        op: Ptr<Operation>,
        index: usize,
        plain: PlainWords,
    ) -> Result<ViolationWords, OptError> {
        let Some((block, passed)) = edge_of::<D>(self.alloc, ctx, op, index)? else {
            return Ok(self.words_without_names(plain)?);
        };
        if !block.is_live(ctx) {
            return Ok(self.words_without_names(plain)?);
        }
        let (number, taken) = (index.saturating_add(1), block.num_argument(ctx));
        let label = format!(in self.alloc;
            "edge {number} passes {passed}, and its block takes {taken}"
        )?;
        let note = match self.parts.block_part(block.key()) {
            Some(part) => Some(Note {
                part,
                message: format!(in self.alloc; "this block takes {taken}")?,
            }),
            None => None,
        };
        Ok(ViolationWords {
            message: plain.message,
            label,
            help: plain.help,
            note,
        })
    }

    // The words where the text names nothing.
    fn words_without_names(&self, plain: PlainWords) -> Result<ViolationWords, AllocError> {
        Ok(ViolationWords {
            message: plain.message,
            label: String::from_str(self.alloc, plain.label)?,
            help: plain.help,
            note: None,
        })
    }

    // What is said of a violation.
    fn words<D: Dialect>(
        &self,
        ctx: &Context,
        violation: &Violation,
    ) -> Result<ViolationWords, OptError> {
        let plain = plain_words(violation);
        Ok(match violation {
            Violation::NotDominated(op, index) => {
                self.operand_words(ctx, *op, *index, undominated_words(ctx, *op, *index, plain))?
            }
            Violation::ForeignValue(op, index) | Violation::UsedOutside(op, index) => {
                self.operand_words(ctx, *op, *index, plain)?
            }
            Violation::UnequalEdge(op, index) => self.edge_words::<D>(ctx, *op, *index, plain)?,
            _ => self.words_without_names(plain)?,
        })
    }

    // The operand of the operation at this index in the text, or else the operation.
    fn operand_mark<N: ShownNotation>(
        &self,
        op: Ptr<Operation>,
        index: usize,
    ) -> Option<TextRange> {
        let whole = self.parts.operation_part(op.key())?;
        let words = whole.of(self.source.text);
        Some(range_inside(whole, N::operand_range(words, index)))
    }

    // What is marked of a violation of this operation, if the text has it: the operand, the edge or the result that is
    // wrong, or else the whole operation.
    pub(crate) fn mark<N: ShownNotation>(
        &self,
        ctx: &Context,
        root: Ptr<Operation>,
        violation: &Violation,
    ) -> Option<TextRange> {
        let op = operation_of(violation, root);
        let whole = self.parts.operation_part(op.key())?;
        match violation {
            Violation::NotDominated(_, index)
            | Violation::ForeignValue(_, index)
            | Violation::UsedOutside(_, index) => self.operand_mark::<N>(op, *index),
            Violation::UnequalEdge(_, index) => {
                let words = whole.of(self.source.text);
                Some(range_inside(whole, N::edge_range(words, *index)))
            }
            Violation::ResultUsed(_, index) => {
                let named = result_part(ctx, self.parts, op, *index);
                Some(range_of(named.unwrap_or(whole)))
            }
            _ => Some(range_of(whole)),
        }
    }

    // Adds the note, with a mark under its part.
    fn push_note(&self, message: &mut String, note: &Note) -> Result<(), AllocError> {
        let mark = SourceMark {
            message: note.message.as_str(),
            label: "",
            name: self.source.name,
            start: note.part.start,
            len: note.part.len,
        };
        let text = mark_source_as(self.alloc, "note", self.source.text, &mark)?;
        message.push_str(text.as_str())
    }

    // What helps, and the note.
    fn help(&self, words: &ViolationWords) -> Result<String, AllocError> {
        let mut help = format!(in self.alloc; "help: {}\n", words.help)?;
        if let Some(note) = &words.note {
            self.push_note(&mut help, note)?;
        }
        Ok(help)
    }

    // The words with a mark under this part, what helps, and the note.
    #[tactic(auto, using(crate::proofs::EndingLemmas::begins_still))]
    fn message(
        &self,
        severity: &str,
        part: Option<TextRange>,
        words: &ViolationWords,
    ) -> Result<String, AllocError>
        ensures { IfOk result (λ message. BeginsWith (string_bytes message) (heading severity.now
            words.now.message.now)) }
    {
        let mark = SourceMark {
            message: words.message,
            label: words.label.as_str(),
            name: self.source.name,
            start: part.map_or(0, |part| part.start),
            len: part.map_or(0, |part| part.len),
        };
        let mut message = mark_source_as(self.alloc, severity, self.source.text, &mark)?;
        let help = self.help(words)?;
        message.push_str(help.as_str())?;
        Ok(message)
    }

    /// The message for a violation of this operation: this word for the severity, what is wrong with a mark under it,
    /// what helps, and where the operand is defined or the block begins.
    ///
    /// Errors: allocation failure. Cost: linear in the text, and the depth of the operation.
    pub(crate) fn violation<N: ShownNotation>(
        &self,
        severity: &str,
        root: Ptr<Operation>,
        violation: &Violation,
        ctx: &Context,
    ) -> Result<String, OptError> {
        let words = self.words::<N::D>(ctx, violation)?;
        let part = self.mark::<N>(ctx, root, violation);
        Ok(self.message(severity, part, &words)?)
    }
}

/// The message for a violation of an operation that was read from the text into an empty context: this word for the
/// severity, what is wrong with a mark under it, what helps, and where the operand is defined or the block begins.
///
/// Errors: allocation failure. Cost: linear in the text, and the depth of the operation.
pub fn violation_message<N: ShownNotation>(
    alloc: Global,
    severity: &str,
    source: &Source,
    root: Ptr<Operation>,
    violation: &Violation,
    ctx: &Context,
) -> Result<String, OptError> {
    let parts = N::parts(alloc, source.text)?;
    let text = ViolationText {
        alloc,
        source,
        parts: &parts,
    };
    text.violation::<N>(severity, root, violation, ctx)
}

/// The message for a use for which passes are refused on an operation that was read from the text into an empty
/// context: the operand of the user with a mark under it, and where the value is defined; for a user that a pass made, which no text
/// has, the definition alone.
///
/// Errors: allocation failure. Cost: linear in the text.
pub(crate) fn live_use_message<N: ShownNotation>(
    alloc: Global,
    source: &Source,
    found: &LiveUse,
    ctx: &Context,
) -> Result<String, OptError>
    ensures { IfOk result (λ message. TellsRefusal (string_bytes message)) }
{
    let parts = N::parts(alloc, source.text)?;
    let text = ViolationText {
        alloc,
        source,
        parts: &parts,
    };
    let words = text.operand_words(ctx, found.user, found.index, unreached_words())?;
    let part = text.operand_mark::<N>(found.user, found.index);
    if part.is_some() {
        return Ok(text.message("error", part, &words)?);
    }
    let mut label = String::new(alloc);
    text.push_value(&mut label, found.value)?;
    label.push_str(
        " is defined here, where nothing leads; an operation that a pass made takes it",
    )?;
    let made = ViolationWords {
        message: words.message,
        label,
        help: words.help,
        note: None,
    };
    let part = parts
        .value(found.value.key())
        .map(|name| range_of(name.part));
    Ok(text.message("error", part, &made)?)
}
