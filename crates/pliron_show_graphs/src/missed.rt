//! What passes left as it is, and why.
ghost use Rattle.pliron_core.specs.Tree.{IsLive};

use crate::pass_list::PassList;
use pliron_core::{Contents, Context, Def, Operation, Ptr, Value};
use pliron_laws::{ConstFoldInterface, SideEffects};
use pliron_pass_pipeline::PassName;
use pliron_show::{ShownNotation, push_value_name};
use pliron_show_places::{JsonObject, TextPart, TextParts, push_on_one_line};
use std::alloc::{AllocError, Global};
use std::marker::PhantomData;

/// A text whose missed rewrites are reported, with its parts and the passes that ran.
#[derive(Clone, Copy)]
pub struct MissedText<'m, S> {
    pub text: &'m [u8],
    pub parts: &'m TextParts,
    pub sheet: &'m S,
    pub list: &'m PassList,
}

/// An operation that a pass of the list would change, if so many operands were known.
#[derive(Clone, Copy)]
struct MissedKind {
    what: &'static str,
    most: usize,
    /// Whether it may trap where all of them are.
    may_trap: bool,
}

/// What is reported of what stayed.
#[derive(Drop)]
struct MissedReport<'m, N: ShownNotation> {
    alloc: Global,
    of: PhantomData<N>,
    reported: &'m MissedText<'m, N::Sheet>,
}

/// An object of JSON that says why something of the text changed or stayed: where and what it is, and the reason.
/// Errors: allocation failure. Cost: linear in what is written.
pub(crate) fn reason_object(
    alloc: Global,
    text: &[u8],
    part: TextPart,
    subject: &str,
    reason: &str,
) -> Result<JsonObject, AllocError> {
    let mut object = JsonObject::new(alloc);
    object.part(text, part)?;
    object.words("subject", subject)?;
    object.words("reason", reason)?;
    Ok(object)
}

// Whether an operation makes the value as a constant.
fn is_constant<N: ShownNotation>(
    alloc: Global,
    ctx: &Context,
    value: Value,
    sheet: &N::Sheet,
) -> Result<bool, AllocError> {
    if !value.is_live(ctx) {
        return Ok(false);
    }
    match value.def(ctx) {
        Def::Result(op, _) => Ok(N::constant(alloc, op, sheet, ctx)?.is_some()),
        Def::Argument(_, _) => Ok(false),
    }
}

// The first operand that no operation makes as a constant, among the first so many.
fn unknown_operand<N: ShownNotation>(
    alloc: Global,
    ctx: &Context,
    op: Ptr<Operation>,
    most: usize,
    sheet: &N::Sheet,
) -> Result<Option<usize>, AllocError>
    requires { IsLive ctx.now.tree op }
{
    for index in 0..op.num_operand(ctx).min(most) {
        if !is_constant::<N>(alloc, ctx, op.get_operand(ctx, index), sheet)? {
            return Ok(Some(index));
        }
    }
    Ok(None)
}

// Whether the operation is one of several ways.
fn is_fork(ctx: &Context, op: Ptr<Operation>) -> bool
    requires { IsLive ctx.now.tree op }
{
    op.num_successor(ctx) > 1
}

// Whether the operation may have side effects, as the dialect says.
fn has_effects<N: ShownNotation>(ctx: &Context, op: Ptr<Operation>) -> bool
    requires { IsLive ctx.now.tree op }
{
    N::D::has_side_effects(op, ctx) == Some(true)
}

// Whether something uses a result of the operation.
fn is_used(ctx: &Context, op: Ptr<Operation>) -> bool
    requires { IsLive ctx.now.tree op }
{
    for index in 0..op.num_result(ctx) {
        let value = op.get_result(ctx, index);
        if value.num_use(ctx) > 0 {
            return true;
        }
    }
    false
}

impl<N: ShownNotation> MissedReport<'_, N> {
    // Whether the list has the pass.
    fn has(&self, pass: PassName) -> bool {
        self.reported.list.passes.iter().any(|other| *other == pass)
    }

    // Adds that the operand isn't known.
    fn push_unknown(
        &self,
        ctx: &Context,
        op: Ptr<Operation>,
        index: usize,
        why: &mut String,
    ) -> Result<(), AllocError>
        requires { IsLive ctx.now.tree op }
    {
        let number = index.saturating_add(1);
        write!(why, "its operand {number}")?;
        if index < op.num_operand(ctx) {
            let operand = op.get_operand(ctx, index).key();
            let mut name = String::new(self.alloc);
            if push_value_name(&mut name, self.reported.text, self.reported.parts, operand)? {
                write!(why, ", {name},")?;
            }
        }
        why.push_str(" isn't known")
    }

    // Of which operations what is reported, and how many operands have to be known: what folds, and what goes one of
    // several ways; `None` where no pass of the list changes the operation.
    fn subject(&self, ctx: &Context, op: Ptr<Operation>) -> Result<Option<MissedKind>, AllocError>
        requires { IsLive ctx.now.tree op }
    {
        if is_fork(ctx, op) {
            return Ok(if self.has(PassName::SimplifyCfg) {
                Some(MissedKind {
                    what: "goes either way: ",
                    most: 1,
                    may_trap: false,
                })
            } else {
                None
            });
        }
        let computes = N::D::folds(op, ctx)
            && N::constant(self.alloc, op, self.reported.sheet, ctx)?.is_none();
        if !computes || !self.has(PassName::Sccp) {
            return Ok(None);
        }
        Ok(Some(MissedKind {
            what: "not folded: ",
            most: op.num_operand(ctx),
            may_trap: has_effects::<N>(ctx, op),
        }))
    }

    // Why no result of the operation was replaced by a constant, or its branch stayed; empty where nothing was missed.
    fn why_not_folded(&self, ctx: &Context, op: Ptr<Operation>) -> Result<String, AllocError>
        requires { IsLive ctx.now.tree op }
    {
        let mut why = String::new(self.alloc);
        let Some(kind) = self.subject(ctx, op)? else {
            return Ok(why);
        };
        match unknown_operand::<N>(self.alloc, ctx, op, kind.most, self.reported.sheet)? {
            Some(index) => {
                why.push_str(kind.what)?;
                self.push_unknown(ctx, op, index, &mut why)?;
            }
            None if kind.may_trap => {
                why.push_str("not folded: it traps, or its block isn't reached")?;
            }
            None => {}
        }
        Ok(why)
    }

    // Why the operation stays though nothing uses it; empty where it is used, or has no result.
    fn why_not_erased(&self, ctx: &Context, op: Ptr<Operation>) -> Result<String, AllocError>
        requires { IsLive ctx.now.tree op }
    {
        let mut why = String::new(self.alloc);
        let is_unused = op.num_result(ctx) > 0 && !is_used(ctx, op);
        if self.has(PassName::Dce) && is_unused && has_effects::<N>(ctx, op) {
            let word = N::word(op, self.reported.sheet, ctx).unwrap_or("_");
            write!(
                why,
                "stays, though nothing uses it: a {word} has side effects"
            )?;
        }
        Ok(why)
    }

    // Adds a line for an operation of which something is reported.
    fn push_line(
        &self,
        op: Ptr<Operation>,
        why: &str,
        pass: &str,
        lines: &mut String,
    ) -> Result<(), AllocError> {
        let Some(part) = self.reported.parts.operation_part(op.key()) else {
            return Ok(());
        };
        if why.is_empty() {
            return Ok(());
        }
        if self.reported.list.is_json {
            return self.push_object(part, why, pass, lines);
        }
        write!(lines, "{}:{} ", part.line, part.column)?;
        push_on_one_line(lines, part.of(self.reported.text))?;
        write!(lines, ": {why} (missed by {pass})\n")
    }

    // Adds an object of JSON for it.
    fn push_object(
        &self,
        part: TextPart,
        why: &str,
        pass: &str,
        lines: &mut String,
    ) -> Result<(), AllocError> {
        let mut subject = String::new(self.alloc);
        push_on_one_line(&mut subject, part.of(self.reported.text))?;
        let mut object = reason_object(
            self.alloc,
            self.reported.text,
            part,
            subject.as_str(),
            why,
        )?;
        object.words("pass", pass)?;
        object.value("missed", "true")?;
        object.write_line(lines)
    }

    // Adds what was missed of an operation.
    fn push(&self, ctx: &Context, op: Ptr<Operation>, lines: &mut String) -> Result<(), AllocError>
        requires { IsLive ctx.now.tree op }
    {
        let folding = if is_fork(ctx, op) {
            "simplify-cfg"
        } else {
            "sccp"
        };
        let why = self.why_not_folded(ctx, op)?;
        self.push_line(op, why.as_str(), folding, lines)?;
        let why = self.why_not_erased(ctx, op)?;
        self.push_line(op, why.as_str(), "dce", lines)
    }
}

/// Adds a line with place and reason for each operation of the text inside the root that the list's passes left alone
/// though they change operations of its kind; nothing where the root isn't live. Errors: allocation failure. Cost:
/// linear in what is live.
pub fn push_missed<N: ShownNotation>(
    alloc: Global,
    reported: &MissedText<N::Sheet>,
    root: Ptr<Operation>,
    ctx: &Context,
    lines: &mut String,
) -> Result<(), AllocError> {
    if !root.is_live(ctx) {
        return Ok(());
    }
    let missed = MissedReport::<N> {
        alloc,
        of: PhantomData,
        reported,
    };
    for op in Contents::new(root, ctx) {
        if op.is_live(ctx) {
            missed.push(ctx, op, lines)?;
        }
    }
    Ok(())
}
