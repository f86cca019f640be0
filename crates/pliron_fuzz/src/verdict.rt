//! What came of a text.
ghost use Rattle.std.specs.Prelude.{◌≡◌, IfOk, IsOkUnless};

use crate::answer::{Answer, answer_to};
use crate::calls::{Call, is_right};
use crate::runs::runs_are_kept;
use crate::settled::{is_settled, is_simple_after};
use crate::texts::is_printed;
use crate::{FuzzSubject, Kind};
use pliron_laws::OptError;
use std::alloc::Global;
use thiserror::Error;

/// What an answer shows that it shouldn't.
#[derive(Clone, Copy, Debug, Drop, PartialEq, Eq, Error)]
pub enum AnswerFault {
    #[error("a text of the notation is unreadable")]
    Unreadable,
    #[error("a text that is well defined is refused")]
    Refused,
    #[error("the program ends with status {0}")]
    Ends(u8),
    #[error("the answer isn't a line and a status")]
    Form,
    #[error("the answer isn't printed as it is read")]
    NotAsRead,
    #[error("the status doesn't tell truly whether the text changed")]
    Untrue,
    #[error("dead code is left")]
    Dead,
    #[error("an unreachable block or a pair to merge is left")]
    Blocks,
    #[error("a run isn't as before")]
    Run,
    #[error("common subexpression elimination leaves some, or changes a run")]
    Subexpressions,
    #[error("canonicalization leaves something that folds, or changes a run")]
    Folds,
    #[error("a rule is left that applies, or the rules change a run")]
    Rules,
    #[error("an edge is left that leads to a block that only jumps, or a run changes where edges move")]
    Edges,
}

/// What came of a text.
#[derive(Clone, Copy, Debug, Drop, PartialEq, Eq)]
pub enum Verdict {
    /// It is outside the notation.
    Unreadable,
    /// It was refused, for a value of an unreachable block that is used.
    Refused,
    /// All that was asked for holds.
    Kept,
    Found(AnswerFault),
}

// Whether the status is true. A list of one pass never makes again what it took away, so that it changed
// the tree is seen in the text.
fn reports_truly(list: &str, is_same: bool, is_changed: bool) -> bool {
    let is_one_pass = !list.contains(',');
    if is_one_pass {
        is_changed != is_same
    } else {
        is_changed || is_same
    }
}

// What is wrong with the line that is answered, and what it says of change.
fn fault_of_line(
    alloc: Global,
    subject: &FuzzSubject,
    line: &str,
    is_changed: bool,
) -> Result<Option<AnswerFault>, OptError>
    ensures { IsOkUnless result OptError.Memory }
{
    if !is_printed(alloc, line, line)? {
        return Ok(Some(AnswerFault::NotAsRead));
    }
    let is_same = is_printed(alloc, &subject.text, line)?;
    if !reports_truly(&subject.list, is_same, is_changed) {
        return Ok(Some(AnswerFault::Untrue));
    }
    Ok(None)
}

// What is wrong with what calls leave of the text, and of the line, for which the program has no words.
fn fault_of_calls(
    alloc: Global,
    subject: &FuzzSubject,
    line: &str,
) -> Result<Option<AnswerFault>, OptError>
    ensures { IsOkUnless result OptError.Memory }
{
    let is_defined = subject.kind == Kind::Defined;
    if !is_right(alloc, Call::Cse, &subject.text, is_defined)?
        || !is_right(alloc, Call::Cse, line, is_defined)?
    {
        return Ok(Some(AnswerFault::Subexpressions));
    }
    if !is_right(alloc, Call::Canonicalize, &subject.text, is_defined)?
        || !is_right(alloc, Call::Canonicalize, line, is_defined)?
    {
        return Ok(Some(AnswerFault::Folds));
    }
    if !is_right(alloc, Call::Combine, &subject.text, is_defined)?
        || !is_right(alloc, Call::Combine, line, is_defined)?
    {
        return Ok(Some(AnswerFault::Rules));
    }
    if !is_right(alloc, Call::ThreadEdges, &subject.text, is_defined)?
        || !is_right(alloc, Call::ThreadEdges, line, is_defined)?
    {
        return Ok(Some(AnswerFault::Edges));
    }
    Ok(None)
}

// What is wrong with what the passes leave of the text, which is the line.
fn fault_of_passes(
    alloc: Global,
    subject: &FuzzSubject,
    line: &str,
) -> Result<Option<AnswerFault>, OptError>
    ensures { IsOkUnless result OptError.Memory }
{
    if !is_settled(alloc, "dce", "dce", line)? {
        return Ok(Some(AnswerFault::Dead));
    }
    if !is_settled(alloc, "repeat:64:simplify-cfg", "simplify-cfg", line)?
        || !is_simple_after(alloc, &subject.text)?
    {
        return Ok(Some(AnswerFault::Blocks));
    }
    if subject.kind == Kind::Defined && !runs_are_kept(alloc, &subject.text, line)? {
        return Ok(Some(AnswerFault::Run));
    }
    fault_of_calls(alloc, subject, line)
}

// What is wrong with the answer, which is this line.
fn fault_of(
    alloc: Global,
    subject: &FuzzSubject,
    line: &str,
    is_changed: bool,
) -> Result<Option<AnswerFault>, OptError>
    ensures { IsOkUnless result OptError.Memory }
{
    match fault_of_line(alloc, subject, line, is_changed)? {
        Some(fault) => Ok(Some(fault)),
        None => fault_of_passes(alloc, subject, line),
    }
}

/// Runs the program on the subject, and asks of the answer what needs no wanted text: it is printed as it is
/// read; the status is true; a second removal of dead code changes nothing, and simplifying leaves nothing
/// to simplify; functions of a well-defined text run as before on a few inputs and worlds, as far as a few
/// moves show it. A text that isn't mangled is read, and one that is well defined isn't refused.
///
/// Errors: allocation failure. Cost: seven answers of the program, and eight runs of each function or, where a
/// few moves show too little, twelve.
pub fn judge(alloc: Global, subject: &FuzzSubject) -> Result<Verdict, OptError>
    ensures unreadable { IfOk result (λ verdict. verdict ≡ Verdict.Unreadable → subject.now.kind ≡ Kind.Mangled) }
    ensures refused { IfOk result (λ verdict. verdict ≡ Verdict.Refused → ¬ (subject.now.kind ≡ Kind.Defined)) }
    ensures memory { IsOkUnless result OptError.Memory }
{
    match answer_to(alloc, &subject.list, &subject.text)? {
        Answer::Line(line, is_changed) => match fault_of(alloc, subject, &line, is_changed)? {
            Some(fault) => Ok(Verdict::Found(fault)),
            None => Ok(Verdict::Kept),
        },
        Answer::Unreadable if subject.kind == Kind::Mangled => Ok(Verdict::Unreadable),
        Answer::Unreadable => Ok(Verdict::Found(AnswerFault::Unreadable)),
        Answer::Refused if subject.kind != Kind::Defined => Ok(Verdict::Refused),
        Answer::Refused => Ok(Verdict::Found(AnswerFault::Refused)),
        Answer::Formless => Ok(Verdict::Found(AnswerFault::Form)),
        Answer::Ended(status) => Ok(Verdict::Found(AnswerFault::Ends(status))),
    }
}
