//! What passes did to a text.
ghost use Rattle.std.specs.Prelude.{◌≡◌};
ghost use Rattle.pliron_core.specs.Tree.{IsLive};
ghost use Rattle.pliron_core.specs.Writes.{no_tree};
ghost use Rattle.pliron_laws.specs.Linked.{IsWellLinked};

use crate::missed::{MissedText, push_missed, reason_object};
use crate::pass_list::PassList;
use crate::reasons::{Reason, Reasons, Rewrite};
use crate::tree_state::{TreeState, tree_state};
use pliron_core::{Children, Context, IRRewriter, IRStatus, Operation, Ptr};
use pliron_dialect_edges::BranchesAtOnce;
use pliron_laws::{Dialect, OptError, is_well_linked};
use pliron_opt_canonicalize::canonicalize;
use pliron_opt_cfg::{fold_branches, merge_inside_op, remove_blocks_inside_op};
use pliron_opt_combine::combine;
use pliron_opt_cse::cse;
use pliron_opt_dce::dce;
use pliron_opt_edges::thread_edges;
use pliron_opt_sccp::sccp;
use pliron_pass_pipeline::{PassName, max_rewrites};
use pliron_rewrite_rules::Rules;
use pliron_show::{ShownNotation, read_shown};
use pliron_show_places::{JsonObject, TextParts};
use std::alloc::{AllocError, Global};
use std::marker::PhantomData;

// The rewrites of a pass, in turn.
fn rewrites_of(pass: PassName) -> &'static [Rewrite] {
    match pass {
        PassName::Sccp => &[Rewrite::Constants],
        PassName::Dce => &[Rewrite::DeadCode],
        PassName::SimplifyCfg => &[Rewrite::Branches, Rewrite::Unreachable, Rewrite::Joining],
        PassName::Cse => &[Rewrite::Subexpressions],
        PassName::Canonicalize => &[Rewrite::Canonicalization],
        PassName::Combine => &[Rewrite::Combination],
        PassName::ThreadEdges => &[Rewrite::EdgeThreading],
    }
}

// The name of a pass.
fn name_of(pass: PassName) -> &'static str {
    match pass {
        PassName::Sccp => "sccp",
        PassName::Dce => "dce",
        PassName::SimplifyCfg => "simplify-cfg",
        PassName::Cse => "cse",
        PassName::Canonicalize => "canonicalize",
        PassName::Combine => "combine",
        PassName::ThreadEdges => "thread-edges",
    }
}

// Makes one rewrite of a pass, by the call that the pass makes. Errors: those of that call.
fn make_rewrite<D: Dialect + BranchesAtOnce, L: Rules<D>>(
    alloc: Global,
    rewrite: Rewrite,
    op: Ptr<Operation>,
    ctx: &mut Context,
) -> Result<IRStatus, OptError>
    requires live { IsLive ctx.old.tree op }
    requires linked { IsWellLinked D.meaning ctx.old.tree op }
{
    let mut rewriter = IRRewriter::new();
    match rewrite {
        Rewrite::Constants => sccp::<D>(alloc, op, ctx),
        Rewrite::DeadCode => dce::<D>(alloc, op, ctx),
        Rewrite::Branches => fold_branches::<D, IRRewriter>(alloc, op, ctx, &mut rewriter),
        Rewrite::Unreachable => {
            remove_blocks_inside_op::<D, IRRewriter>(alloc, op, ctx, &mut rewriter)
        }
        Rewrite::Joining => merge_inside_op::<D, IRRewriter>(alloc, op, ctx, &mut rewriter),
        Rewrite::Subexpressions => cse::<D>(alloc, op, ctx),
        Rewrite::Canonicalization => canonicalize::<D>(alloc, op, ctx),
        Rewrite::Combination => {
            let limit = max_rewrites(op, ctx);
            let combined = combine::<D, L>(alloc, op, limit, ctx)?;
            Ok(if combined.count == 0 {
                IRStatus::Unchanged
            } else {
                IRStatus::Changed
            })
        }
        Rewrite::EdgeThreading => thread_edges::<D>(alloc, op, ctx),
    }
}

/// A text that is explained.
#[derive(Drop)]
struct Explaining<'e, N: ShownNotation> {
    alloc: Global,
    of: PhantomData<N>,
    text: &'e [u8],
    words: &'e TextParts,
    sheet: &'e N::Sheet,
    /// Whether the list may be run more than once.
    counts_runs: bool,
    /// The run of the list, counted from 1.
    run: usize,
    /// Whether each line is an object of JSON.
    is_json: bool,
    lines: String,
}

impl<N: ShownNotation> Explaining<'_, N> {
    // Writes a line for each reason.
    fn push_reasons(&mut self, pass: PassName, reasons: &Reasons<N>) -> Result<(), AllocError> {
        for reason in &reasons.reasons {
            if self.is_json {
                self.push_object(pass, reason)?;
            } else {
                self.push_line(pass, reason)?;
            }
        }
        Ok(())
    }

    // Writes a line for the reason.
    fn push_line(&mut self, pass: PassName, reason: &Reason) -> Result<(), AllocError> {
        let name = name_of(pass);
        write!(
            self.lines,
            "{}:{} {}: {} ({name}",
            reason.part.line, reason.part.column, reason.subject, reason.why
        )?;
        if self.counts_runs {
            write!(self.lines, ", run {}", self.run)?;
        }
        self.lines.push_str(")\n")
    }

    // Writes an object of JSON for the reason.
    fn push_object(&mut self, pass: PassName, reason: &Reason) -> Result<(), AllocError> {
        let mut object = reason_object(
            self.alloc,
            self.text,
            reason.part,
            reason.subject.as_str(),
            reason.why.as_str(),
        )?;
        object.words("pass", name_of(pass))?;
        if self.counts_runs {
            object.number("run", self.run)?;
        }
        object.write_line(&mut self.lines)
    }

    // Writes that the last of so many runs, as many as are allowed, still changed something.
    fn push_unfinished(&mut self, runs: usize) -> Result<(), AllocError> {
        if self.is_json {
            let mut object = JsonObject::new(self.alloc);
            object.number("unfinished", runs)?;
            return object.write_line(&mut self.lines);
        }
        write!(
            self.lines,
            "after {runs} runs, as many as it may, the list still changed something\n"
        )
    }

    // Makes one rewrite of a pass, where the operation is live and well linked, and reports what changed.
    fn rewrite(
        &mut self,
        pass: PassName,
        rewrite: Rewrite,
        op: Ptr<Operation>,
        ctx: &mut Context,
    ) -> Result<IRStatus, OptError> {
        if !op.is_live(ctx) || !is_well_linked::<N::D>(op, ctx) {
            return Ok(IRStatus::Unchanged);
        }
        let before = tree_state(self.alloc, op, ctx)?;
        let status = make_rewrite::<N::D, N::Rules>(self.alloc, rewrite, op, ctx)?;
        if status == IRStatus::Changed {
            self.accept(pass, rewrite, &before, ctx)?;
        }
        Ok(status)
    }

    // Reports what changed since this state.
    fn accept(
        &mut self,
        pass: PassName,
        rewrite: Rewrite,
        before: &TreeState,
        ctx: &Context,
    ) -> Result<(), AllocError> {
        let mut reasons = Reasons::<N>::new(self.alloc, self.text, self.words, self.sheet, rewrite);
        reasons.compare(ctx, before)?;
        self.push_reasons(pass, &reasons)
    }

    // Runs the passes on an operation, and reports what changed.
    fn pass_on(
        &mut self,
        passes: &[PassName],
        op: Ptr<Operation>,
        ctx: &mut Context,
    ) -> Result<IRStatus, OptError> {
        let mut status = IRStatus::Unchanged;
        for pass in passes {
            for rewrite in rewrites_of(*pass) {
                status |= self.rewrite(*pass, *rewrite, op, ctx)?;
            }
        }
        Ok(status)
    }

    // Runs the list once on these operations, and reports what changed.
    fn pass_on_all(
        &mut self,
        passes: &[PassName],
        operations: &[Ptr<Operation>],
        ctx: &mut Context,
    ) -> Result<IRStatus, OptError> {
        let mut status = IRStatus::Unchanged;
        for op in operations {
            status |= self.pass_on(passes, *op, ctx)?;
        }
        Ok(status)
    }

    // Runs the list on these operations as often as it says. Reports what changed, and whether the last run allowed
    // still changed something.
    fn list(
        &mut self,
        list: &PassList,
        operations: &[Ptr<Operation>],
        ctx: &mut Context,
    ) -> Result<(), OptError> {
        for _ in 0..list.runs {
            self.run = self.run.saturating_add(1);
            let status = self.pass_on_all(&list.passes, operations, ctx)?;
            if status == IRStatus::Unchanged {
                return Ok(());
            }
        }
        if self.counts_runs {
            self.push_unfinished(list.runs)?;
        }
        Ok(())
    }
}

// The operations that a list is run on: the operation itself, or the operations directly inside it.
fn subjects(
    alloc: Global,
    list: &PassList,
    root: Ptr<Operation>,
    ctx: &Context,
) -> Result<Vec<Ptr<Operation>>, AllocError>
    requires { IsLive ctx.now.tree root }
{
    let mut operations = Vec::new(alloc);
    if list.is_nested {
        for op in Children::new(root, ctx) {
            operations.push(op)?;
        }
    } else {
        operations.push(root)?;
    }
    Ok(operations)
}

// What the list did to the text, in this empty context; `None` for an unreadable text.
fn explain_in<N: ShownNotation>(
    alloc: Global,
    text: &[u8],
    list: &PassList,
    ctx: &mut Context,
) -> Result<Option<String>, OptError>
    requires { ctx.old.tree ≡ no_tree }
{
    let Some(document) = read_shown::<N>(alloc, text, ctx)? else {
        return Ok(None);
    };
    let words = N::parts(alloc, text)?;
    let operations = subjects(alloc, list, document.root, ctx)?;
    let mut explaining = Explaining::<N> {
        alloc,
        of: PhantomData,
        text,
        words: &words,
        sheet: &document.sheet,
        counts_runs: list.runs > 1,
        run: 0,
        is_json: list.is_json,
        lines: String::new(alloc),
    };
    explaining.list(list, &operations, ctx)?;
    let mut lines = explaining.lines;
    if list.reports_missed {
        push_missed::<N>(
            alloc,
            &MissedText {
                text,
                parts: &words,
                sheet: &document.sheet,
                list,
            },
            document.root,
            ctx,
            &mut lines,
        )?;
    }
    Ok(Some(lines))
}

/// What these passes changed in a text: a line or an object with place and reason for each operation and argument that changed or
/// was erased; where the list asks for missed operations, also for each that the passes left alone though they change
/// operations of its kind. `None` for an unreadable text.
///
/// Each pass is made of its own calls, the tree before each call is compared with the tree after it, and the reason is
/// what that call does. Errors: allocation failure, and those of the passes. Cost: reading, and for each pass its own
/// cost and a step for all that is live.
pub fn explain_changes<N: ShownNotation>(
    alloc: Global,
    text: &[u8],
    list: &PassList,
) -> Result<Option<String>, OptError> {
    let mut ctx = Context::new(alloc);
    explain_in::<N>(alloc, text, list, &mut ctx)
}
