//! Passes that are run one by one, and what is reported between them.
ghost use Rattle.std.specs.Prelude.{◌≡◌};
ghost use Rattle.pliron_core.specs.Tree.{IsLive};
ghost use Rattle.pliron_core.specs.Writes.{no_tree};

use crate::line_diff::changed_lines;
use crate::names::{OperandsBefore, TextNames, operands_before};
use crate::subjects::{Subject, subjects_of};
use crate::written_changes::write_changes;
use pliron_core::{Context, IRStatus, Operation, Ptr};
use pliron_driver::Document;
use pliron_driver_instrument::PipelineText;
use pliron_laws::{OptError, is_well_linked};
use pliron_pass::{AnalysisManager, BenchFacts};
use pliron_pass_pipeline::{PassStep, run_pipeline};
use pliron_show::{DefinitionOrder, ShownNotation, read_shown};
use std::alloc::{AllocError, Global};
use std::marker::PhantomData;

/// What is reported of passes that are run one by one.
#[derive(Clone, Copy)]
pub struct StageOptions<'w> {
    /// Whether each operation of a tree that is reported is on a line of its own.
    pub is_pretty: bool,
    /// Whether values and blocks keep the names of the text.
    pub keeps_names: bool,
    /// The names of passes before and after which the operation is printed, and whether it is printed after each.
    pub prints_before: &'w [&'w str],
    pub prints_after: &'w [&'w str],
    pub prints_all: bool,
    /// Whether the lines that each run changed are reported, and whether in colours.
    pub reports_changes: bool,
    pub is_coloured: bool,
}

/// What is reported of the passes, and the operation after them.
#[derive(Drop)]
pub struct StageReport {
    pub report: String,
    /// The operation as it is written with the names of the text, where the options ask for these and no pass was
    /// refused.
    pub named: Option<String>,
}

/// Passes that are run one by one on the operation of a text.
#[derive(Drop)]
struct Stages<'s, N: ShownNotation> {
    alloc: Global,
    of: PhantomData<N>,
    options: &'s StageOptions<'s>,
    /// The text's operation, or the one that is printed.
    document: Document<N::Sheet>,
    names: TextNames<'s>,
    analyses: AnalysisManager<BenchFacts>,
    /// How many runs of passes began.
    number: usize,
    report: String,
}

/// What is known of an operation before a run.
#[derive(Drop)]
struct StateBefore {
    operands: Vec<OperandsBefore>,
    /// Its lines, where changes are reported.
    lines: Option<String>,
}

// Whether the name is one of these.
fn is_among(name: &str, names: &[&str]) -> bool {
    names.iter().any(|other| *other == name)
}

// Whether the tree changed, in a word.
fn status_word(status: IRStatus) -> &'static str {
    match status {
        IRStatus::Changed => ": changed",
        IRStatus::Unchanged => ": unchanged",
    }
}

// The bytes that a notation prints, as a text.
fn text_of(alloc: Global, printed: &[u8]) -> Result<String, AllocError> {
    String::from_str(alloc, std::str::from_utf8(printed).unwrap_or(""))
}

impl<N: ShownNotation> Stages<'_, N> {
    // The operation as it is written on one line. Asks that it is live.
    fn print(&mut self, op: Ptr<Operation>, ctx: &Context) -> Result<String, OptError>
        requires { IsLive ctx.now.tree op }
    {
        self.document.root = op;
        let printed = if self.options.keeps_names {
            N::print_named(self.alloc, &self.document, &self.names, ctx)?
        } else {
            N::print_document(self.alloc, &self.document, ctx)?
        };
        Ok(text_of(self.alloc, &printed)?)
    }

    // The same over several lines.
    fn print_lines(&mut self, op: Ptr<Operation>, ctx: &Context) -> Result<String, OptError>
        requires { IsLive ctx.now.tree op }
    {
        let printed = self.print(op, ctx)?;
        let laid = N::on_lines(self.alloc, printed.as_bytes())?;
        Ok(text_of(self.alloc, &laid)?)
    }

    // Adds the operation as the options ask for it, and an end of a line.
    fn push_tree(&mut self, op: Ptr<Operation>, ctx: &Context) -> Result<(), OptError>
        requires { IsLive ctx.now.tree op }
    {
        let text = if self.options.is_pretty {
            self.print_lines(op, ctx)?
        } else {
            self.print(op, ctx)?
        };
        self.report.push_str(text.as_str())?;
        Ok(
            self.report
                .push_str(if text.ends_with('\n') { "" } else { "\n" })?,
        )
    }

    // Writes the number of the run, the pass and the operation.
    fn push_head(
        &mut self,
        when: &str,
        name: &str,
        subject: &Subject,
        status: &str,
    ) -> Result<(), AllocError> {
        write!(self.report, "--- run {}, {when} {name}", self.number)?;
        if let Some(number) = subject.number {
            write!(self.report, " at 0.{number}")?;
        }
        write!(self.report, "{status}\n")
    }

    // Prints the operation before a run, where the options ask for it.
    fn report_before(
        &mut self,
        name: &str,
        subject: &Subject,
        ctx: &Context,
    ) -> Result<(), OptError>
        requires { IsLive ctx.now.tree subject.now.op }
    {
        let op = subject.op;
        if !is_among(name, self.options.prints_before) {
            return Ok(());
        }
        self.push_head("before", name, subject, "")?;
        self.push_tree(op, ctx)
    }

    // Prints the operation after a run, where the options ask for it.
    fn report_after(
        &mut self,
        name: &str,
        subject: &Subject,
        status: IRStatus,
        ctx: &Context,
    ) -> Result<(), OptError>
        requires { IsLive ctx.now.tree subject.now.op }
    {
        let op = subject.op;
        if !self.options.prints_all && !is_among(name, self.options.prints_after) {
            return Ok(());
        }
        self.push_head("after", name, subject, status_word(status))?;
        self.push_tree(op, ctx)
    }

    // Reports which lines a run changed, where it changed something: `before` has the lines before it.
    fn report_changes(
        &mut self,
        name: &str,
        subject: &Subject,
        status: IRStatus,
        before: &StateBefore,
        ctx: &Context,
    ) -> Result<(), OptError>
        requires { IsLive ctx.now.tree subject.now.op }
    {
        let Some(lines) = &before.lines else {
            return Ok(());
        };
        if status == IRStatus::Unchanged {
            return Ok(());
        }
        let after = self.print_lines(subject.op, ctx)?;
        self.push_head("changed by", name, subject, "")?;
        let changes = changed_lines(self.alloc, lines.as_str(), after.as_str())?;
        Ok(write_changes(&mut self.report, &changes, self.options.is_coloured)?)
    }

    // What has to be known before a run: the operands, where names are kept, and the lines, where changes are reported.
    fn state_before(&mut self, op: Ptr<Operation>, ctx: &Context) -> Result<StateBefore, OptError>
        requires { IsLive ctx.now.tree op }
    {
        let operands = if self.options.keeps_names {
            operands_before(self.alloc, op, ctx)?
        } else {
            Vec::new(self.alloc)
        };
        let lines = if self.options.reports_changes {
            Some(self.print_lines(op, ctx)?)
        } else {
            None
        };
        Ok(StateBefore { operands, lines })
    }

    // Names what the last run made.
    fn name_new(
        &mut self,
        op: Ptr<Operation>,
        ctx: &Context,
        before: &StateBefore,
    ) -> Result<(), OptError> {
        if !self.options.keeps_names {
            return Ok(());
        }
        let order = DefinitionOrder::of::<N>(self.alloc, op, ctx)?;
        Ok(self.names.extend(ctx, &before.operands, &order)?)
    }

    // Runs one pass on an operation, where that is live and well linked.
    fn stage(
        &mut self,
        name: &str,
        subject: &Subject,
        ctx: &mut Context,
    ) -> Result<IRStatus, OptError> {
        let op = subject.op;
        let alloc = self.alloc;
        let Some(mut step) = PassStep::<N::D, BenchFacts, N::Rules>::from_name(name) else {
            return Ok(IRStatus::Unchanged);
        };
        if !op.is_live(ctx) || !is_well_linked::<N::D>(op, ctx) {
            return Ok(IRStatus::Unchanged);
        }
        self.number = self.number.saturating_add(1);
        self.report_before(name, subject, ctx)?;
        let before = self.state_before(op, ctx)?;
        let status = run_pipeline(&mut step, alloc, op, ctx, &mut self.analyses)?;
        self.name_new(op, ctx, &before)?;
        self.report_after(name, subject, status, ctx)?;
        self.report_changes(name, subject, status, &before, ctx)?;
        Ok(status)
    }

    // Runs the passes in turn on each of the operations.
    fn run_once(
        &mut self,
        plan: &PipelineText,
        subjects: &[Subject],
        ctx: &mut Context,
    ) -> Result<IRStatus, OptError> {
        let mut status = IRStatus::Unchanged;
        for subject in subjects {
            for name in &plan.names {
                status |= self.stage(*name, subject, ctx)?;
            }
        }
        Ok(status)
    }

    // Runs the passes that the plan asks for, as often as it does.
    fn run(
        &mut self,
        plan: &PipelineText,
        root: Ptr<Operation>,
        ctx: &mut Context,
    ) -> Result<(), OptError>
        requires { IsLive ctx.old.tree root }
    {
        let subjects = subjects_of(self.alloc, plan.nested, root, ctx)?;
        for _ in 0..plan.runs.unwrap_or(1) {
            if self.run_once(plan, &subjects, ctx)? == IRStatus::Unchanged {
                break;
            }
        }
        Ok(())
    }

    // The operation with the names of the text, where the options ask for them.
    fn named_text(
        &mut self,
        root: Ptr<Operation>,
        ctx: &Context,
    ) -> Result<Option<String>, OptError> {
        if self.options.keeps_names && root.is_live(ctx) {
            Ok(Some(self.print(root, ctx)?))
        } else {
            Ok(None)
        }
    }
}

// Runs the passes on the operation that was read from the text, which has these parts.
fn stage_operation<N: ShownNotation>(
    alloc: Global,
    text: &[u8],
    plan: &PipelineText,
    options: &StageOptions,
    document: Document<N::Sheet>,
    ctx: &mut Context,
) -> Result<StageReport, OptError>
    requires { IsLive ctx.old.tree document.root }
{
    let root = document.root;
    let parts = N::parts(alloc, text)?;
    let mut stages = Stages::<N> {
        alloc,
        of: PhantomData,
        options,
        document,
        names: TextNames::new(alloc, text, &parts, N::new_names())?,
        analyses: AnalysisManager::new(alloc),
        number: 0,
        report: String::new(alloc),
    };
    let named = match stages.run(plan, root, ctx) {
        Ok(()) => stages.named_text(root, ctx)?,
        Err(OptError::Memory) => return Err(OptError::Memory),
        Err(_) => None,
    };
    Ok(StageReport {
        report: stages.report,
        named,
    })
}

// The same for a text, in this empty context.
fn run_stages_in<N: ShownNotation>(
    alloc: Global,
    text: &[u8],
    plan: &PipelineText,
    options: &StageOptions,
    ctx: &mut Context,
) -> Result<Option<StageReport>, OptError>
    requires { ctx.old.tree ≡ no_tree }
{
    match read_shown::<N>(alloc, text, ctx)? {
        Some(document) => {
            Ok(Some(stage_operation::<N>(alloc, text, plan, options, document, ctx)?))
        }
        None => Ok(None),
    }
}

/// Runs the passes of the plan one by one on the operation of the text, and reports the trees before and after runs and
/// the lines that each run changed; `None` for an unreadable text. Where a pass is refused, what was reported before
/// stays.
///
/// Errors: allocation failure. Cost: reading, the passes, for each run that is reported or named a step for all that is
/// live, and what `changed_lines` costs.
pub fn run_stages<N: ShownNotation>(
    alloc: Global,
    text: &[u8],
    plan: &PipelineText,
    options: &StageOptions,
) -> Result<Option<StageReport>, OptError> {
    let mut ctx = Context::new(alloc);
    run_stages_in::<N>(alloc, text, plan, options, &mut ctx)
}
