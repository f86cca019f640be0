//! The command `opt`.
use crate::format::TextFormat;
use crate::input::CommandInput;
use crate::pipeline::first_passes;
use clap::ArgMatches;
use pliron_driver::without_blanks;
use pliron_show_changes::{
    StageOptions, StageReport, run_stages, write_named_answer, write_renamed_answer,
};
use pliron_show_commands::{
    InstrumentationOptions, OptOptions, Outcome, PipelineText, PlanError, Progress, ShownNotation,
    Source, opt_with_check,
};
use std::alloc::{AllocError, Global};
use std::cell::Cell;
use std::env;
use std::io::{self, IsTerminal};
use std::time::{Clock, Duration};

/// The clock of the process, which shows on standard error what ended, at most once a second.
#[derive(Clone, Copy, Drop)]
struct ProgressOnTerminal<'r> {
    rt: &'r HostRuntime,
    /// When the command began.
    start: Duration,
    /// How many seconds after that something was shown last.
    reported: &'r Cell<u64>,
}

impl Clock for ProgressOnTerminal<'_> {
    fn monotonic(&self) -> io::Result<Duration> {
        self.rt.monotonic()
    }

    fn since_1970(&self) -> io::Result<Duration> {
        self.rt.since_1970()
    }
}

impl Progress for ProgressOnTerminal<'_> {
    fn pass_ended(&self, number: usize, name: &str) {
        let Ok(now) = self.rt.monotonic() else {
            return;
        };
        let seconds = now.saturating_sub(self.start).as_secs();
        if seconds > self.reported.get() {
            self.reported.set(seconds);
            let run = number.saturating_add(1);
            let _ = eprintln!(self.rt; "after {seconds} s: run {run}, {name}");
        }
    }
}

/// What the words ask for beside the answer of the passes.
#[derive(Clone, Copy)]
struct AnswerOptions {
    /// Whether each operation of the answer is on a line of its own.
    is_pretty: bool,
    /// Whether the answer keeps the names of the text, and whether what is reported between passes does.
    names_in_answer: bool,
    names_in_trees: bool,
    /// Whether something is reported between passes.
    prints_trees: bool,
}

// Whether standard output is a terminal, and the answer is written there.
fn is_on_terminal(rt: &HostRuntime, matches: &ArgMatches) -> bool {
    let to_output = matches!(matches.get_str("output"), None | Some("-"));
    to_output && rt.stdout().is_terminal()
}

// What the words ask for beside the answer of the passes.
fn answer_options(rt: &HostRuntime, matches: &ArgMatches) -> AnswerOptions {
    let on_terminal = is_on_terminal(rt, matches);
    let numbers = matches.get_flag("number-names");
    AnswerOptions {
        is_pretty: matches.get_flag("pretty") || (on_terminal && !matches.get_flag("one-line")),
        names_in_answer: matches.get_flag("keep-names") || (on_terminal && !numbers),
        names_in_trees: !numbers,
        prints_trees: matches.get_flag("print-changed")
            || matches.get_flag("print-after-all")
            || matches.contains_id("print-after")
            || matches.contains_id("print-before"),
    }
}

// Whether standard error takes colours.
fn is_coloured(rt: &HostRuntime, matches: &ArgMatches) -> bool {
    match matches.get_str("color") {
        Some("always") => true,
        Some("never") => false,
        _ => rt.stderr().is_terminal() && env::var(rt, "NO_COLOR").is_err(),
    }
}

// The words that an option was given.
fn words<'a>(alloc: Global, matches: &ArgMatches<'a>, id: &str) -> io::Result<Vec<&'a str>> {
    let mut words = Vec::new(alloc);
    if let Some(given) = matches.get_strs(id) {
        for word in given {
            words.push(*word)?;
        }
    }
    Ok(words)
}

// Runs these passes on the text.
fn opt_instrumented<'w, N: ShownNotation>(
    rt: &HostRuntime,
    source: &Source,
    matches: &ArgMatches,
    instrumentation: InstrumentationOptions<'w>,
    pipeline: &'w str,
    is_pretty: bool,
) -> io::Result<Outcome> {
    let options = OptOptions {
        pipeline,
        is_pretty,
        instrumentation,
        times: matches.get_flag("time"),
        json: matches.get_flag("json"),
    };
    let start = rt.monotonic().unwrap_or(Duration::ZERO);
    let reported = Cell::new(0);
    let terminal = ProgressOnTerminal {
        rt,
        start,
        reported: &reported,
    };
    let is_strict = matches.get_flag("strict");
    Ok(opt_with_check::<N, _>(rt.alloc(), source, &options, is_strict, terminal)?)
}

// Runs these passes one by one, and reports what the words ask for between them; `None` for words or a text that can't
// be used.
fn stages<N: ShownNotation>(
    rt: &HostRuntime,
    text: &[u8],
    matches: &ArgMatches,
    pipeline: &str,
    answer: AnswerOptions,
) -> io::Result<Option<StageReport>> {
    let alloc = rt.alloc();
    let plan = match PipelineText::read(alloc, pipeline) {
        Ok(plan) => plan,
        Err(PlanError::Word(_)) => return Ok(None),
        Err(PlanError::Memory) => return Err(io::Error::from(AllocError)),
    };
    let before = words(alloc, matches, "print-before")?;
    let after = words(alloc, matches, "print-after")?;
    let options = StageOptions {
        is_pretty: answer.is_pretty,
        keeps_names: answer.names_in_trees,
        prints_before: &before,
        prints_after: &after,
        prints_all: matches.get_flag("print-after-all"),
        reports_changes: matches.get_flag("print-changed"),
        is_coloured: is_coloured(rt, matches),
    };
    match run_stages::<N>(alloc, text, &plan, &options) {
        Ok(staged) => Ok(staged),
        Err(_) => Err(io::Error::from(AllocError)),
    }
}

// The outcome with the reports of single passes before the rest; where asked for, the answer keeps the text's names.
fn join_stages<N: ShownNotation>(
    alloc: Global,
    whole: Outcome,
    staged: StageReport,
    answer: AnswerOptions,
    format: TextFormat,
) -> io::Result<Outcome> {
    let Outcome {
        output,
        report: reported,
        status,
    } = whole;
    let StageReport { mut report, named } = staged;
    report.push_str(reported.as_str())?;
    if status != 0 {
        return Ok(Outcome {
            output,
            report,
            status,
        });
    }
    let printed = std::str::from_utf8(&output).unwrap_or("").trim_end();
    let kept = named.as_deref();
    let kept = if answer.names_in_answer { kept } else { None };
    let written = match format {
        TextFormat::Words => write_named_answer::<N>(alloc, printed, kept, answer.is_pretty),
        TextFormat::Module => write_renamed_answer::<N>(alloc, printed, kept),
    };
    match written {
        Ok(mut output) => {
            if output.last() != Some(&b'\n') {
                output.push(b'\n')?;
            }
            Ok(Outcome {
                output,
                report,
                status: 0,
            })
        }
        Err(_) => Err(io::Error::from(AllocError)),
    }
}

// The pipeline that the words ask for, cut where they say so.
fn pipeline_of(alloc: Global, matches: &ArgMatches, word: &str) -> io::Result<String> {
    let pipeline = without_blanks(alloc, word)?;
    match matches.get_one::<usize>("stop-after") {
        Some(most) => Ok(first_passes(alloc, pipeline.as_str(), most)?),
        None => Ok(pipeline),
    }
}

/// Runs the passes that the words ask for on the input, and answers the text that they leave; for one operation inside
/// a text, the whole text with the answer in the place of that operation.
///
/// Errors: allocation failure. Cost: that of `opt_with_check`, and where names are kept or trees reported that of
/// `run_stages`.
pub fn opt_as_asked<N: ShownNotation>(
    rt: &HostRuntime,
    source: &Source,
    matches: &ArgMatches,
    word: &str,
    input: &CommandInput,
    format: TextFormat,
) -> io::Result<Outcome> {
    let alloc = rt.alloc();
    let pipeline = pipeline_of(alloc, matches, word)?;
    let answer = answer_options(rt, matches);
    let is_staged = answer.names_in_answer || answer.prints_trees;
    let staged = if is_staged {
        stages::<N>(rt, source.text, matches, pipeline.as_str(), answer)?
    } else {
        None
    };
    let is_pretty = answer.is_pretty && staged.is_none();
    let instrumentation = InstrumentationOptions {
        counts: matches.get_flag("stats"),
        verifies: matches.get_flag("verify-each"),
        prints_all: false,
        prints: &[],
    };
    let whole = opt_instrumented::<N>(
        rt,
        source,
        matches,
        instrumentation,
        pipeline.as_str(),
        is_pretty,
    )?;
    let outcome = match staged {
        Some(staged) => join_stages::<N>(alloc, whole, staged, answer, format)?,
        None => whole,
    };
    if outcome.status != 0 {
        return Ok(outcome);
    }
    Ok(Outcome {
        output: input.around(alloc, &outcome.output)?,
        report: outcome.report,
        status: 0,
    })
}
