//! What the commands make of their inputs.
use crate::format::TextFormat;
use crate::inner::{inner_failure, lines_inside, operation_path};
use crate::input::{CommandInput, input_name, read_graph_input, read_input};
use crate::optimise::opt_as_asked;
use crate::output::write_lines;
use crate::pipeline::pipeline_and_file;
use crate::program::Program;
use clap::ArgMatches;
use pliron_driver::without_blanks;
use pliron_show_commands::{
    CompareOptions, Datum, EffectSink, ExplainOptions, FlowOptions, JsonObject, Outcome,
    RunOptions, Runnable, ShownNotation, Source, TextRange, check, compare, draw_flow, draw_graph,
    explain, run, run_streamed, unfit_warning,
};
use std::alloc::{AllocError, Global};
use std::io;

/// The data that a run is given, or the option and the word that say none.
#[derive(Drop)]
enum Given<'a> {
    Data(Vec<Datum>),
    Word(&'static str, &'a str),
}

// The values that the operation gets.
fn inputs_of<'a, N: Runnable>(alloc: Global, matches: &ArgMatches<'a>) -> io::Result<Given<'a>> {
    let mut data = Vec::new(alloc);
    if let Some(words) = matches.get_strs("input") {
        for word in words {
            match N::input_of_word(alloc, *word)? {
                Some(datum) => data.push(datum)?,
                None => return Ok(Given::Word("input", *word)),
            }
        }
    }
    Ok(Given::Data(data))
}

// The answers of the world.
fn world_of<'a, N: Runnable>(alloc: Global, matches: &ArgMatches<'a>) -> io::Result<Given<'a>> {
    let mut data = Vec::new(alloc);
    if let Some(words) = matches.get_strs("world") {
        for word in words {
            match N::answer_of_word(alloc, *word)? {
                Some(datum) => data.push(datum)?,
                None => return Ok(Given::Word("world", *word)),
            }
        }
    }
    Ok(Given::Data(data))
}

// The outcome of a run that was given a word which says no datum.
fn no_datum_outcome<N: Runnable>(alloc: Global, option: &str, word: &str) -> io::Result<Outcome> {
    let help = N::words_of_data();
    let report = format!(in alloc;
        "error: `{word}` says nothing for --{option}\nhelp: give {help}\n"
    )?;
    Ok(input_failure(alloc, report))
}

// Runs the text with these options, before and after these passes.
fn compare_as_asked<'w, N: Runnable>(
    alloc: Global,
    source: &Source,
    run: RunOptions<'w>,
    pipeline: &'w str,
) -> io::Result<Outcome> {
    let pipeline = without_blanks(alloc, pipeline)?;
    let options = CompareOptions {
        run,
        pipeline: pipeline.as_str(),
    };
    Ok(compare::<N>(alloc, source, &options)?)
}

/// Standard output, which is given effects as they come.
#[derive(Drop)]
struct Effects<'r> {
    rt: &'r HostRuntime,
}

impl EffectSink for Effects<'_> {
    fn accept(&mut self, lines: &[u8]) -> bool {
        write_lines(self.rt, lines).is_ok()
    }
}

/// Runs the text as the words ask, or before and after passes. Errors: those of the streams; allocation failure. Cost: that
/// of the runs.
pub fn run_as_asked<N: Runnable>(
    rt: &HostRuntime,
    source: &Source,
    matches: &ArgMatches,
) -> io::Result<Outcome> {
    let alloc = rt.alloc();
    let inputs = match inputs_of::<N>(alloc, matches)? {
        Given::Data(inputs) => inputs,
        Given::Word(option, word) => return no_datum_outcome::<N>(alloc, option, word),
    };
    let world = match world_of::<N>(alloc, matches)? {
        Given::Data(world) => world,
        Given::Word(option, word) => return no_datum_outcome::<N>(alloc, option, word),
    };
    run_on::<N>(rt, source, matches, &inputs, &world)
}

// Runs the text on these inputs in a world that answers so.
fn run_on<N: Runnable>(
    rt: &HostRuntime,
    source: &Source,
    matches: &ArgMatches,
    inputs: &[Datum],
    world: &[Datum],
) -> io::Result<Outcome> {
    let alloc = rt.alloc();
    let options = RunOptions {
        inputs,
        world,
        steps: matches.get_one::<usize>("steps").unwrap_or(100_000),
        trace: matches.get_flag("trace"),
        json: matches.get_flag("json"),
    };
    match matches.get_str("compare") {
        Some(pipeline) => compare_as_asked::<N>(alloc, source, options, pipeline),
        None if output_file(matches).is_some() => Ok(run::<N>(alloc, source, &options)?),
        None => Ok(run_streamed::<N, _>(alloc, source, &options, &mut Effects { rt })?),
    }
}

/// The file that the answer is written to, where that isn't standard output. Cost: constant.
pub fn output_file<'a>(matches: &ArgMatches<'a>) -> Option<&'a str> {
    match matches.get_str("output") {
        Some("-") => None,
        file => file,
    }
}

// Draws the region that the words ask for, of the operation at this path of the text.
fn draw_as_asked<N: ShownNotation>(
    alloc: Global,
    source: &Source,
    matches: &ArgMatches,
    path: Option<&str>,
) -> io::Result<Outcome> {
    let region = matches.get_str("region").unwrap_or("0");
    let region = match path {
        Some(path) => format!(in alloc; "{}.{region}", operation_path(path))?,
        None => String::from_str(alloc, region)?,
    };
    let options = FlowOptions {
        region: region.as_str(),
        dominators: matches.get_flag("dominators"),
        blocks_alone: matches.get_flag("blocks"),
        nested: matches.get_flag("nested"),
        title: matches.get_str("title").unwrap_or(""),
    };
    Ok(draw_flow::<N>(alloc, source, &options)?)
}

// Explains what the passes did, and warns of a text that isn't fit to run.
fn explain_as_asked<N: ShownNotation>(
    alloc: Global,
    source: &Source,
    matches: &ArgMatches,
    pipeline: &str,
) -> io::Result<Outcome> {
    let pipeline = without_blanks(alloc, pipeline)?;
    let options = ExplainOptions {
        pipeline: pipeline.as_str(),
        missed: matches.get_flag("missed"),
        json: matches.get_flag("json"),
    };
    let explained = explain::<N>(alloc, source, &options)?;
    if explained.status != 0 {
        return Ok(explained);
    }
    match unfit_warning::<N>(alloc, source, false) {
        Ok(report) => Ok(Outcome {
            output: explained.output,
            report,
            status: 0,
        }),
        Err(_) => Err(io::Error::from(AllocError)),
    }
}

// Explains what the passes did to an operation inside a function.
fn explain_inner<P: Program>(
    alloc: Global,
    matches: &ArgMatches,
    input: &CommandInput,
    part: TextRange,
) -> io::Result<Outcome> {
    let (pipeline, name) = pipeline_and_file(alloc, matches)?;
    let function = input.around_inner::<P>(alloc, matches.get_str("at").unwrap_or("0"))?;
    let source = Source {
        name: input_name(name),
        text: &function,
    };
    let reported = explain_as_asked::<P::Text>(alloc, &source, matches, pipeline)?;
    if reported.status != 0 {
        return Ok(reported);
    }
    Ok(Outcome {
        output: lines_inside(
            alloc,
            &input.text,
            part,
            &reported.output,
            matches.get_flag("json"),
        )?,
        report: reported.report,
        status: 0,
    })
}

// What the command makes of an operation inside a function.
fn outcome_of_inner<P: Program>(
    alloc: Global,
    command: &str,
    matches: &ArgMatches,
    input: &CommandInput,
    part: TextRange,
) -> io::Result<Outcome> {
    let (_, name) = pipeline_and_file(alloc, matches)?;
    let path = matches.get_str("at").unwrap_or("0");
    let source = Source {
        name: input_name(name),
        text: &input.text,
    };
    match command {
        "dot" => draw_as_asked::<P::Text>(alloc, &source, matches, Some(path)),
        "explain" => explain_inner::<P>(alloc, matches, input, part),
        _ => Ok(inner_failure::<P>(alloc, &source, part, path)?),
    }
}

/// The outcome of a command that can't read its input: what went wrong is reported. Cost: constant.
pub fn input_failure(alloc: Global, report: String) -> Outcome {
    Outcome {
        output: Vec::new(alloc),
        report,
        status: 2,
    }
}

// The outcome of `check` with its answer, where the text is fit to run, as an object of JSON. Errors: allocation failure.
fn fit_object(alloc: Global, checked: Outcome) -> Result<Outcome, AllocError> {
    if checked.status != 0 {
        return Ok(checked);
    }
    let answer = std::str::from_utf8(&checked.output)
        .unwrap_or("")
        .trim_end();
    let mut object = JsonObject::new(alloc);
    object.words("fit", answer)?;
    let mut line = String::new(alloc);
    object.write_line(&mut line)?;
    Ok(Outcome {
        output: line.into_bytes(),
        report: checked.report,
        status: 0,
    })
}

/// What a command of each notation makes of its input: `check`, `opt`, `dot`, `explain`. Errors: allocation failure. Cost:
/// that of the command.
pub fn outcome_in<N: ShownNotation>(
    rt: &HostRuntime,
    command: &str,
    matches: &ArgMatches,
    input: &CommandInput,
    format: TextFormat,
) -> io::Result<Outcome> {
    let alloc = rt.alloc();
    let (pipeline, name) = pipeline_and_file(alloc, matches)?;
    let source = Source {
        name: input_name(name),
        text: &input.text,
    };
    match command {
        "check" if matches.get_flag("json") => Ok(fit_object(alloc, check::<N>(alloc, &source)?)?),
        "check" => Ok(check::<N>(alloc, &source)?),
        "opt" => opt_as_asked::<N>(rt, &source, matches, pipeline, input, format),
        "dot" => draw_as_asked::<N>(alloc, &source, matches, None),
        _ => explain_as_asked::<N>(alloc, &source, matches, pipeline),
    }
}

// What the command makes of its input.
fn outcome_of_text<P: Program>(
    rt: &HostRuntime,
    command: &str,
    matches: &ArgMatches,
    input: &CommandInput,
) -> io::Result<Outcome> {
    let alloc = rt.alloc();
    let (_, name) = pipeline_and_file(alloc, matches)?;
    let source = Source {
        name: input_name(name),
        text: &input.text,
    };
    match command {
        "graph" => Ok(draw_graph(alloc, &source)?),
        "run" => run_as_asked::<P::Text>(rt, &source, matches),
        _ => outcome_in::<P::Text>(rt, command, matches, input, TextFormat::Words),
    }
}

/// The outcome of a command whose path leads to no operation. Errors: allocation failure. Cost: linear in the path.
pub fn no_operation_outcome(alloc: Global, path: &str) -> io::Result<Outcome> {
    let help = AT_HELP;
    let report = format!(in alloc; "error: no operation `{path}`\nhelp: {help}\n")?;
    Ok(input_failure(alloc, report))
}

/// The outcome of a command whose input can't be read. Errors: allocation failure. Cost: linear in the name.
pub fn unread_outcome(alloc: Global, name: &str, error: &io::Error) -> io::Result<Outcome> {
    let name = input_name(name);
    let report = format!(in alloc; "error: cannot read {name}: {error}\n")?;
    Ok(input_failure(alloc, report))
}

/// What the command makes of its input, or why that can't be read. Errors: allocation failure; those of `other_outcome`.
/// Cost: that of the command.
pub fn outcome<P: Program>(
    rt: &HostRuntime,
    command: &str,
    matches: &ArgMatches,
) -> io::Result<Outcome> {
    let alloc = rt.alloc();
    let (_, name) = pipeline_and_file(alloc, matches)?;
    if command == "graph" {
        return match read_graph_input(rt, name) {
            Ok(input) => outcome_of_text::<P>(rt, command, matches, &input),
            Err(error) => unread_outcome(alloc, name, &error),
        };
    }
    if let Some(outcome) = P::other_outcome(rt, command, matches)? {
        return Ok(outcome);
    }
    let path = matches.get_str("at");
    match read_input::<P>(rt, name, path) {
        Ok(Some(input)) => match input.inner {
            Some(part) => outcome_of_inner::<P>(alloc, command, matches, &input, part),
            None => outcome_of_text::<P>(rt, command, matches, &input),
        },
        Ok(None) => no_operation_outcome(alloc, path.unwrap_or("")),
        Err(error) => unread_outcome(alloc, name, &error),
    }
}

/// What a path to an operation is.
static AT_HELP: &str = "`0.2` is operation 2 of region 0 of the text's operation, counted from 0";
