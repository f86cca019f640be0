//! Modules of MLIR.
use clap::ArgMatches;
use pliron_show_commands::{Outcome, Source};
use pliron_show_mlir::{FunctionPlace, MlirNotation, functions_of, module_range};
use pliron_show_program::{
    CommandInput, TextFormat, bytes_of, input_failure, input_name, no_operation_outcome,
    outcome_in, pipeline_and_file, run_as_asked, unread_outcome,
};
use std::alloc::{AllocError, Global};
use std::io;

/// Whether the file of this name is a module: as the words say, or else as the name ends. Cost: constant.
pub fn is_module_named(matches: &ArgMatches, name: &str) -> bool {
    match matches.get_str("dialect") {
        Some(dialect) => dialect == "mlir",
        None => name.ends_with(".mlir"),
    }
}

// The module in the file, or the operation in it that the path leads to, where a path is given. `None` where the path
// leads nowhere. Errors: those of the file; allocation failure. Cost: linear in it, and that of `module_range`.
fn read_module_input(
    rt: &HostRuntime,
    name: &str,
    path: Option<&str>,
) -> io::Result<Option<CommandInput>> {
    let alloc = rt.alloc();
    let whole = bytes_of(rt, name)?;
    let Some(path) = path else {
        return Ok(Some(CommandInput::of_whole(alloc, whole)?));
    };
    match module_range(alloc, &whole, path)? {
        Some(part) => Ok(Some(CommandInput::of_part(alloc, whole, part)?)),
        None => Ok(None),
    }
}

// The outcome of a run of a module with these functions.
fn no_run_outcome(alloc: Global, functions: &[FunctionPlace]) -> io::Result<Outcome> {
    let mut report = String::from_str(alloc, "error: a module has no run\n")?;
    if functions.is_empty() {
        report.push_str("help: it has no function with a body that could be taken\n")?;
    }
    for i in 0..functions.len() {
        let function = &functions[i];
        report.push_str(if i == 0 {
            "help: take a function of it: "
        } else {
            ", "
        })?;
        write!(report, "`--at 0.{}` is {}", function.index, function.name)?;
    }
    report.push_str(if functions.is_empty() { "" } else { "\n" })?;
    Ok(input_failure(alloc, report))
}

// The path to the only function of the module, where it has one; else what the run comes to. `None` of a text that is no
// module.
fn function_path(alloc: Global, whole: &[u8]) -> io::Result<Option<Result<String, Outcome>>> {
    let functions = match functions_of(alloc, whole) {
        Ok(Some(functions)) => functions,
        Ok(None) => return Ok(None),
        Err(_) => return Err(io::Error::from(AllocError)),
    };
    if functions.len() != 1 {
        return Ok(Some(Err(no_run_outcome(alloc, &functions)?)));
    }
    let path = format!(in alloc; "0.{}", functions[0].index)?;
    Ok(Some(Ok(path)))
}

// Runs the function of the module in the file of this name: the one that the path leads to, or the only one.
fn outcome_of_run(
    rt: &HostRuntime,
    matches: &ArgMatches,
    name: &str,
    path: Option<&str>,
) -> io::Result<Outcome> {
    let alloc = rt.alloc();
    let whole = match bytes_of(rt, name) {
        Ok(whole) => whole,
        Err(error) => return unread_outcome(alloc, name, &error),
    };
    let found = match path {
        Some(path) => Some(Ok(String::from_str(alloc, path)?)),
        None => function_path(alloc, &whole)?,
    };
    let input = match found {
        None => CommandInput::of_whole(alloc, whole)?,
        Some(Err(outcome)) => return Ok(outcome),
        Some(Ok(path)) => match module_range(alloc, &whole, path.as_str())? {
            Some(part) => CommandInput::of_part(alloc, whole, part)?,
            None => return no_operation_outcome(alloc, path.as_str()),
        },
    };
    let source = Source {
        name: input_name(name),
        text: &input.text,
    };
    run_as_asked::<MlirNotation>(rt, &source, matches)
}

// What the command makes of the module in the file of this name.
fn outcome_of_module(
    rt: &HostRuntime,
    command: &str,
    matches: &ArgMatches,
    name: &str,
) -> io::Result<Outcome> {
    let alloc = rt.alloc();
    let path = matches.get_str("at");
    if command == "run" {
        return outcome_of_run(rt, matches, name, path);
    }
    match read_module_input(rt, name, path) {
        Ok(Some(input)) => outcome_in::<MlirNotation>(
            rt,
            command,
            matches,
            &input,
            TextFormat::Module,
        ),
        Ok(None) => no_operation_outcome(alloc, path.unwrap_or("")),
        Err(error) => unread_outcome(alloc, name, &error),
    }
}

/// What the command makes of its input, where that is a module; `None` for another text. Errors: allocation failure.
/// Cost: that of the command.
pub fn module_outcome(
    rt: &HostRuntime,
    command: &str,
    matches: &ArgMatches,
) -> io::Result<Option<Outcome>> {
    let (_, name) = pipeline_and_file(rt.alloc(), matches)?;
    if is_module_named(matches, name) {
        Ok(Some(outcome_of_module(rt, command, matches, name)?))
    } else {
        Ok(None)
    }
}
