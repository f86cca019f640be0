//! A function, read.
ghost use Rattle.std.specs.Prelude.{◌≡◌, ◌<◌, ◌≤◌, [], take, length, IfOk, OnOk};
ghost use Rattle.pliron_text_llvm_syntax.specs.Functions.{IsFunctionAt};
ghost use Rattle.pliron_text_llvm_names.specs.Uses.{AreTargets};
ghost use Rattle.pliron_text_llvm_functions.specs.Functions.{inside_of, AreParametersOf, IsBodyOf, AreDefinitionsOf, AreWellNamed, IsFunctionReading, IsFunctionForm};

use crate::defining::{DefiningFault, push_body_definitions};
use crate::parameters::push_parameters;
use crate::stop::{
    FunctionFault, FunctionStop, KeptFor, Refusal, stop_at_byte, stop_of_body, stop_of_memory,
    stop_of_name,
};
use pliron_text_llvm_names::{
    LocalDefinition, NameFault, NamingFault, UseFault, name_definitions, resolve_uses,
};
use pliron_text_llvm_reader::{BodyLine, FunctionBody, push_tokens, read_body};
use pliron_text_llvm_syntax::{ByteSpan, FunctionText, Hole, HoleKind};
use std::alloc::Global;

/// A function that was read.
#[doc(hidden)]
#[derive(Debug, Drop)]
pub struct FunctionReading {
    pub body: FunctionBody,
    /// What it defines, in the order of the text: parameters, and then blocks and what statements give.
    pub definitions: Vec<LocalDefinition>,
    /// For each operand and each successor the number of the definition that it names; none for a constant.
    pub targets: Vec<Option<usize>>,
}

/// What a function of the text becomes.
#[doc(hidden)]
#[derive(Debug, Drop)]
pub enum FunctionForm {
    Read(FunctionReading),
    /// For what is at this byte it is kept as it is written.
    Kept(usize, KeptFor),
}

// What is between the first and the last byte of the span.
fn inside_of(span: ByteSpan) -> ByteSpan
    requires { span.start < span.end }
    ensures exact { result ≡ inside_of span }
    ensures ordered { result.start ≤ result.end }
    ensures within { result.end ≤ span.end }
{
    let start = span.start + 1;
    ByteSpan {
        start,
        end: start.max(span.end - 1),
    }
}

// The text up to this byte.
fn text_before(text: &[u8], end: usize) -> &[u8]
    requires { end ≤ length text.now }
    ensures { result.now ≡ take end text.now }
{
    &text[..end]
}

// Adds the parameters between these brackets to none.
#[tactic(auto, using(crate::proofs::FunctionLemmas::parameters_read))]
fn define_parameters(
    alloc: Global,
    text: &[u8],
    inside: ByteSpan,
    definitions: &mut Vec<LocalDefinition>,
) -> Result<(), FunctionStop>
    requires ordered { inside.start ≤ inside.end }
    requires within { inside.end ≤ length text.now }
    requires empty { definitions.old.items ≡ [] }
    ensures { OnOk result (AreParametersOf text.now inside definitions.new.items) }
{
    let before = text_before(text, inside.end);
    let mut tokens = Vec::new(alloc);
    push_tokens(before, inside.start, &mut tokens)?;
    push_parameters(before, &tokens, definitions)?;
    Ok(())
}

// Adds what the function defines to nothing.
#[tactic(auto, using(crate::proofs::FunctionLemmas::all_defined))]
fn define(
    alloc: Global,
    text: &[u8],
    inside: ByteSpan,
    lines: &[BodyLine],
    definitions: &mut Vec<LocalDefinition>,
) -> Result<(), FunctionStop>
    requires ordered { inside.start ≤ inside.end }
    requires within { inside.end ≤ length text.now }
    requires empty { definitions.old.items ≡ [] }
    ensures { OnOk result (AreDefinitionsOf text.now inside lines.now definitions.new.items) }
{
    define_parameters(alloc, text, inside, definitions)?;
    match push_body_definitions(lines, definitions) {
        Ok(()) => Ok(()),
        Err(DefiningFault::Nameless(name)) => { Err(stop_at_byte(name.start, Refusal::Nameless)) }
        Err(DefiningFault::NoMemory) => Err(stop_of_memory()),
    }
}

// Where the name of the definition with this number begins.
fn place_of(definitions: &[LocalDefinition], number: usize) -> usize {
    match definitions.get(number) {
        Some(
            LocalDefinition {
                name: Some(span),
                ..
            },
        ) => span.start,
        _ => 0,
    }
}

// What was expected in place of the name of the definition with this number.
fn new_name(definitions: &[LocalDefinition], number: usize) -> Refusal {
    match definitions.get(number) {
        Some(definition) if definition.is_block() => Refusal::NewBlock,
        _ => Refusal::NewValue,
    }
}

// What stops a function whose definitions have no names.
fn stop_of_naming(definitions: &[LocalDefinition], fault: NamingFault) -> FunctionStop {
    match fault {
        NamingFault::Unread(number, fault) => stop_of_name(place_of(definitions, number), fault),
        NamingFault::Taken(number) => stop_at_byte(
            place_of(definitions, number),
            new_name(definitions, number),
        ),
        NamingFault::Falls(number, next) => stop_at_byte(
            place_of(definitions, number),
            Refusal::GreaterNumber(next),
        ),
        NamingFault::Numberless(number) => {
            stop_of_name(place_of(definitions, number), NameFault::LargeNumber)
        }
        NamingFault::NoMemory => stop_of_memory(),
    }
}

// What stops a function in which this hole names nothing.
fn stop_of_hole(hole: Option<&Hole>) -> FunctionStop {
    match hole {
        Some(
            Hole {
                kind: HoleKind::Operand,
                span,
            },
        ) => stop_at_byte(span.start, Refusal::Value),
        Some(
            Hole {
                kind: HoleKind::Successor,
                span,
            },
        ) => stop_at_byte(span.start, Refusal::BlockName),
        None => stop_of_memory(),
    }
}

// What stops a function whose holes name nothing.
fn stop_of_use(holes: &[Hole], fault: UseFault) -> FunctionStop {
    match fault {
        UseFault::Unread(number, fault) => {
            stop_of_name(holes.get(number).map_or(0, |hole| hole.span.start), fault)
        }
        UseFault::Undefined(number) => stop_of_hole(holes.get(number)),
        UseFault::NoMemory => stop_of_memory(),
    }
}

// Adds to none what each hole names.
fn resolve(
    alloc: Global,
    text: &[u8],
    definitions: &[LocalDefinition],
    holes: &[Hole],
    targets: &mut Vec<Option<usize>>,
) -> Result<(), FunctionStop>
    requires { targets.old.items ≡ [] }
    ensures named { OnOk result (AreWellNamed text.now definitions.now) }
    ensures targets { OnOk result (AreTargets text.now definitions.now holes.now targets.new.items) }
{
    let table = match name_definitions(alloc, text, definitions) {
        Ok(table) => table,
        Err(fault) => return Err(stop_of_naming(definitions, fault)),
    };
    match resolve_uses(text, definitions, &table, holes, targets) {
        Ok(()) => Ok(()),
        Err(fault) => Err(stop_of_use(holes, fault)),
    }
}

// Defines what the function does, and resolves what its holes name.
fn name_reading(
    alloc: Global,
    text: &[u8],
    parameters: ByteSpan,
    reading: &mut FunctionReading,
) -> Result<(), FunctionStop>
    requires ordered { parameters.start ≤ parameters.end }
    requires within { parameters.end ≤ length text.now }
    requires undefined { reading.old.definitions.items ≡ [] }
    requires unresolved { reading.old.targets.items ≡ [] }
    ensures body { reading.new.body ≡ reading.old.body }
    ensures definitions { OnOk result (AreDefinitionsOf text.now parameters reading.old.body.lines.items
        reading.new.definitions.items) }
    ensures named { OnOk result (AreWellNamed text.now reading.new.definitions.items) }
    ensures targets { OnOk result (AreTargets text.now reading.new.definitions.items reading.old.body.holes.items
        reading.new.targets.items) }
{
    define(
        alloc,
        text,
        parameters,
        &reading.body.lines,
        &mut reading.definitions,
    )?;
    resolve(
        alloc,
        text,
        &reading.definitions,
        &reading.body.holes,
        &mut reading.targets,
    )
}

// Reads the function, or says what stops it.
fn read_all(
    alloc: Global,
    text: &[u8],
    function: &FunctionText,
) -> Result<FunctionReading, FunctionStop>
    requires { IsFunctionAt text.now function.now.span.start function.now }
    ensures { IfOk result (λ reading. IsFunctionReading text.now function.now reading) }
{
    let body = match read_body(alloc, text, inside_of(function.body)) {
        Ok(body) => body,
        Err(stop) => return Err(stop_of_body(stop)),
    };
    let mut reading = FunctionReading {
        body,
        definitions: Vec::new(alloc),
        targets: Vec::new(alloc),
    };
    match name_reading(alloc, text, inside_of(function.parameters), &mut reading) {
        Ok(()) => Ok(reading),
        Err(stop) => Err(stop),
    }
}

/// Reads a function: its body, what it defines, and which definition each operand and each successor names. Names and
/// numbers may be used before the text defines them. It is kept as it is written where a statement isn't in the table,
/// or a name has an escape or a number of more than 32 bits.
///
/// Asks that it is a function of the text. Errors, with the place and what was expected there: no block, or a block
/// without an end; a name that is taken, a number that falls, a name of nothing; a use of what the function doesn't
/// define; a token or a bracket is broken; allocation failure. Cost: linear in it, and a look-up for each name.
#[doc(hidden)]
pub fn read_function(
    alloc: Global,
    text: &[u8],
    function: &FunctionText,
) -> Result<FunctionForm, FunctionFault>
    requires { IsFunctionAt text.now function.now.span.start function.now }
    ensures { IfOk result (λ form. IsFunctionForm text.now function.now form) }
{
    match read_all(alloc, text, function) {
        Ok(reading) => Ok(FunctionForm::Read(reading)),
        Err(FunctionStop::Keep(place, reason)) => Ok(FunctionForm::Kept(place, reason)),
        Err(FunctionStop::Fault(fault)) => Err(fault),
    }
}
