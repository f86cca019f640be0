//! The definitions of what lines give, and of parameters.
ghost use Rattle.std.specs.Prelude.{◌≡◌, ◌≤◌, true, length, take_while, IfSome};
ghost use Rattle.pliron_text_llvm_trees.specs.Results.{is_parameter, IsResultAt};

use pliron_text_llvm_names::{DefinitionKind, LocalDefinition};

// Where a definition stands among those of a function: behind those of the lines before, and its block is before its
// result.
fn rank_of(what: DefinitionKind) -> usize {
    match what {
        DefinitionKind::Argument(_) => 0,
        DefinitionKind::Block(line) => line.saturating_mul(2),
        DefinitionKind::Result(line) => line.saturating_mul(2).saturating_add(1),
    }
}

// Whether the definition of this number is what the line gives.
fn is_result_at(definitions: &[LocalDefinition], line: usize, number: usize) -> bool
    ensures { result ≡ true → IsResultAt definitions.now line number }
{
    match definitions.get(number) {
        Some(definition) => match definition.what {
            DefinitionKind::Result(given) => given == line,
            DefinitionKind::Argument(_) | DefinitionKind::Block(_) => false,
        },
        None => false,
    }
}

/// The number of the definition that is what the line gives. None where it gives nothing. Cost: a search among the
/// definitions, which are in the order of the text.
#[doc(hidden)]
pub fn result_at(definitions: &[LocalDefinition], line: usize) -> Option<usize>
    ensures { IfSome result (λ number. IsResultAt definitions.now line number) }
{
    let rank = rank_of(DefinitionKind::Result(line));
    let number = match definitions.binary_search_by_key(
        &rank,
        |definition| rank_of(definition.what),
    ) {
        Ok(number) => number,
        Err(number) => number,
    };
    if is_result_at(definitions, line, number) {
        Some(number)
    } else {
        None
    }
}

// Whether it is a parameter.
fn is_parameter(definition: &LocalDefinition) -> bool
    ensures { result ≡ is_parameter definition.now }
{
    matches!(definition.what, DefinitionKind::Argument(_))
}

/// How many of the definitions are parameters: those that come first. Cost: linear in them.
#[doc(hidden)]
pub fn num_parameter(definitions: &[LocalDefinition]) -> usize
    ensures exact { result ≡ length (take_while is_parameter definitions.now) }
    ensures within { result ≤ length definitions.now }
{
    definitions
        .iter()
        .take_while(|definition| is_parameter(*definition))
        .count()
}
