//! Pass pipelines as words: the one reader, for the words of the program and for those that people write.
ghost use Rattle.std.specs.Prelude.{◌≡◌, ◌≤◌, ◌==◌, ◌++◌, ℕ, true, map, codes, IsTrue, IfOk, IfSome, IfNone};
ghost use Rattle.std.specs.List.{slice_split};
ghost use Rattle.std.specs.Fmt.{decimal};
ghost use Rattle.pliron_pass_pipeline.specs.PassNames.{IsNoPass};
ghost use Rattle.pliron_text.specs.Beginnings.{BeginsWith};
ghost use Rattle.pliron_driver.specs.Plans.{IsPlan};
ghost use Rattle.pliron_driver.specs.PipelineTexts.{Counts, Nests, Plans, has_brackets};

use pliron_pass_pipeline::PassName;
use std::alloc::{AllocError, Global};

/// The most times that a list may be run.
const MAX_RUNS: usize = 64;

/// What a word says of the passes that are to be run.
#[derive(Debug, Drop)]
pub struct PipelineText<'w> {
    /// The most runs of the list, where it is run until it changes nothing.
    pub runs: Option<usize>,
    /// Whether it is run on each operation directly inside, and not on the operation itself.
    pub nested: bool,
    /// The names of its passes.
    pub names: Vec<&'w str>,
}

/// A part of a word that is wrong, and what was expected there.
#[derive(Clone, Copy, Debug, Drop, PartialEq, Eq)]
pub struct WordFault {
    /// After how many bytes the part begins, and how many it has.
    pub start: usize,
    pub len: usize,
    pub expected: &'static str,
}

/// Why a word plans nothing.
#[derive(Clone, Copy, Debug, Drop, PartialEq, Eq)]
pub enum PlanError {
    Word(WordFault),
    Memory,
}

impl From<AllocError> for PlanError {
    fn from(_: AllocError) -> Self {
        PlanError::Memory
    }
}

/// Which words plan passes: those of the program, which are fixed, or all, which have brackets and the names of all
/// passes too.
#[derive(Clone, Copy)]
enum Words {
    OfProgram,
    All,
}

impl Words {
    // Whether they have this name, and a pass has it.
    fn have_name(self, name: &str) -> bool
        ensures { IsTrue result → IsNoPass name.now → ⊥ }
    {
        match PassName::from_name(name) {
            Some(PassName::Sccp | PassName::Dce | PassName::SimplifyCfg) => true,
            Some(
                PassName::Cse | PassName::Canonicalize | PassName::Combine | PassName::ThreadEdges,
            ) => matches!(self, Words::All),
            None => false,
        }
    }
}

// The fault of this part.
fn fault<T>(start: usize, len: usize, expected: &'static str) -> Result<T, PlanError>
    ensures { IfOk result (λ found. ⊥) }
{
    Err(PlanError::Word(WordFault {
        start,
        len,
        expected,
    }))
}

// The number that is written so after so many bytes of the word. Errors: it isn't one from 1 to the most runs as it is
// printed; allocation failure.
fn count(alloc: Global, digits: &str, start: usize) -> Result<usize, PlanError>
    ensures digits { IfOk result (λ count. digits.now ≡ decimal count) }
    ensures few { IfOk result (λ count. (1 ≤ count) × (count ≤ 64)) }
{
    match digits.parse::<usize>() {
        Ok(count) if count >= 1 && count <= MAX_RUNS => {
            let printed = format!(in alloc; "{count}")?;
            if printed.as_str() == digits {
                Ok(count)
            } else {
                fault(start, digits.len(), "a number from 1 to 64")
            }
        }
        _ => fault(start, digits.len(), "a number from 1 to 64"),
    }
}

/// A rest of a word, and after how many bytes it begins.
#[derive(Clone, Copy)]
struct RestOfWord<'w> {
    text: &'w str,
    start: usize,
}

// What follows this start in the text, if the text begins with it.
fn text_behind<'w>(text: &'w str, start: &str) -> Option<&'w str>
    ensures some { IfSome result (λ rest. text.now ≡ start.now ++ rest.now) }
    ensures none { IfNone result (BeginsWith text.now start.now → ⊥) }
{
    match text.strip_prefix(start) {
        Some(rest) => Some(rest),
        None => None,
    }
}

// The same, where these words have brackets.
fn text_behind_bracket<'w>(text: &'w str, start: &str, words: Words) -> Option<&'w str>
    ensures some { IfSome result (λ rest. IsTrue (has_brackets words) × (text.now ≡ start.now ++ rest.now)) }
    ensures none { IfNone result (IsTrue (has_brackets words) → BeginsWith text.now start.now → ⊥) }
{
    match words {
        Words::OfProgram => None,
        Words::All => text_behind(text, start),
    }
}

// What is before the bracket that closes the text, if one does.
fn text_before_bracket(text: &str) -> Option<&str>
    ensures { IfSome result (λ inner. text.now ≡ inner.now ++ codes ")") }
{
    text.strip_suffix(')')
}

// The fault of a list, after so many bytes of the word, whose last letter isn't the bracket that closes it.
fn bracket_fault<T>(behind: &str, start: usize) -> Result<T, PlanError>
    ensures { IfOk result (λ found. ⊥) }
{
    match behind.rsplit_once(')') {
        Some((list, rest)) => fault(
            start.saturating_add(list.len()).saturating_add(1),
            rest.len(),
            "the end, as nothing stands behind `)`",
        ),
        None => fault(start.saturating_add(behind.len()), 0, "`)`"),
    }
}

// The runs that the rest of a word behind `repeat:` asks for, and what is run. Errors: it asks for none; allocation
// failure.
fn counted_by_colon<'w>(alloc: Global, rest: &'w str) -> Result<(usize, RestOfWord<'w>), PlanError>
    ensures whole { IfOk result (λ read. rest.now ≡ decimal read.0 ++ (codes ":" ++ read.1.text.now)) }
    ensures few { IfOk result (λ read. (1 ≤ read.0) × (read.0 ≤ 64)) }
{
    let Some((digits, text)) = rest.split_once(':') else {
        return fault(7, rest.len(), "a number from 1 to 64, a colon and a list");
    };
    let runs = count(alloc, digits, 7)?;
    let start = digits.len().saturating_add(8);
    Ok((runs, RestOfWord { text, start }))
}

// The same of the rest of a word behind `repeat<`.
fn counted_in_brackets<'w>(
    alloc: Global,
    rest: &'w str,
) -> Result<(usize, RestOfWord<'w>), PlanError>
    ensures whole { IfOk result (λ read. rest.now ≡ decimal read.0 ++ (codes ">(" ++ (read.1.text.now ++ codes ")"))) }
    ensures few { IfOk result (λ read. (1 ≤ read.0) × (read.0 ≤ 64)) }
{
    let Some((digits, behind)) = rest.split_once(">(") else {
        return fault(7, rest.len(), "a number from 1 to 64, `>(` and a list");
    };
    let runs = count(alloc, digits, 7)?;
    let start = digits.len().saturating_add(9);
    match text_before_bracket(behind) {
        Some(text) => Ok((runs, RestOfWord { text, start })),
        None => bracket_fault(behind, start),
    }
}

// The runs that the word asks for, if it does, and what is run. Errors: it asks for none that can be; allocation
// failure.
fn read_runs<'w>(
    alloc: Global,
    word: &'w str,
    words: Words,
) -> Result<(Option<usize>, RestOfWord<'w>), PlanError>
    ensures { IfOk result (λ read. Counts (has_brackets words) word.now read.0 read.1.text.now) }
{
    if let Some(rest) = text_behind(word, "repeat:") {
        let (runs, rest) = counted_by_colon(alloc, rest)?;
        return Ok((Some(runs), rest));
    }
    let Some(rest) = text_behind_bracket(word, "repeat<", words) else {
        let whole = RestOfWord {
            text: word,
            start: 0,
        };
        return Ok((None, whole));
    };
    let (runs, rest) = counted_in_brackets(alloc, rest)?;
    Ok((Some(runs), rest))
}

// Whether it is for each operation directly inside, and the list. Errors: a bracket that isn't closed.
fn read_nesting<'w>(rest: RestOfWord<'w>, words: Words) -> Result<(bool, RestOfWord<'w>), PlanError>
    ensures { IfOk result (λ read. Nests (has_brackets words) rest.entry.text.now read.0 read.1.text.now) }
{
    let start = rest.start.saturating_add(7);
    if let Some(text) = text_behind(rest.text, "nested:") {
        return Ok((true, RestOfWord { text, start }));
    }
    let Some(behind) = text_behind_bracket(rest.text, "nested(", words) else {
        return Ok((false, rest));
    };
    match text_before_bracket(behind) {
        Some(text) => Ok((true, RestOfWord { text, start })),
        None => bracket_fault(behind, start),
    }
}

// The names that commas set apart. Errors: one that no pass has; allocation failure.
fn names<'w>(alloc: Global, list: RestOfWord<'w>, words: Words) -> Result<Vec<&'w str>, PlanError>
    ensures { IfOk result (λ names. map (λ name. name.now) names.items ≡ slice_split
        (λ b. b == 44) list.entry.text.now) }
{
    let mut names = Vec::new(alloc);
    let mut start = list.start;
    for name in list.text.split(',') {
        if !words.have_name(name) {
            return fault(start, name.len(), PassName::LIST);
        }
        start = start.saturating_add(name.len()).saturating_add(1);
        if names.push(name).is_err() {
            return Err(PlanError::Memory);
        }
    }
    Ok(names)
}

impl<'w> PipelineText<'w> {
    // What the word says, if it is one of these words.
    fn read_among(alloc: Global, word: &'w str, words: Words) -> Result<Self, PlanError>
        ensures { IfOk result (λ plan. Plans (has_brackets words) word.now plan.runs plan.nested
            (map (λ name. name.now) plan.names.items)) }
    {
        let (runs, rest) = read_runs(alloc, word, words)?;
        let (nested, list) = read_nesting(rest, words)?;
        let names = names(alloc, list, words)?;
        Ok(PipelineText {
            runs,
            nested,
            names,
        })
    }

    /// What the word says: names of passes (`PassName::LIST`) joined by commas; in `nested:..` or `nested(..)` for each operation directly
    /// inside; and that in `repeat:N:..` or `repeat<N>(..)` for at most N runs, from 1 to 64.
    ///
    /// Errors: the first part of the word that is wrong; allocation failure. Cost: linear in the word.
    pub fn read(alloc: Global, word: &'w str) -> Result<Self, PlanError>
        ensures { IfOk result (λ plan. Plans true word.now plan.runs plan.nested
            (map (λ name. name.now) plan.names.items)) }
    {
        PipelineText::read_among(alloc, word, Words::All)
    }

    /// What a word of the program says: the same by colons alone, of the passes `sccp`, `dce` and `simplify-cfg`.
    ///
    /// `None` for any other word.
    ///
    /// Errors: allocation failure. Cost: linear in the word.
    pub fn read_for_program(alloc: Global, word: &'w str) -> Result<Option<Self>, AllocError>
        ensures { IfOk result (λ found. IfSome found (λ plan. IsPlan word.now plan.runs plan.nested
            (map (λ name. name.now) plan.names.items))) }
    {
        match PipelineText::read_among(alloc, word, Words::OfProgram) {
            Ok(plan) => Ok(Some(plan)),
            Err(PlanError::Word(_)) => Ok(None),
            Err(PlanError::Memory) => Err(AllocError),
        }
    }
}
