//! Reports on texts, in the form that people read or in one that editors and programs read.
//!
//! A report writes each message in the form of `mark_source`: a line with `error:`, `warning:` or `note:` and what is
//! wrong; a line with `-->` and the place; the text's line with a mark and a label below; lines with `help:`.
ghost use Rattle.std.specs.Prelude.{◌≡◌, IfOk, string_bytes};
ghost use Rattle.pliron_show_places.specs.declared.message_form.MessageForm.TheVariants.{Full};

use crate::json::JsonObject;
use pliron_text_positions::LineAndColumn;
use std::alloc::{AllocError, Global};

/// A form of reports.
#[derive(Clone, Copy, Debug, Drop, PartialEq, Eq)]
pub enum MessageForm {
    /// For people: with the line and a mark under it.
    Full,
    /// A line for each message: `file:line:column: error: what is wrong: label`.
    Short,
    /// The same as an object of JSON on a line.
    Json,
}

/// The severity of a message, as reports write it.
static SEVERITIES: [&str; 3] = ["error", "warning", "note"];

/// A message of a report.
#[derive(Clone, Copy)]
struct Message<'r> {
    severity: &'r str,
    message: &'r str,
    /// Where the text is from, and line and column.
    place: Option<(&'r str, &'r str, &'r str)>,
    label: &'r str,
    help: &'r str,
    /// How many bytes are marked.
    marked: usize,
}

// The severity and what is wrong, where the line begins so.
fn beginning(line: &str) -> Option<(&str, &str)> {
    let (severity, message) = line.split_once(": ")?;
    if SEVERITIES.iter().any(|word| *word == severity) {
        Some((severity, message))
    } else {
        None
    }
}

// The place that the line gives, if it gives one.
fn place_of_line(line: &str) -> Option<(&str, &str, &str)> {
    let place = line.trim_start_matches(' ').strip_prefix("--> ")?;
    let (rest, column) = place.rsplit_once(':')?;
    let (name, number) = rest.rsplit_once(':')?;
    Some((name, number, column))
}

// What is in the frame of a text's line, behind the bar, if the line belongs to that frame.
fn behind_frame(line: &str) -> Option<&str> {
    let (number, rest) = line.split_once('|')?;
    if number
        .chars()
        .all(|letter| letter == ' ' || letter.is_ascii_digit())
    {
        Some(rest)
    } else {
        None
    }
}

// How long the mark is, and the label behind it, if the line has one.
fn mark_of_line(line: &str) -> Option<(usize, &str)> {
    let marks = behind_frame(line)?.trim_start_matches(' ');
    let label = marks.trim_start_matches('^');
    if label.len() < marks.len() {
        let marked = marks.len().saturating_sub(label.len());
        Some((marked, label.trim_start_matches(' ')))
    } else {
        None
    }
}

impl<'r> Message<'r> {
    // A message of which only this is known so far.
    fn new(severity: &'r str, message: &'r str) -> Self {
        Message {
            severity,
            message,
            place: None,
            label: "",
            help: "",
            marked: 0,
        }
    }

    // Takes in a line, and answers whether it belongs to the message.
    fn take(&mut self, line: &'r str) -> bool {
        if let Some(place) = place_of_line(line) {
            self.place = Some(place);
            return true;
        }
        if let Some((marked, label)) = mark_of_line(line) {
            self.marked = marked;
            self.label = label;
            return true;
        }
        if let Some(help) = line.strip_prefix("help: ") {
            self.help = help;
            return true;
        }
        behind_frame(line).is_some()
    }

    // Writes it on one line, as compilers do.
    fn write_short(&self, text: &mut String) -> Result<(), AllocError> {
        if let Some((name, line, column)) = self.place {
            write!(text, "{name}:{line}:{column}: ")?;
        }
        write!(text, "{}: {}", self.severity, self.message)?;
        if !self.label.is_empty() {
            write!(text, ": {}", self.label)?;
        }
        text.push_str("\n")
    }

    // Where the message marks the text, from its first byte to right behind its last one on that line.
    fn range(&self) -> Option<(&'r str, LineAndColumn, LineAndColumn)> {
        let (name, line, column) = self.place?;
        let start = LineAndColumn {
            line: line.parse::<usize>().ok()?,
            column: column.parse::<usize>().ok()?,
        };
        let end = LineAndColumn {
            line: start.line,
            column: start.column.saturating_add(self.marked),
        };
        Some((name, start, end))
    }

    // Writes it as an object of JSON.
    fn write_json(&self, alloc: Global, text: &mut String) -> Result<(), AllocError> {
        let mut object = JsonObject::new(alloc);
        object.words("severity", self.severity)?;
        object.words("message", self.message)?;
        if let Some((name, start, end)) = self.range() {
            object.words("file", name)?;
            object.range(start, end)?;
        }
        for (key, words) in [("label", self.label), ("help", self.help)] {
            if !words.is_empty() {
                object.words(key, words)?;
            }
        }
        object.write_line(text)
    }

    // Writes it in the form.
    fn write(&self, alloc: Global, text: &mut String, form: MessageForm) -> Result<(), AllocError> {
        match form {
            MessageForm::Json => self.write_json(alloc, text),
            MessageForm::Full | MessageForm::Short => self.write_short(text),
        }
    }
}

// Writes the message that is open, if one is, in the form.
fn write_open(
    alloc: Global,
    open: Option<Message>,
    text: &mut String,
    form: MessageForm,
) -> Result<(), AllocError> {
    match open {
        Some(reported) => reported.write(alloc, text, form),
        None => Ok(()),
    }
}

/// The messages of the report in the form, each on a line, and its other lines as they are; in the form for people the
/// whole report as it is.
///
/// Errors: allocation failure. Cost: linear in the report.
pub fn in_form(alloc: Global, report: &str, form: MessageForm) -> Result<String, AllocError>
    ensures { form ≡ Full → IfOk result (λ text. string_bytes text ≡ report.now) }
{
    if form == MessageForm::Full {
        return String::from_str(alloc, report);
    }
    let mut text = String::new(alloc);
    let mut open: Option<Message> = None;
    for line in report.lines() {
        if let Some((severity, message)) = beginning(line) {
            write_open(alloc, open, &mut text, form)?;
            open = Some(Message::new(severity, message));
            continue;
        }
        let mut reported = open;
        let is_taken = match &mut reported {
            Some(reported) => reported.take(line),
            None => false,
        };
        if is_taken {
            open = reported;
        } else {
            write_open(alloc, open, &mut text, form)?;
            open = None;
            text.push_str(line)?;
            text.push_str("\n")?;
        }
    }
    write_open(alloc, open, &mut text, form)?;
    Ok(text)
}
