//! `plir_times`: calls of the library, to be measured from outside or timed.
//!
//! ```text
//! plir_times graph SHAPE COUNT CALL   a call on a graph of so many nodes
//! plir_times passes NAME..            passes on the text on standard input, of any length
//! plir_times text                     the text on standard input, read and printed
//! ```
//!
//! What was counted goes to standard output, the nanoseconds of a call on a graph to the other one. Status 1: the text is
//! unreadable, or memory was refused; 2: the words are others, or nothing can be read or written.
#![tactic(auto)]

ghost use Rattle.pliron_graph_traversal.specs.Adjacency.{AreInverse};

mod calls;
mod shapes;
mod texts;

use crate::calls::TimedCall;
use crate::shapes::{TimedShape, rows_of};
use crate::texts::{length_after, print_again};
use pliron_graph_components::AdjacencyList;
use pliron_pass::OptError;
use std::alloc::{AllocError, Global};
use std::env;
use std::io::{self, Read, Write};
use std::process::ExitCode;
use std::time::Instant;

/// Why it ends early.
#[derive(Drop)]
enum TimesFailure {
    Usage,
    Refused,
    Unreadable,
    Stream,
}

impl From<io::Error> for TimesFailure {
    fn from(_: io::Error) -> TimesFailure {
        TimesFailure::Stream
    }
}

impl From<OptError> for TimesFailure {
    fn from(_: OptError) -> TimesFailure {
        TimesFailure::Refused
    }
}

impl From<AllocError> for TimesFailure {
    fn from(_: AllocError) -> TimesFailure {
        TimesFailure::Refused
    }
}

// Times the call on the graph.
fn time_call(
    rt: &HostRuntime,
    call: TimedCall,
    graph: &AdjacencyList,
    size: usize,
) -> io::Result<()>
    requires { AreInverse graph.now }
{
    let start = Instant::now(rt)?;
    let count = call.count(rt.alloc(), graph);
    let nanoseconds = start.elapsed(rt)?.as_nanos();
    println!(rt; "{size} nodes and edges: {count}")?;
    eprintln!(rt; "{nanoseconds} ns")?;
    Ok(())
}

fn time_graph(rt: &HostRuntime, words: &[String]) -> Result<(), TimesFailure> {
    if words.len() != 3 {
        return Err(TimesFailure::Usage);
    }
    let shape = TimedShape::from_name(&words[0]).ok_or(TimesFailure::Usage)?;
    let count = words[1].parse::<usize>().map_err(|_| TimesFailure::Usage)?;
    let call = TimedCall::from_name(&words[2]).ok_or(TimesFailure::Usage)?;
    let rows = rows_of(rt.alloc(), shape, count)?;
    let mut size = count;
    for row in &rows {
        size = size.saturating_add(row.len());
    }
    let graph = AdjacencyList::new(rt.alloc(), rows)?.ok_or(TimesFailure::Usage)?;
    time_call(rt, call, &graph, size)?;
    Ok(())
}

fn run(rt: &HostRuntime, words: &[String]) -> Result<(), TimesFailure> {
    let (word, rest) = words.split_first().ok_or(TimesFailure::Usage)?;
    if word.as_str() == "graph" {
        return time_graph(rt, rest);
    }
    let mut text = Vec::new(rt.alloc());
    match word.as_str() {
        "passes" => {
            rt.stdin().read_to_end(&mut text)?;
            let length = length_after(rt.alloc(), rest, &text)?;
            println!(rt; "{} bytes", length.ok_or(TimesFailure::Unreadable)?)?;
        }
        "text" if rest.is_empty() => {
            rt.stdin().read_to_end(&mut text)?;
            let printed = print_again(rt.alloc(), &text)?;
            rt.stdout()
                .write_all(printed.ok_or(TimesFailure::Unreadable)?.as_bytes())?;
        }
        _ => return Err(TimesFailure::Usage),
    }
    Ok(())
}

fn words_of(rt: &HostRuntime) -> io::Result<Vec<String>> {
    let mut words = Vec::new(rt.alloc());
    let mut args = env::args(rt)?;
    let _ = args.next();
    for word in args {
        words.push(word)?;
    }
    Ok(words)
}

fn main(rt: HostRuntime) -> ExitCode {
    let ended = match words_of(&rt) {
        Ok(words) => run(&rt, &words),
        Err(_) => Err(TimesFailure::Stream),
    };
    match ended {
        Ok(()) => ExitCode::from(0),
        Err(TimesFailure::Unreadable) => ExitCode::from(1),
        Err(TimesFailure::Refused) => ExitCode::from(1),
        Err(TimesFailure::Stream) => ExitCode::from(2),
        Err(TimesFailure::Usage) => {
            let _ = eprintln!(rt;
                "usage: plir_times graph SHAPE COUNT CALL, or passes NAME.., or text"
            );
            ExitCode::from(2)
        }
    }
}
