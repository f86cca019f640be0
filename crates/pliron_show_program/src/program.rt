//! What distinguishes one program with commands from another.
use clap::ArgMatches;
use pliron_show_commands::{Outcome, Runnable};
use std::io;

/// A program with commands for people, for the texts of a notation.
pub trait Program {
    /// The notation of its texts.
    type Text: Runnable;

    /// What it is called. Cost: constant.
    fn name() -> &'static str;

    /// What its help says of it first. Cost: constant.
    fn about() -> &'static str;

    /// What its help says last. Cost: constant.
    fn beside() -> &'static str {
        ""
    }

    /// The words of the operations that are texts by themselves. Cost: constant.
    fn roots() -> &'static [&'static str];

    /// What a message says of an operation that is no text by itself. Cost: constant.
    fn roots_label() -> &'static str {
        "only an operation that is a text by itself is taken alone"
    }

    /// What its help says of the option `--at`. Cost: constant.
    fn at_help() -> &'static str {
        "Take this operation of the text alone, which is a text by itself (`dot` and `explain`: any operation): numbers \
         with dots between them, as `0.1` for operation 1 of region 0, counted from 0; `0.1.0`, its region, says the same"
    }

    /// The names for `--dialect`; none where the program has one notation. Cost: constant.
    fn dialects() -> &'static [&'static str] {
        &[]
    }

    /// What its help says of the option `--dialect`. Cost: constant.
    fn dialect_help() -> &'static str {
        ""
    }

    /// What its help says of the option `--input` of `run`. Cost: constant.
    fn input_help() -> &'static str {
        "A value for the text's operation; once for each, in order"
    }

    /// What its help says of the option `--world` of `run`. Cost: constant.
    fn world_help() -> &'static str {
        "What the world answers to an effect; once for each, in order"
    }

    /// Whether `run` takes other data by these words than numbers of 64 signed bits. Cost: constant.
    fn takes_other_data(_run: &ArgMatches) -> bool {
        false
    }

    /// What the command makes of an input that isn't in the notation of its texts; `None` for one that is. Errors: those
    /// of the input; allocation failure. Cost: that of the command.
    fn other_outcome(
        _rt: &HostRuntime,
        _command: &str,
        _matches: &ArgMatches,
    ) -> io::Result<Option<Outcome>> {
        Ok(None)
    }
}
