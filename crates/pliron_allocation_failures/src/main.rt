//! What a refused request of memory leaves: optimisations, combinators, the cache and a fold with two answered
//! results, one call after the other. Where the Nth request is refused, all calls but one have ample memory.
//!
//! Run it with each request refused in turn: `tools/refuse_memory --tests`. A line is written for each call
//! that leaves what it shouldn't. The status is 3 where a call was refused and left what it should, else 0.
#![tactic(auto)]

mod cache;
mod combinators;
mod observation;
mod optimisations;
mod pairs;

use observation::Observation;
use pliron_laws::OptError;
use std::process::ExitCode;

/// More cases than there are of any kind.
const CASES: usize = 100;

// Takes note of what is seen: writes a line where it is wrong, and answers whether the call was refused.
fn is_refused(
    rt: &HostRuntime,
    name: &str,
    number: usize,
    found: Result<Observation, OptError>,
) -> bool {
    let seen = Observation::of(found);
    if seen == Observation::Wrong {
        let _ = println!(rt; "{name} {number}");
    }
    seen == Observation::Refused
}

fn main(rt: HostRuntime) -> ExitCode {
    let alloc = rt.alloc();
    let mut refused = is_refused(&rt, "computing", 0, cache::check_computing(alloc));
    refused |= is_refused(&rt, "preserving", 0, cache::check_preserving(alloc));
    refused |= is_refused(&rt, "adding", 0, cache::check_adding(alloc));
    refused |= is_refused(&rt, "pair", 0, pairs::check_folding(alloc));
    for number in 0..CASES {
        if let Some(found) = optimisations::nth_check(alloc, number) {
            refused |= is_refused(&rt, "optimisation", number, found);
        }
        if let Some(found) = combinators::nth_check(alloc, number) {
            refused |= is_refused(&rt, "combinator", number, found);
        }
    }
    ExitCode::from(if refused { 3 } else { 0 })
}
