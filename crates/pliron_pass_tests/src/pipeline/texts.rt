//! What the ready-made analyses say in words.
use pliron_core::{Context, Operation, Ptr};
use pliron_pass::{AnalysisManager, BenchFactKind, BenchFacts};
use std::alloc::Global;
use std::process::Abort;

pub static KINDS: [BenchFactKind; 3] = [
    BenchFactKind::Edges,
    BenchFactKind::Size,
    BenchFactKind::Total,
];

/// Writes what the fact says.
pub fn write_fact(rt: &impl Abort, text: &mut String, fact: &BenchFacts) {
    match fact {
        BenchFacts::Edges(pairs) => {
            text.push_str(" edges").expect(rt, "memory");
            for (from, to) in pairs {
                write!(text, " {}-{}", from.key(), to.key()).expect(rt, "memory");
            }
        }
        BenchFacts::Size(count) => write!(text, " size {count}").expect(rt, "memory"),
        BenchFacts::Total(count) => write!(text, " total {count}").expect(rt, "memory"),
    }
}

/// Writes what the cached facts of the operation say.
pub fn write_facts(
    rt: &impl Abort,
    text: &mut String,
    analyses: &AnalysisManager<BenchFacts>,
    op: Ptr<Operation>,
) {
    for kind in KINDS {
        if let Some(fact) = analyses.try_get_analysis(kind, op) {
            write_fact(rt, text, fact);
        }
    }
}
