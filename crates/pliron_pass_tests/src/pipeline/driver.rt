//! A driver, as docs/DRIVERS.md shows it.
use crate::expect::expect_text;
use pliron_core::Context;
use pliron_dialect_bench::Bench;
use pliron_pass::{AnalysisManager, BenchFacts, OptError, Passes};
use pliron_pass_pipeline::{PassStep, run_pipeline};
use pliron_text::{print_text, read_text};
use std::alloc::Global;
use std::process::Abort;

/// What came of a text.
#[derive(Drop)]
enum Answer<'n> {
    Optimised(String),
    NoSuchPass(&'n str),
    Unreadable,
}

// What the passes of these names make of a text; nothing is run where no pass has one of the names.
fn optimise_by_names<'n>(
    alloc: Global,
    names: &[&'n str],
    text: &str,
    ctx: &mut Context,
) -> Result<Answer<'n>, OptError> {
    let mut passes = Passes::<PassStep<Bench, BenchFacts>>::new(alloc);
    for name in names {
        match PassStep::from_name(name) {
            Some(step) => passes.add_pass(step)?,
            None => return Ok(Answer::NoSuchPass(name)),
        }
    }
    let Some(root) = read_text(alloc, text.as_bytes(), ctx)? else {
        return Ok(Answer::Unreadable);
    };
    let mut analyses = AnalysisManager::new(alloc);
    run_pipeline(&mut passes, alloc, root, ctx, &mut analyses)?;
    Ok(Answer::Optimised(print_text(alloc, root, ctx)?))
}

fn check_in(
    rt: &impl Abort,
    alloc: Global,
    names: &[&str],
    text: &str,
    want: &str,
    ctx: &mut Context,
) {
    let answer = optimise_by_names(alloc, names, text, ctx).expect(rt, "memory");
    match answer {
        Answer::Optimised(printed) => expect_text(rt, printed.as_str(), want, text),
        Answer::NoSuchPass(name) => expect_text(rt, name, want, text),
        Answer::Unreadable => expect_text(rt, "unreadable", want, text),
    }
}

fn check(rt: &impl Abort, alloc: Global, names: &[&str], text: &str, want: &str) {
    let mut ctx = Context::new(alloc);
    check_in(rt, alloc, names, text, want, &mut ctx);
}

#[test]
fn drives(rt: HostRuntime) {
    let names = ["sccp", "simplify-cfg", "dce"];
    let text =
        "func { b0(): c = const 1; x = const 5; cbr c b1(x) b2(); b1(p): br b3(p); b2(): y = const 6; br b3(y); b3(q): ret q }";
    check(
        &rt,
        rt.alloc(),
        &names,
        text,
        "func { b0(): v0 = const 5; ret v0 }",
    );
    check(
        &rt,
        rt.alloc(),
        &names,
        "func { b0(): ret y }",
        "unreadable",
    );
    check(&rt, rt.alloc(), &["sccp", "dec"], text, "dec");
}
