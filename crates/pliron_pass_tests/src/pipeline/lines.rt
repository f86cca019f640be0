//! Passes under combinators over texts: what the call answers that promises what is kept, what it leaves
//! of the cache and of the text, and how many runs are counted.
ghost use Rattle.pliron_core.specs.Tree.{IsLive};
ghost use Rattle.pliron_laws.specs.Linked.{IsWellLinked};
ghost use Rattle.pliron_dialect_bench.specs.BenchMoves.{bench};

use super::nest::{Deep, deep};
use super::texts::write_facts;
use crate::expect::expect_text;
use pliron_core::{Context, IRStatus, Operation, Ptr};
use pliron_pass::{AnalysisManager, BenchFactKind, BenchFacts, OptError, PMConfig};
use pliron_pass_pipeline::run_pipeline;
use pliron_test_cases::cases::{CaseRow, read, row_of};
use pliron_text::print_text;
use std::alloc::Global;
use std::process::Abort;

// A name, the words of a pass, words for the cache and the configuration, and a text; then the answer, what is cached
// of the text's operation, how many runs are counted and how many the outermost `repeat` began, the facts with a total
// that is asked for then, and the text after. In the words `[` and `]` enclose a list, `nested`, `func`, `removing`,
// `repeat:N` and `fail:CODE` are before what they run. Blocks have the handles 0, 1, .. in the order of the text. All
// was worked out by hand.
static CASES: &str = "\
propagation keeps edges -- [ sccp ] | total | func { b0(): z = const 0; br b1(z); b1(i): r = read; cbr r b1(i) \
    b2(); b2(): ret i } => changed, edges 0-1 1-1 1-2; 1 runs, 0 begun; edges 0-1 1-1 1-2 size 6 total 9; func { \
    b0(): v0 = const 0; br b1(v0); b1(v1): v2 = const 0; v3 = read; cbr v3 b1(v2) b2(); b2(): ret v2 }
elimination of a box drops edges -- [ dce ] | edges | func { b0(): k = const 4; box { b0(): sink k }; ret } => \
    changed,; 1 runs, 0 begun; edges size 1 total 1; func { b0(): ret }
elimination of an argument keeps edges -- [ dce ] | total | func { b0(): x = const 1; br b1(x); b1(a): c = const \
    7; ret c } => changed, edges 0-1; 1 runs, 0 begun; edges 0-1 size 3 total 4; func { b0(): br b1(); b1(): v0 = \
    const 7; ret v0 }
simplification drops edges -- [ simplify-cfg ] | total | func { b0(): br b1(); b1(): br b2(); b2(): br b1() } => \
    changed,; 1 runs, 0 begun; edges 0-1 1-1 size 2 total 4; func { b0(): br b1(); b1(): br b1() }
propagation without a change -- [ sccp ] | total | func { b0(): ret } => unchanged, edges size 1 total 1; 1 runs, \
    0 begun; edges size 1 total 1; func { b0(): ret }
elimination without a change -- [ dce ] | total | func { b0(): ret } => unchanged, edges size 1 total 1; 1 runs, 0 \
    begun; edges size 1 total 1; func { b0(): ret }
simplification without a change -- [ simplify-cfg ] | total | func { b0(): ret } => unchanged, edges size 1 total \
    1; 1 runs, 0 begun; edges size 1 total 1; func { b0(): ret }
propagation keeps no size -- [ sccp ] | size | func { b0(): a = const 1; b = const 2; c = add a b; ret c } => \
    changed,; 1 runs, 0 begun; edges size 5 total 5; func { b0(): v0 = const 1; v1 = const 2; v2 = const 3; v3 = \
    add v0 v1; ret v2 }
a guard that bars a module -- func simplify-cfg | total | mod { b0(): func { b0(): br b1(); b1(): ret }; b1(): \
    func { b0(): br b1(); b1(): ret } } => unchanged, edges 1-2 4-5 size 6 total 8; 0 runs, 0 begun; edges 1-2 4-5 \
    size 6 total 8; mod { b0(): func { b0(): br b1(); b1(): ret }; b1(): func { b0(): br b1(); b1(): ret } }
a guard that allows functions -- nested func simplify-cfg | total | mod { b0(): func { b0(): br b1(); b1(): ret }; \
    b1(): func { b0(): br b1(); b1(): ret } } => changed,; 2 runs, 0 begun; edges size 4 total 4; mod { b0(): func \
    { b0(): ret }; b1(): func { b0(): ret } }
a list on each function -- nested [ simplify-cfg ] | total | mod { b0(): func { b0(): br b1(); b1(): ret }; b1(): \
    func { b0(): br b1(); b1(): ret } } => changed,; 2 runs, 0 begun; edges size 4 total 4; mod { b0(): func { \
    b0(): ret }; b1(): func { b0(): ret } }
a module's first block alone -- simplify-cfg | total | mod { b0(): func { b0(): br b1(); b1(): ret }; b1(): func { \
    b0(): br b1(); b1(): ret } } => changed,; 1 runs, 0 begun; edges 4-5 size 5 total 6; mod { b0(): func { b0(): \
    ret }; b1(): func { b0(): br b1(); b1(): ret } }
a failure in a list -- [ dce fail:7 dce ] | total | func { b0(): x = const 1; br b1(x); b1(a): c = const 7; ret c \
    } => the pass failed with code 7,; 2 runs, 0 begun; edges 0-1 size 3 total 4; func { b0(): br b1(); b1(): v0 = \
    const 7; ret v0 }
a failure that is skipped -- [ dce fail:7 dce ] | total skip=fail_after | func { b0(): x = const 1; br b1(x); \
    b1(a): c = const 7; ret c } => changed, edges 0-1; 1 runs, 0 begun; edges 0-1 size 3 total 4; func { b0(): br \
    b1(); b1(): v0 = const 7; ret v0 }
a failure that is skipped, and the list -- [ dce fail:7 dce ] | total skip=passes skip=fail_after | func { b0(): x \
    = const 1; br b1(x); b1(a): c = const 7; ret c } => changed, edges 0-1; 1 runs, 0 begun; edges 0-1 size 3 \
    total 4; func { b0(): br b1(); b1(): v0 = const 7; ret v0 }
a pass that is skipped -- dce | skip=dce | func { b0(): x = const 1; ret } => unchanged,; 0 runs, 0 begun; edges \
    size 2 total 2; func { b0(): v0 = const 1; ret }
two of three that are skipped -- [ sccp simplify-cfg dce ] | skip=simplify-cfg skip=sccp | func { b0(): x = const \
    1; ret } => changed,; 1 runs, 0 begun; edges size 1 total 1; func { b0(): ret }
a misfit, verified before -- dce | before | func { b0(): c = const 1; d = const 2; cbr c b1() b1(); b1(p): ret p } \
    => verification failed before the pass,; 0 runs, 0 begun; edges 0-1 0-1 size 4 total 6; func { b0(): v0 = \
    const 1; v1 = const 2; cbr v0 b1() b1(); b1(v2): ret v2 }
a misfit, verified after -- dce | after | func { b0(): c = const 1; d = const 2; cbr c b1() b1(); b1(p): ret p } \
    => verification failed after the pass,; 0 runs, 0 begun; edges 0-1 0-1 size 3 total 5; func { b0(): v0 = const \
    1; cbr v0 b1() b1(); b1(v1): ret v1 }
a failure outside a list -- fail:9 dce | size | func { b0(): x = const 1; br b1(x); b1(a): c = const 7; ret c } => \
    the pass failed with code 9, size 4; 1 runs, 0 begun; edges 0-1 size 4 total 5; func { b0(): br b1(); b1(): v0 \
    = const 7; ret v0 }
a failure in a list of its own -- [ fail:9 dce ] | size | func { b0(): x = const 1; br b1(x); b1(a): c = const 7; \
    ret c } => the pass failed with code 9,; 1 runs, 0 begun; edges 0-1 size 3 total 4; func { b0(): br b1(); \
    b1(): v0 = const 7; ret v0 }
a failure under a guard by opcode -- func fail:9 dce | size | func { b0(): x = const 1; br b1(x); b1(a): c = const \
    7; ret c } => the pass failed with code 9,; 1 runs, 0 begun; edges 0-1 size 3 total 4; func { b0(): br b1(); \
    b1(): v0 = const 7; ret v0 }
a failure under a guard by interface -- removing fail:9 dce | size | func { b0(): x = const 1; br b1(x); b1(a): c \
    = const 7; ret c } => the pass failed with code 9,; 1 runs, 0 begun; edges 0-1 size 3 total 4; func { b0(): br \
    b1(); b1(): v0 = const 7; ret v0 }
a guard by interface that bars -- removing fail:9 dce | size | mod { b0(): func { b0(): x = const 1; ret } } => \
    unchanged, size 3; 0 runs, 0 begun; edges size 3 total 3; mod { b0(): func { b0(): v0 = const 1; ret } }
a failure inside -- nested fail:9 dce | size | mod { b0(): func { b0(): x = const 1; br b1(x); b1(a): c = const 7; \
    ret c } } => the pass failed with code 9,; 1 runs, 0 begun; edges 1-2 size 4 total 5; mod { b0(): func { b0(): \
    br b1(); b1(): v0 = const 7; ret v0 } }
a failure in a round -- repeat:5 fail:9 dce | size | func { b0(): x = const 1; br b1(x); b1(a): c = const 7; ret c \
    } => the pass failed with code 9,; 1 runs, 1 begun; edges 0-1 size 3 total 4; func { b0(): br b1(); b1(): v0 = \
    const 7; ret v0 }
a refusal outside a list -- fail:9 simplify-cfg | total | func { b0(): ret v; b1(): v = const 1; br b1() } => a \
    value of an unreachable block is used, edges 1-1 size 3 total 4; 1 runs, 0 begun; edges 1-1 size 3 total 4; \
    func { b0(): ret v0; b1(): v0 = const 1; br b1() }
a refusal behind a change -- [ dce simplify-cfg dce ] | total | func { b0(): ret v; b1(): v = const 1; br b1() } \
    => a value of an unreachable block is used,; 2 runs, 0 begun; edges 1-1 size 3 total 4; func { b0(): ret v0; \
    b1(): v0 = const 1; br b1() }
simplification once -- simplify-cfg | total | func { b0(): a = const 1; br b1(a); b1(p): cbr p b2() b3(); b2(): \
    ret p; b3(): ret } => changed,; 1 runs, 0 begun; edges 0-2 0-3 size 4 total 6; func { b0(): v0 = const 1; cbr \
    v0 b1() b2(); b1(): ret v0; b2(): ret }
simplification until nothing changes -- repeat:8 simplify-cfg | total | func { b0(): a = const 1; br b1(a); b1(p): \
    cbr p b2() b3(); b2(): ret p; b3(): ret } => changed,; 3 runs, 3 begun; edges size 2 total 2; func { b0(): v0 \
    = const 1; ret v0 }
simplification in one round -- repeat:1 simplify-cfg | total | func { b0(): a = const 1; br b1(a); b1(p): cbr p \
    b2() b3(); b2(): ret p; b3(): ret } => changed,; 1 runs, 1 begun; edges 0-2 0-3 size 4 total 6; func { b0(): \
    v0 = const 1; cbr v0 b1() b2(); b1(): ret v0; b2(): ret }
simplification in no round -- repeat:0 simplify-cfg | total | func { b0(): br b1(); b1(): ret } => unchanged, \
    edges 0-1 size 2 total 3; 0 runs, 0 begun; edges 0-1 size 2 total 3; func { b0(): br b1(); b1(): ret }
propagation in three rounds -- repeat:3 sccp | total | func { b0(): a = const 1; b = const 2; c = add a b; ret c } \
    => changed, edges; 3 runs, 3 begun; edges size 7 total 7; func { b0(): v0 = const 1; v1 = const 2; v2 = const \
    3; v3 = const 3; v4 = const 3; v5 = add v0 v1; ret v2 }
a list until nothing changes -- repeat:8 [ sccp dce ] | total | func { b0(): a = const 1; b = const 2; c = add a \
    b; ret c } => changed, edges; 4 runs, 2 begun; edges size 2 total 2; func { b0(): v0 = const 3; ret v0 }
the greatest count of runs -- dce | most | func { b0(): x = const 1; ret } => changed,; 18446744073709551615 runs, \
    0 begun; edges size 1 total 1; func { b0(): ret }
each combinator in a list -- [ sccp nested [ simplify-cfg dce ] repeat:3 [ sccp dce ] func sccp removing dce ] | \
    total | mod { b0(): func { b0(): a = const 1; br b1(a); b1(p): cbr p b2() b3(); b2(): ret p; b3(): ret }; func \
    { b0(): k = const 4; box { b0(): sink k }; ret } } => changed,; 7 runs, 0 begun; edges size 5 total 5; mod { \
    b0(): func { b0(): v0 = const 1; ret v0 }; func { b0(): ret } }
rounds inside -- nested repeat:4 [ simplify-cfg dce ] | total | mod { b0(): func { b0(): a = const 1; br b1(a); \
    b1(p): cbr p b2() b3(); b2(): ret p; b3(): ret }; func { b0(): ret } } => changed,; 8 runs, 0 begun; edges \
    size 5 total 5; mod { b0(): func { b0(): v0 = const 1; ret v0 }; func { b0(): ret } }
an inside in rounds -- repeat:5 nested [ sccp simplify-cfg dce ] | total | mod { b0(): func { b0(): a = const 1; \
    br b1(a); b1(p): cbr p b2() b3(); b2(): ret p; b3(): ret }; func { b0(): k = const 4; box { b0(): sink k }; \
    ret } } => changed,; 12 runs, 2 begun; edges size 5 total 5; mod { b0(): func { b0(): v0 = const 1; ret v0 }; \
    func { b0(): ret } }
a failure in the second pass inside -- nested [ dce fail:3 sccp ] | total | mod { b0(): func { b0(): x = const 1; \
    ret }; func { b0(): y = const 2; ret } } => the pass failed with code 3,; 2 runs, 0 begun; edges size 5 total \
    5; mod { b0(): func { b0(): ret }; func { b0(): v0 = const 2; ret } }";

// Sets what a word says, or computes the facts that it names.
fn set_word(
    rt: &impl Abort,
    alloc: Global,
    word: &str,
    config: &mut PMConfig,
    analyses: &mut AnalysisManager<BenchFacts>,
) {
    if let Some((_, name)) = word.split_once("=") {
        let name = name.to_string(alloc).expect(rt, "memory");
        config.skip_passes.insert(name).expect(rt, "memory");
    }
    config.verify_before_all |= word == "before";
    config.verify_after_all |= word == "after";
    if word == "most" {
        analyses.pm_data_mut().state_mut().pass_run_count = usize::MAX;
    }
}

// Computes the facts of the operation that a word names, if it names some.
fn compute_word(
    rt: &impl Abort,
    word: &str,
    analyses: &mut AnalysisManager<BenchFacts>,
    op: Ptr<Operation>,
    ctx: &Context,
)
    requires { IsLive ctx.now.tree op }
{
    let kind = match word {
        "edges" => BenchFactKind::Edges,
        "size" => BenchFactKind::Size,
        "total" => BenchFactKind::Total,
        _ => return,
    };
    analyses
        .compute_analysis(kind, op, ctx)
        .expect(rt, "memory");
}

// Sets what the words say.
fn set_words(
    rt: &impl Abort,
    alloc: Global,
    words: &str,
    analyses: &mut AnalysisManager<BenchFacts>,
    op: Ptr<Operation>,
    ctx: &Context,
)
    requires { IsLive ctx.now.tree op }
{
    let mut config = PMConfig::new(alloc);
    for word in words.split_ascii_whitespace() {
        set_word(rt, alloc, word, &mut config, analyses);
        compute_word(rt, word, analyses, op, ctx);
    }
    analyses.set_config(config);
}

// Writes the answer in words.
fn write_answer(rt: &impl Abort, text: &mut String, answer: &Result<IRStatus, OptError>) {
    match answer {
        Ok(IRStatus::Changed) => text.push_str("changed,").expect(rt, "memory"),
        Ok(IRStatus::Unchanged) => text.push_str("unchanged,").expect(rt, "memory"),
        Err(fault) => write!(text, "{fault},").expect(rt, "memory"),
    }
}

// Writes what is cached and counted.
fn write_counts(
    rt: &impl Abort,
    text: &mut String,
    begun: usize,
    analyses: &AnalysisManager<BenchFacts>,
    op: Ptr<Operation>,
) {
    write_facts(rt, text, analyses, op);
    let runs = analyses.pm_data().state().pass_run_count;
    write!(text, "; {runs} runs, {begun} begun;").expect(rt, "memory");
}

// Writes what the facts are with a total that is asked for then, and what is left.
fn write_rest(
    rt: &impl Abort,
    alloc: Global,
    text: &mut String,
    analyses: &mut AnalysisManager<BenchFacts>,
    op: Ptr<Operation>,
    ctx: &Context,
)
    requires { IsLive ctx.now.tree op }
{
    analyses
        .compute_analysis(BenchFactKind::Total, op, ctx)
        .expect(rt, "memory");
    write_facts(rt, text, analyses, op);
    let printed = print_text(alloc, op, ctx).expect(rt, "memory");
    write!(text, "; {printed}").expect(rt, "memory");
}

// What comes of the pass on the operation.
fn run_on(
    rt: &impl Abort,
    alloc: Global,
    pass: &mut Deep,
    op: Ptr<Operation>,
    ctx: &mut Context,
    analyses: &mut AnalysisManager<BenchFacts>,
) -> String
    requires live { IsLive ctx.old.tree op }
    requires linked { IsWellLinked bench ctx.old.tree op }
{
    let mut text = String::new(alloc);
    let answer = run_pipeline(pass, alloc, op, ctx, analyses);
    write_answer(rt, &mut text, &answer);
    write_counts(rt, &mut text, pass.inner_runs_begun(), analyses, op);
    write_rest(rt, alloc, &mut text, analyses, op, ctx);
    text
}

// What comes of the words of a case.
fn run_case(
    rt: &impl Abort,
    alloc: Global,
    case: &str,
    ctx: &mut Context,
    analyses: &mut AnalysisManager<BenchFacts>,
) -> String {
    let (words, rest) = case.split_once(" | ").expect(rt, "a pass");
    let (settings, text) = rest.split_once(" | ").expect(rt, "settings");
    let root = read(alloc, ctx, text).expect(rt, "a text");
    set_words(rt, alloc, settings, analyses, root, ctx);
    let mut pass = deep(rt, alloc, words);
    run_on(rt, alloc, &mut pass, root, ctx, analyses)
}

fn check(rt: &impl Abort, alloc: Global, line: &str) {
    let CaseRow { name, asked, want } = row_of(line).expect(rt, "a case");
    let mut ctx = Context::new(alloc);
    let mut analyses = AnalysisManager::<BenchFacts>::new(alloc);
    let said = run_case(rt, alloc, asked, &mut ctx, &mut analyses);
    expect_text(rt, said.as_str(), want, name);
}

#[test]
fn lines_of_passes(rt: HostRuntime) {
    for line in CASES.lines() {
        check(&rt, rt.alloc(), line);
    }
}
