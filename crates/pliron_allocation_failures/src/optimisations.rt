//! The optimisations on texts, and the trees that whole rewrites make of each.
ghost use Rattle.pliron_dialect_bench.specs.BenchMoves.{bench};
ghost use Rattle.pliron_core.specs.Tree.{IsLive};
ghost use Rattle.pliron_laws.specs.Linked.{IsWellLinked};

use crate::observation::Observation;
use pliron_core::{Context, IRStatus, Operation, Ptr};
use pliron_dialect_bench::Bench;
use pliron_laws::OptError;
use pliron_opt_canonicalize::canonicalize;
use pliron_opt_cfg::simplify_cfg;
use pliron_opt_cse::cse;
use pliron_opt_dce::dce;
use pliron_opt_edges::thread_edges;
use pliron_opt_sccp::sccp;
use pliron_text::{print_text, read_text};
use std::alloc::Global;

/// An optimisation, a text, and the trees after some whole rewrites of it, worked by hand. The last one is the
/// answer. Where rewrites may come in several orders, each order's trees are there.
static CASES: &str = "\
sccp | func { b0(): z = const 0; br b1(z); b1(i): r = read; cbr r b1(i) b2(); b2(): ret i } \
    | func { b0(): v0 = const 0; br b1(v0); b1(v1): v2 = read; cbr v2 b1(v1) b2(); b2(): ret v1 } \
    | func { b0(): v0 = const 0; br b1(v0); b1(v1): v2 = const 0; v3 = read; cbr v3 b1(v2) b2(); b2(): ret v2 }
sccp | func { b0(): l, r = pair; sink l l r r; br b1(l, r); b1(a, b): k = const 99; ret k } \
    | func { b0(): v0, v1 = pair; sink v0 v0 v1 v1; br b1(v0, v1); b1(v2, v3): v4 = const 99; ret v4 }
sccp | func { b0(): c = const 1; x = const 5; cbr c b1(x) b2(); b1(p): br b3(p); b2(): y = const 6; br b3(y); b3(q): ret q } \
    | func { b0(): v0 = const 1; v1 = const 5; cbr v0 b1(v1) b2(); b1(v2): br b3(v2); b2(): v3 = const 6; br b3(v3); b3(v4): ret v4 } \
    | func { b0(): v0 = const 1; v1 = const 5; cbr v0 b1(v1) b2(); b1(v2): v3 = const 5; br b3(v3); b2(): v4 = const 6; br b3(v4); b3(v5): ret v5 } \
    | func { b0(): v0 = const 1; v1 = const 5; cbr v0 b1(v1) b2(); b1(v2): v3 = const 5; br b3(v3); b2(): v4 = const 6; br b3(v4); \
        b3(v5): v6 = const 5; ret v6 }
dce | func { b0(): z = const 0; br b1(z); b1(i): r = read; cbr r b1(i) b2(); b2(): ret i } \
    | func { b0(): v0 = const 0; br b1(v0); b1(v1): v2 = read; cbr v2 b1(v1) b2(); b2(): ret v1 }
dce | func { b0(): l, r = pair; sink l l r r; br b1(l, r); b1(a, b): k = const 99; ret k } \
    | func { b0(): v0, v1 = pair; sink v0 v0 v1 v1; br b1(v0, v1); b1(v2, v3): v4 = const 99; ret v4 } \
    | func { b0(): v0, v1 = pair; sink v0 v0 v1 v1; br b1(v1); b1(v2): v3 = const 99; ret v3 } \
    | func { b0(): v0, v1 = pair; sink v0 v0 v1 v1; br b1(v0); b1(v2): v3 = const 99; ret v3 } \
    | func { b0(): v0, v1 = pair; sink v0 v0 v1 v1; br b1(); b1(): v2 = const 99; ret v2 } \
    | func { b0(): v0, v1 = pair; br b1(v0, v1); b1(v2, v3): v4 = const 99; ret v4 } \
    | func { b0(): v0, v1 = pair; br b1(v1); b1(v2): v3 = const 99; ret v3 } \
    | func { b0(): v0, v1 = pair; br b1(v0); b1(v2): v3 = const 99; ret v3 } \
    | func { b0(): v0, v1 = pair; br b1(); b1(): v2 = const 99; ret v2 } \
    | func { b0(): br b1(); b1(): v0 = const 99; ret v0 }
dce | func { b0(): c = const 1; x = const 5; cbr c b1(x) b2(); b1(p): br b3(p); b2(): y = const 6; br b3(y); b3(q): ret q } \
    | func { b0(): v0 = const 1; v1 = const 5; cbr v0 b1(v1) b2(); b1(v2): br b3(v2); b2(): v3 = const 6; br b3(v3); b3(v4): ret v4 }
simplify-cfg | func { b0(): z = const 0; br b1(z); b1(i): r = read; cbr r b1(i) b2(); b2(): ret i } \
    | func { b0(): v0 = const 0; br b1(v0); b1(v1): v2 = read; cbr v2 b1(v1) b2(); b2(): ret v1 }
simplify-cfg | func { b0(): l, r = pair; sink l l r r; br b1(l, r); b1(a, b): k = const 99; ret k } \
    | func { b0(): v0, v1 = pair; sink v0 v0 v1 v1; br b1(v0, v1); b1(v2, v3): v4 = const 99; ret v4 } \
    | func { b0(): v0, v1 = pair; sink v0 v0 v1 v1; v2 = const 99; ret v2 }
simplify-cfg | func { b0(): c = const 1; x = const 5; cbr c b1(x) b2(); b1(p): br b3(p); b2(): y = const 6; br b3(y); b3(q): ret q } \
    | func { b0(): v0 = const 1; v1 = const 5; cbr v0 b1(v1) b2(); b1(v2): br b3(v2); b2(): v3 = const 6; br b3(v3); b3(v4): ret v4 } \
    | func { b0(): v0 = const 1; v1 = const 5; br b1(v1); b1(v2): br b3(v2); b2(): v3 = const 6; br b3(v3); b3(v4): ret v4 } \
    | func { b0(): v0 = const 1; v1 = const 5; br b1(v1); b1(v2): br b2(v2); b2(v3): ret v3 } \
    | func { b0(): v0 = const 1; v1 = const 5; br b1(v1); b1(v2): br b2(v1); b2(v3): ret v3 } \
    | func { b0(): v0 = const 1; v1 = const 5; br b1(v1); b1(v2): br b2(v2); b2(v3): ret v2 } \
    | func { b0(): v0 = const 1; v1 = const 5; br b1(v1); b1(v2): ret v2 } \
    | func { b0(): v0 = const 1; v1 = const 5; br b1(v1); b1(v2): ret v1 } \
    | func { b0(): v0 = const 1; v1 = const 5; ret v1 }
cse | func { b0(x): a = add x x; b = add x x; sink a a b; c = mul a b; d = mul b a; print c; print c; print d; ret b d } \
    | func { b0(v0): v1 = add v0 v0; v2 = add v0 v0; sink v1 v1 v2; v3 = mul v1 v2; v4 = mul v2 v1; print v3; print v3; print v4; ret v2 v4 } \
    | func { b0(v0): v1 = add v0 v0; sink v1 v1 v1; v2 = mul v1 v1; v3 = mul v1 v1; print v2; print v2; print v3; ret v1 v3 } \
    | func { b0(v0): v1 = add v0 v0; sink v1 v1 v1; v2 = mul v1 v1; print v2; print v2; print v2; ret v1 v2 }
cse | func { b0(): l, r = pair; s, t = pair; print l; print r; sink l r s t; ret s t } \
    | func { b0(): v0, v1 = pair; v2, v3 = pair; print v0; print v1; sink v0 v1 v2 v3; ret v2 v3 } \
    | func { b0(): v0, v1 = pair; v2, v3 = pair; print v0; print v1; sink v0 v1 v0 v3; ret v0 v3 } \
    | func { b0(): v0, v1 = pair; print v0; print v1; sink v0 v1 v0 v1; ret v0 v1 }
cse | func { b0(x): sink x; scope x { b0(p): sink x; sink p; sink p; ret }; ret } \
    | func { b0(v0): sink v0; scope v0 { b0(v1): sink v0; sink v1; sink v1; ret }; ret } \
    | func { b0(v0): sink v0; scope v0 { b0(v1): sink v1; sink v1; ret }; ret } \
    | func { b0(v0): sink v0; scope v0 { b0(v1): sink v1; ret }; ret }
cse | func { b0(x): r = read; cbr r b1() b2(); b1(): a = add x x; ret a; b2(): b = add x x; ret b } \
    | func { b0(v0): v1 = read; cbr v1 b1() b2(); b1(): v2 = add v0 v0; ret v2; b2(): v3 = add v0 v0; ret v3 }
canonicalize | func { b0(x): z = const 0; a = mul x z; b = div a x; ret a b } \
    | func { b0(v0): v1 = const 0; v2 = mul v0 v1; v3 = div v2 v0; ret v2 v3 } \
    | func { b0(v0): v1 = const 0; v2 = mul v0 v1; v3 = div v1 v0; ret v1 v3 } \
    | func { b0(v0): v1 = const 0; v2 = mul v0 v1; v3 = div v1 v0; ret v1 v1 }
canonicalize | func { b0(x): a = div x x; br b1(a); b1(p): ret p p } \
    | func { b0(v0): v1 = div v0 v0; br b1(v1); b1(v2): ret v2 v2 } \
    | func { b0(v0): v1 = const 1; v2 = div v0 v0; br b1(v1); b1(v3): ret v3 v3 } \
    | func { b0(v0): v1 = div v0 v0; br b1(v1); b1(v2): ret v1 v1 } \
    | func { b0(v0): v1 = const 1; v2 = div v0 v0; br b1(v1); b1(v3): ret v1 v1 }
thread-edges | func { b0(x): cbr x b1() b2(); b1(): br b2(); b2(): br b3(); b3(): ret } \
    | func { b0(v0): cbr v0 b1() b2(); b1(): br b2(); b2(): br b3(); b3(): ret } \
    | func { b0(v0): cbr v0 b3() b3(); b1(): br b2(); b2(): br b3(); b3(): ret } \
    | func { b0(v0): cbr v0 b3() b3(); b1(): br b3(); b2(): br b3(); b3(): ret }";

// Runs the optimisation of this name.
fn run(
    alloc: Global,
    name: &str,
    root: Ptr<Operation>,
    ctx: &mut Context,
) -> Result<IRStatus, OptError>
    requires live { IsLive ctx.old.tree root }
    requires linked { IsWellLinked bench ctx.old.tree root }
{
    match name {
        "sccp" => sccp::<Bench>(alloc, root, ctx),
        "dce" => dce::<Bench>(alloc, root, ctx),
        "cse" => cse::<Bench>(alloc, root, ctx),
        "canonicalize" => canonicalize::<Bench>(alloc, root, ctx),
        "thread-edges" => thread_edges::<Bench>(alloc, root, ctx),
        _ => simplify_cfg::<Bench>(alloc, root, ctx),
    }
}

// Whether one of the trees, which ` | ` sets apart, is printed so.
fn is_one_of(trees: &str, line: &str) -> bool {
    trees.split('|').any(|tree| tree.trim() == line)
}

/// What is seen of an optimisation with this answer that left this line. On its way it passes through these trees; the
/// last is the wanted one. Cost: linear in the trees.
pub fn seen_of<T>(answer: &Result<T, OptError>, trees: &str, line: &str) -> Observation {
    match answer {
        Ok(_) => Observation::of_answer(
            trees.rsplit_once('|').map_or(trees, |ends| ends.1).trim() == line,
        ),
        Err(OptError::Memory) => Observation::of_refusal(is_one_of(trees, line)),
        Err(_) => Observation::Wrong,
    }
}

// Checks the case in this context, which is empty.
fn check_in(alloc: Global, case: &str, ctx: &mut Context) -> Result<Observation, OptError> {
    let Some((name, rest)) = case.split_once(" | ") else {
        return Ok(Observation::Wrong);
    };
    let Some((text, trees)) = rest.split_once(" | ") else {
        return Ok(Observation::Wrong);
    };
    let Some(root) = read_text(alloc, text.as_bytes(), ctx)? else {
        return Ok(Observation::Wrong);
    };
    let answer = run(alloc, name, root, ctx);
    if !root.is_live(ctx) {
        return Ok(Observation::Wrong);
    }
    let line = print_text(alloc, root, ctx)?;
    Ok(seen_of(&answer, trees, &line))
}

fn check_case(alloc: Global, case: &str) -> Result<Observation, OptError> {
    let mut ctx = Context::new(alloc);
    check_in(alloc, case, &mut ctx)
}

/// What is seen of the optimisation of the case with this number; none past the last one. Errors: allocation
/// failure beside the optimisation. Cost: constant.
pub fn nth_check(alloc: Global, number: usize) -> Option<Result<Observation, OptError>> {
    let case = CASES.lines().nth(number)?;
    Some(check_case(alloc, case))
}
