//! A caller's enum over each combinator, which nests as deep as its type says, and how one is made of words.
ghost use Rattle.std.specs.Prelude.{true, false, [], ◌∷◌, ⊤};
ghost use Rattle.pliron_pass.specs.Combined.{guarded_name, nested_name, passes_name};
ghost use Rattle.pliron_pass.specs.Repeating.{repeat_name};
ghost use Rattle.pliron_pass_tests.specs.declared.pipeline.nest.Nest.TheVariants.{One as AOne, Line as ALine, Inside as AInside, Func as AFunc, Removing as ARemoving, Again as AAgain, Failing as AFailing};

use super::failing::FailAfter;
use pliron_core::{Context, Operation, Ptr};
use pliron_dialect_bench::{Bench, BenchKind};
use pliron_dialect_edges::BranchesAtOnce;
use pliron_laws::{Dialect, Interface};
use pliron_pass::{
    Analyses, AnalysisKind, AnalysisManager, BenchFacts, GuardedPass, NestedOpsPass, OpGuard,
    OpInterfaceGuard, OpInterfacePass, OpPass, OptError, Pass, PassResult, Passes, Repeat,
};
use pliron_pass_pipeline::PassStep;
use pliron_test_cases::cases;
use std::alloc::Global;
use std::process::Abort;
use std::str::SplitAsciiWhitespace;

/// A pass, or a combinator over such passes.
#[derive(Drop)]
pub enum Nest<P: Pass> {
    One(P),
    Line(Passes<P>),
    Inside(NestedOpsPass<P>),
    Func(OpPass<Bench, P>),
    Removing(OpInterfacePass<Bench, P>),
    Again(Repeat<P>),
    Failing(FailAfter<P>),
}

// What is kept needs no outcome, so this one says nothing.
impl<P: Pass> Pass for Nest<P> {
    type D = P::D;

    type E = P::E;

    ghost is_pass_manager = { elim [
      | AOne p ↦ P.is_pass_manager p
      | ALine p ↦ true
      | AInside p ↦ true
      | AFunc p ↦ true
      | ARemoving p ↦ true
      | AAgain p ↦ true
      | AFailing p ↦ false
    ] };

    ghost name = { elim [
      | AOne p ↦ P.name p
      | ALine p ↦ passes_name
      | AInside p ↦ nested_name
      | AFunc p ↦ guarded_name
      | ARemoving p ↦ guarded_name
      | AAgain p ↦ repeat_name
      | AFailing p ↦ 0x66 ∷ 0x61 ∷ 0x69 ∷ 0x6c ∷ 0x5f ∷ 0x61 ∷ 0x66 ∷ 0x74 ∷ 0x65 ∷ 0x72 ∷ []
    ] };

    ghost outcome = { λ p p' op s s' r. ⊤ };

    fn name(&self) -> &str {
        match self {
            Nest::One(pass) => pass.name(),
            Nest::Line(passes) => passes.name(),
            Nest::Inside(pass) => pass.name(),
            Nest::Func(pass) => pass.name(),
            Nest::Removing(pass) => pass.name(),
            Nest::Again(pass) => pass.name(),
            Nest::Failing(pass) => pass.name(),
        }
    }

    fn run(
        &mut self,
        alloc: Global,
        op: Ptr<Operation>,
        ctx: &mut Context,
        analyses: &mut AnalysisManager<P::E>,
    ) -> Result<PassResult<<P::E as AnalysisKind>::Kind>, OptError> {
        match self {
            Nest::One(pass) => pass.run(alloc, op, ctx, analyses),
            Nest::Line(passes) => passes.run(alloc, op, ctx, analyses),
            Nest::Inside(pass) => pass.run(alloc, op, ctx, analyses),
            Nest::Func(pass) => pass.run(alloc, op, ctx, analyses),
            Nest::Removing(pass) => pass.run(alloc, op, ctx, analyses),
            Nest::Again(pass) => pass.run(alloc, op, ctx, analyses),
            Nest::Failing(pass) => pass.run(alloc, op, ctx, analyses),
        }
    }

    fn is_pass_manager(&self) -> bool {
        match self {
            Nest::One(pass) => pass.is_pass_manager(),
            Nest::Line(pass) => pass.is_pass_manager(),
            Nest::Inside(pass) => pass.is_pass_manager(),
            Nest::Func(pass) => pass.is_pass_manager(),
            Nest::Removing(pass) => pass.is_pass_manager(),
            Nest::Again(pass) => pass.is_pass_manager(),
            Nest::Failing(pass) => pass.is_pass_manager(),
        }
    }
}

impl<P: Pass> Nest<P> {
    /// How many inner runs the latest run began, where this is a repeated pass.
    pub fn inner_runs_begun(&self) -> usize {
        match self {
            Nest::Again(pass) => pass.runs(),
            _ => 0,
        }
    }
}

/// A pass that is made of words.
pub trait Build: Pass + Drop {
    /// The pass that begins with this word and continues with these.
    fn build<A: Abort>(
        rt: &A,
        alloc: Global,
        word: &str,
        rest: &mut SplitAsciiWhitespace<'_>,
    ) -> Self;
}

impl<D: Dialect + BranchesAtOnce, E: Analyses + Drop> Build for PassStep<D, E> {
    fn build<A: Abort>(
        rt: &A,
        _alloc: Global,
        word: &str,
        _rest: &mut SplitAsciiWhitespace<'_>,
    ) -> Self {
        PassStep::from_name(word).expect(rt, "a pass")
    }
}

// The pass of the next word.
fn next<A: Abort, P: Build>(rt: &A, alloc: Global, rest: &mut SplitAsciiWhitespace<'_>) -> P {
    let word = rest.next().expect(rt, "one more word");
    P::build(rt, alloc, word, rest)
}

// The passes up to the closing bracket.
fn line<A: Abort, P: Build>(
    rt: &A,
    alloc: Global,
    rest: &mut SplitAsciiWhitespace<'_>,
) -> Passes<P> {
    let mut passes = Passes::new(alloc);
    for _ in 0..9 {
        let word = rest.next().expect(rt, "a bracket");
        if word == "]" {
            break;
        }
        let pass = P::build(rt, alloc, word, rest);
        assert!(rt; passes.add_pass(pass).is_ok());
    }
    passes
}

// The number after the colon.
fn number<A: Abort>(rt: &A, word: &str) -> usize {
    let (_, digits) = word.split_once(":").expect(rt, "a colon");
    cases::number(digits).expect(rt, "a number")
}

impl<P: Build> Build for Nest<P> {
    fn build<A: Abort>(
        rt: &A,
        alloc: Global,
        word: &str,
        rest: &mut SplitAsciiWhitespace<'_>,
    ) -> Self {
        if word == "[" {
            Nest::Line(line(rt, alloc, rest))
        } else if word == "nested" {
            Nest::Inside(NestedOpsPass::new(next(rt, alloc, rest)))
        } else if word == "func" {
            let guard = OpGuard::new(BenchKind::Func);
            Nest::Func(GuardedPass::new(guard, next(rt, alloc, rest)))
        } else if word == "removing" {
            let guard = OpInterfaceGuard::new(Interface::BlockArgRemoval);
            Nest::Removing(GuardedPass::new(guard, next(rt, alloc, rest)))
        } else if word.starts_with("repeat:") {
            let max = number(rt, word);
            Nest::Again(Repeat::new(max, next(rt, alloc, rest)))
        } else if word.starts_with("fail:") {
            let code = u32::try_from(number(rt, word)).unwrap_or(u32::MAX);
            let pass = next(rt, alloc, rest);
            Nest::Failing(FailAfter { code, pass })
        } else {
            Nest::One(P::build(rt, alloc, word, rest))
        }
    }
}

/// A pass under up to three combinators, one in another.
pub type Deep = Nest<Nest<Nest<PassStep<Bench, BenchFacts>>>>;

/// The pass of these words.
pub fn deep(rt: &impl Abort, alloc: Global, words: &str) -> Deep {
    let mut rest = words.split_ascii_whitespace();
    next(rt, alloc, &mut rest)
}
