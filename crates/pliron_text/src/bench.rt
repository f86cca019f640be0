//! The bench notation: the texts of `Bench`.
ghost use Rattle.std.specs.Prelude.{◌≡◌, ◌+◌, ◌≤◌, length, None, IfOk, IfSome, OnErr, IsOkUnless};
ghost use Rattle.pliron_core.specs.Tree.{IsLive};
ghost use Rattle.pliron_core.specs.Changes.{IsSameTree};
ghost use Rattle.pliron_laws.specs.declared.fault.OptError.TheVariants.{Memory};
ghost use Rattle.pliron_laws.specs.Linked.{IsWellLinked};
ghost use Rattle.pliron_dialect_bench.specs.BenchMoves.{bench};
ghost use Rattle.pliron_text.specs.Building.{IsGrown};

use crate::grammar::{Body, Count, Grammar, Tail};
use crate::printer::print_operation;
use crate::reader::{TextFault, find_fault, read_operation};
use crate::word_table::Word;
use pliron_core::{Context, Operation, Ptr};
use pliron_dialect_bench::BenchKind;
use pliron_laws::OptError;
use std::alloc::Global;

impl Word for BenchKind {
    fn from_word(word: &[u8]) -> Option<BenchKind> {
        BenchKind::from_word(word)
    }

    fn word(self) -> &'static str {
        BenchKind::word(self)
    }
}

impl Grammar for BenchKind {
    fn around() -> Body {
        Body::Module
    }

    fn most_results() -> usize {
        2
    }

    #[inline(always)]
    fn is_top(self) -> bool {
        BenchKind::is_top(self)
    }

    #[inline(always)]
    fn body(self) -> Body {
        match self {
            BenchKind::Mod => Body::Module,
            BenchKind::Func => Body::Function,
            BenchKind::Scope => Body::SomeBlocks,
            _ => Body::Blocks,
        }
    }

    #[inline(always)]
    fn results(self) -> Count {
        Count::Exactly(self.result_count())
    }

    #[inline(always)]
    fn regions(self) -> Count {
        Count::Exactly(self.region_count())
    }

    #[inline(always)]
    fn tail(self) -> Tail {
        match self {
            BenchKind::Const => Tail::Number,
            BenchKind::Add | BenchKind::Mul | BenchKind::Div => Tail::Operands(2),
            BenchKind::Print => Tail::Operands(1),
            BenchKind::Sink | BenchKind::Scope | BenchKind::Ret => Tail::AnyOperands,
            BenchKind::Br => Tail::Edge,
            BenchKind::Cbr => Tail::TwoEdges,
            BenchKind::Fork => Tail::Fork,
            _ => Tail::Operands(0),
        }
    }
}

/// Reads a text of the bench notation and builds its operation, which is in no block and is well linked. `None`
/// is an unreadable text, which is decided before anything is made.
///
/// Errors: allocation failure, after which nothing of the text is live.
/// Cost: linear in the text, but for look-ups of names, each of which takes the logarithm of their
/// number.
pub fn read_text(
    alloc: Global,
    text: &[u8],
    ctx: &mut Context,
) -> Result<Option<Ptr<Operation>>, OptError>
    ensures read { IfOk result (λ read. IfSome read (λ root. IsGrown ctx.old.tree ctx.new.tree root)) }
    ensures linked { IfOk result (λ read. IfSome read (λ root. IsWellLinked bench ctx.new.tree root)) }
    ensures unreadable { IfOk result (λ read. read ≡ None → ctx.new ≡ ctx.old) }
    ensures refused { OnErr result (IsSameTree ctx.old.tree ctx.new.tree) }
    ensures memory { IsOkUnless result OptError.Memory }
{
    read_operation::<BenchKind>(alloc, text, ctx)
}

/// Where and why `read_text` finds a text unreadable; `None` where it reads it.
///
/// Errors: allocation failure. Cost: that of reading.
pub fn find_text_fault(alloc: Global, text: &[u8]) -> Result<Option<TextFault>, OptError>
    ensures within { IfOk result (λ found. IfSome found (λ fault. fault.span.start + fault.span.len ≤ length
        text.now)) }
    ensures memory { IsOkUnless result OptError.Memory }
{
    find_fault::<BenchKind>(alloc, text)
}

/// The text of the operation in one line, where blocks are `b0`, `b1`, .. in each region and values are
/// `v0`, `v1`, .. in each `func`. Of a tree that isn't one of this dialect the text is open.
///
/// Asks that the operation is live. Errors: allocation failure. Cost: linear in the tree.
pub fn print_text(alloc: Global, root: Ptr<Operation>, ctx: &Context) -> Result<String, OptError>
    requires { IsLive ctx.now.tree root }
    ensures { IsOkUnless result OptError.Memory }
{
    print_operation::<BenchKind>(alloc, root, ctx)
}
