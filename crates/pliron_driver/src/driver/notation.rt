//! Texts of operations, as the program asks for them.
ghost use Rattle.std.specs.Prelude.{◌≡◌, IfOk, IfSome, Some, Ok};
ghost use Rattle.pliron_core.specs.Tree.{IsLive};
ghost use Rattle.pliron_core.specs.Writes.{no_tree};
ghost use Rattle.pliron_laws.specs.Linked.{IsWellLinked};
ghost use Rattle.pliron_driver.specs.Answered.{Reads, Prints};
ghost use Rattle.pliron_dialect.specs.Roles.{meaning_by, role_at, allows_at};
ghost use Rattle.pliron_driver.specs.Read.{ReadsBench, ReadsKinds, PrintsBench, PrintsKinds};

use pliron_bench_rules::BenchRules;
use pliron_core::{Context, Operation, Ptr};
use pliron_dialect::ByRoles;
use pliron_dialect_bench::Bench;
use pliron_dialect_edges::BranchesAtOnce;
use pliron_laws::{Dialect, OptError};
use pliron_pass_pipeline::NoRules;
use pliron_rewrite_rules::Rules;
use pliron_text::{Grammar, print_operation, print_text, read_operation, read_text};
use std::alloc::Global;
use std::marker::PhantomData;

/// Why there is no answer to a text.
#[derive(Clone, Copy, Debug, Drop, PartialEq, Eq)]
pub enum TextFailure<F> {
    /// The text is outside the notation.
    Text(F),
    /// Memory was refused, or the passes were.
    Refused(OptError),
}

impl<F> From<OptError> for TextFailure<F> {
    fn from(error: OptError) -> Self {
        TextFailure::Refused(error)
    }
}

/// A text that was read: its operation, and what the text says beside the tree.
#[derive(Drop)]
pub struct Document<S> {
    pub root: Ptr<Operation>,
    pub sheet: S,
}

/// Texts of operations of a dialect: how one is read into a context, and how an operation is printed.
///
/// What passes make of a text is proved for each notation. So an answer comes from the very text that was given, by the
/// relation of that notation between texts and trees, whatever it is.
pub trait Notation {
    type D: Dialect + BranchesAtOnce;

    /// The rules of the pass `combine`.
    type Rules: Rules<Self::D>;

    /// What a text says beside the tree.
    type Sheet: Drop;

    /// Where a text leaves the notation.
    type Fault: Copy + Drop;

    // the text says the tree, of which this is the operation
    ghost reads: { Reads };

    // the operation in the tree is printed so
    ghost prints: { Prints };

    /// Reads a text with its sheet. Its operation is live and well linked. Asks that the context is empty. Errors: where
    /// the text is outside the notation; allocation failure.
    fn read_document(
        alloc: Global,
        text: &[u8],
        ctx: &mut Context,
    ) -> Result<Document<Self::Sheet>, TextFailure<Self::Fault>>
        requires { ctx.old.tree ≡ no_tree }
        ensures liveness { IfOk result (λ read. IsLive ctx.new.tree read.root) }
        ensures linked { IfOk result (λ read. IsWellLinked Self.D.meaning ctx.new.tree read.root) }
        ensures text { IfOk result (λ read. reads text.now ctx.new.tree read.root) };

    /// Prints the operation with its sheet. Asks that the operation is live (`is_live` tests it). Errors: allocation
    /// failure.
    fn print_document(
        alloc: Global,
        document: &Document<Self::Sheet>,
        ctx: &Context,
    ) -> Result<Vec<u8>, OptError>
        requires { IsLive ctx.now.tree document.now.root }
        ensures { IfOk result (λ printed. prints ctx.now.tree document.now.root printed.items) };

    /// The sheet that says nothing. Cost: constant.
    fn empty_sheet(alloc: Global) -> Self::Sheet;

    /// Reads a text, and leaves its sheet out. Its operation is live and well linked. `None` is a text outside the
    /// notation. Asks that the context is empty. Errors: allocation failure. Cost: that of `read_document`.
    fn read(
        alloc: Global,
        text: &[u8],
        ctx: &mut Context,
    ) -> Result<Option<Ptr<Operation>>, OptError>
        requires { ctx.old.tree ≡ no_tree }
        ensures liveness { IfOk result (λ found. IfSome found (λ root. IsLive ctx.new.tree root)) }
        ensures linked { IfOk result (λ found. IfSome found (λ root. IsWellLinked Self.D.meaning ctx.new.tree root)) }
        ensures text { IfOk result (λ found. IfSome found (λ root. reads text.now ctx.new.tree root)) }
    {
        match Self::read_document(alloc, text, ctx) {
            Ok(document) => Ok(Some(document.root)),
            Err(TextFailure::Text(_)) => Ok(None),
            Err(TextFailure::Refused(error)) => Err(error),
        }
    }

    /// Prints the operation with an empty sheet. Asks that the operation is live (`is_live` tests it). Errors:
    /// allocation failure. Cost: that of `print_document`.
    fn print(alloc: Global, root: Ptr<Operation>, ctx: &Context) -> Result<Vec<u8>, OptError>
        requires { IsLive ctx.now.tree root }
        ensures { IfOk result (λ printed. prints ctx.now.tree root printed.items) }
    {
        let sheet = Self::empty_sheet(alloc);
        Self::print_document(alloc, &Document { root, sheet }, ctx)
    }
}

// The document of what was read, if it was.
fn plain_document(
    read: Result<Option<Ptr<Operation>>, OptError>,
) -> Result<Document<()>, TextFailure<()>>
    ensures { IfOk result (λ document. read ≡ Ok (Some document.root)) }
{
    match read {
        Ok(Some(root)) => Ok(Document { root, sheet: () }),
        Ok(None) => Err(TextFailure::Text(())),
        Err(error) => Err(TextFailure::Refused(error)),
    }
}

/// The notation of the dialect `Bench`.
pub struct BenchNotation;

impl Notation for BenchNotation {
    type D = Bench;

    type Rules = BenchRules;

    type Sheet = ();

    type Fault = ();

    ghost reads = { ReadsBench };

    ghost prints = { PrintsBench };

    fn read_document(
        alloc: Global,
        text: &[u8],
        ctx: &mut Context,
    ) -> Result<Document<()>, TextFailure<()>> {
        plain_document(read_text(alloc, text, ctx))
    }

    fn print_document(
        alloc: Global,
        document: &Document<()>,
        ctx: &Context,
    ) -> Result<Vec<u8>, OptError> {
        Ok(print_text(alloc, document.root, ctx)?.into_bytes())
    }

    fn empty_sheet(_: Global) {}
}

/// The notation of the dialect of these kinds, by their grammar. The pass `combine` has these rules.
pub struct KindNotation<K, L = NoRules> {
    of: PhantomData<K>,
    by: PhantomData<L>,
}

impl<K: Grammar, L: Rules<ByRoles<K>>> Notation for KindNotation<K, L> {
    type D = ByRoles<K>;

    type Rules = L;

    type Sheet = ();

    type Fault = ();

    ghost reads = { ReadsKinds (meaning_by K.tables.value (role_at K.tables) (allows_at K.tables)) };

    ghost prints = { PrintsKinds };

    fn read_document(
        alloc: Global,
        text: &[u8],
        ctx: &mut Context,
    ) -> Result<Document<()>, TextFailure<()>> {
        plain_document(read_operation::<K>(alloc, text, ctx))
    }

    fn print_document(
        alloc: Global,
        document: &Document<()>,
        ctx: &Context,
    ) -> Result<Vec<u8>, OptError> {
        Ok(print_operation::<K>(alloc, document.root, ctx)?.into_bytes())
    }

    fn empty_sheet(_: Global) {}
}
