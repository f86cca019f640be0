//! What calls leave of a text for which the program has no word.
ghost use Rattle.std.specs.Prelude.{◌≡◌, IsOkUnless};
ghost use Rattle.pliron_core.specs.Tree.{IsLive};
ghost use Rattle.pliron_core.specs.Writes.{no_tree};
ghost use Rattle.pliron_laws.specs.Linked.{IsWellLinked};
ghost use Rattle.pliron_dialect_bench.specs.BenchMoves.{bench};

use crate::runs::runs_are_kept;
use crate::texts::is_printed;
use pliron_bench_rules::BenchRules;
use pliron_core::{Context, IRStatus, Operation, Ptr};
use pliron_dialect_bench::Bench;
use pliron_laws::OptError;
use pliron_opt_canonicalize::canonicalize;
use pliron_opt_combine::{Ending, combine};
use pliron_opt_cse::cse;
use pliron_opt_edges::thread_edges;
use pliron_text::{print_text, read_text};
use std::alloc::Global;

/// One of the calls.
#[derive(Clone, Copy, Debug, Drop, PartialEq, Eq)]
pub enum Call {
    Cse,
    Canonicalize,
    Combine,
    ThreadEdges,
}

/// What a call leaves of a readable text: the text before and after, printed; what it says of the change; and whether a
/// second one says that the tree changed.
#[derive(Drop)]
struct Left {
    before: String,
    after: String,
    change: Change,
    is_changed_again: bool,
}

/// What a call says: whether it changed the tree, and whether it finished.
#[derive(Clone, Copy, Drop)]
struct Change {
    is_changed: bool,
    is_finished: bool,
}

// What the call says of the tree. Rules are applied at most so often as the limit says: where values of an ill-defined
// text are made of themselves, some never come to an end.
fn apply_call(
    alloc: Global,
    call: Call,
    root: Ptr<Operation>,
    limit: usize,
    ctx: &mut Context,
) -> Result<Change, OptError>
    requires live { IsLive ctx.old.tree root }
    requires linked { IsWellLinked bench ctx.old.tree root }
    ensures live { IsLive ctx.new.tree root }
    ensures linked { IsWellLinked bench ctx.new.tree root }
    ensures memory { IsOkUnless result OptError.Memory }
{
    let status = match call {
        Call::Cse => cse::<Bench>(alloc, root, ctx)?,
        Call::Canonicalize => canonicalize::<Bench>(alloc, root, ctx)?,
        Call::ThreadEdges => thread_edges::<Bench>(alloc, root, ctx)?,
        Call::Combine => {
            let combined = combine::<Bench, BenchRules>(alloc, root, limit, ctx)?;
            return Ok(Change {
                is_changed: combined.count != 0,
                is_finished: combined.ending == Ending::Finished,
            });
        }
    };
    Ok(Change {
        is_changed: status == IRStatus::Changed,
        is_finished: true,
    })
}

fn call_twice_in(
    alloc: Global,
    call: Call,
    text: &str,
    ctx: &mut Context,
) -> Result<Option<Left>, OptError>
    requires { ctx.old.tree ≡ no_tree }
    ensures { IsOkUnless result OptError.Memory }
{
    let Some(root) = read_text(alloc, text.as_bytes(), ctx)? else {
        return Ok(None);
    };
    let before = print_text(alloc, root, ctx)?;
    // each operation takes some bytes
    let limit = text.len();
    let change = apply_call(alloc, call, root, limit, ctx)?;
    let after = print_text(alloc, root, ctx)?;
    let is_changed_again = apply_call(alloc, call, root, limit, ctx)?.is_changed;
    Ok(Some(Left {
        before,
        after,
        change,
        is_changed_again,
    }))
}

fn call_twice(alloc: Global, call: Call, text: &str) -> Result<Option<Left>, OptError>
    ensures { IsOkUnless result OptError.Memory }
{
    let mut ctx = Context::new(alloc);
    call_twice_in(alloc, call, text, &mut ctx)
}

/// Whether the call leaves a text that is read again and printed the same, says truly whether it changed the tree,
/// leaves nothing for a second one, and of a well-defined text keeps the runs of its functions; of any other text
/// common subexpression elimination may leave something, and rules too where they don't come to an end. True of a text
/// outside the notation.
///
/// Errors: allocation failure. Cost: the call twice, and the runs of each function before and after.
pub fn is_right(alloc: Global, call: Call, text: &str, is_defined: bool) -> Result<bool, OptError>
    ensures { IsOkUnless result OptError.Memory }
{
    let Some(left) = call_twice(alloc, call, text)? else {
        return Ok(true);
    };
    if left.change.is_changed == (left.before == left.after)
        || !is_printed(alloc, &left.after, &left.after)?
    {
        return Ok(false);
    }
    if !is_defined {
        return Ok(call == Call::Cse || !left.change.is_finished || !left.is_changed_again);
    }
    Ok(
        left.change.is_finished
            && !left.is_changed_again
            && runs_are_kept(alloc, text, &left.after)?,
    )
}
