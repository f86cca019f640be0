//! Values that are forwarded along the only edge to a block.
ghost use Rattle.pliron_rewrite_blocks.specs.Forwarding.{ForwardingLaw};

use pliron_laws::Dialect;

/// The uses of an argument of a block may become uses of the value that the only edge to the block
/// forwards to it.
pub fn forwarded_values_replace_arguments<D: Dialect>()
    ensures { ForwardingLaw D.meaning }
{}
