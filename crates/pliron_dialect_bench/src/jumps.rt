//! The edges of branches.
ghost use Rattle.std.specs.Prelude.{◌≡◌, min};
ghost use Rattle.pliron_dialect_bench.specs.Bench.{branch_edge_count as first_count_of};

use pliron_core::Attrs;
use pliron_dialect::counts::count_up_to;

/// How many operands the first edge of a `cbr` forwards, at most so many. Cost: constant.
pub fn first_edge_count(attrs: &Attrs, most: usize) -> usize
    ensures { result ≡ min (first_count_of attrs.now) most }
{
    if attrs.is_empty() {
        0
    } else {
        count_up_to(attrs.get(0), most)
    }
}
