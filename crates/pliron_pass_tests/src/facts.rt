//! Analyses of a caller: a fact of the kind k is computed from those of the kinds 0 to k - 1.
ghost use Rattle.std.specs.Prelude.{nat_eq};
ghost use Rattle.pliron_pass_tests.specs.Facts.{one_kind};

use pliron_core::{Context, Operation, Ptr};
use pliron_pass::{Analyses, AnalysisKind, AnalysisManager, OptError};
use std::alloc::Global;

/// A fact of a kind, with a note that callers may write.
#[derive(Drop)]
pub struct Fact {
    pub kind: u32,
    pub note: u64,
}

impl AnalysisKind for Fact {
    type Kind = u32;

    ghost kind = { λ f. f.kind };

    fn kind(&self) -> u32 {
        self.kind
    }
}

impl Analyses for Fact {
    ghost holds = { λ f o t. Unit {0} };

    ghost rank = { λ k. k };

    ghost reads_edges_alone = { λ k. nat_eq k 0 };

    ghost needs = { λ k. k };

    ghost need = { λ k i. i };

    fn name(&self) -> &str {
        "fact"
    }

    fn rank(kind: u32) -> u32 {
        kind
    }

    fn reads_edges_alone(kind: u32) -> bool {
        kind == 0
    }

    fn needs(kind: u32) -> usize {
        kind as usize
    }

    fn need(_kind: u32, i: usize) -> u32 {
        i as u32
    }

    fn compute(
        _alloc: Global,
        kind: u32,
        _op: Ptr<Operation>,
        _ctx: &Context,
        _manager: &AnalysisManager<Fact>,
    ) -> Result<Fact, OptError> {
        Ok(Fact { kind, note: 0 })
    }

    ghost same = { one_kind };

    ghost stays = { λ e o t u wt wu same live h. h };

    ghost keeps = { λ e o t u wt wu edges before live same h. h };

    ghost lower = { λ k i h. h };
}
