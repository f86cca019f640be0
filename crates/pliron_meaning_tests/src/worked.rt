//! A worked root of two blocks with a branch, which is fit to run: what the laws on runs ask is met.
ghost use Rattle.pliron_core.specs.Invariant.{IsTree};
ghost use Rattle.pliron_evaluator.specs.Tiny.{tiny};
ghost use Rattle.pliron_theory.specs.Keeps.{IsFit};
ghost use Rattle.pliron_meaning_tests.specs.Worked.{worked_example};

// The worked tree is well formed, and its root is fit to run. Does nothing when it runs.
fn worked_root_is_fit()
    ensures tree { IsTree worked_example }
    ensures fit { IsFit tiny worked_example 0 }
{}

#[test]
fn a_root_with_a_branch_is_fit(_rt: HostRuntime) {
    worked_root_is_fit();
}
