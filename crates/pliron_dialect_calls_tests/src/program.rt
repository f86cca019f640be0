//! What linked runs of the worked program show.
ghost use Rattle.std.specs.Prelude.{◌≡◌, [], ◌∷◌};
ghost use Rattle.pliron_laws.specs.Machine.{Ended, Reached};
ghost use Rattle.pliron_dialect.specs.Roles.{chain_of};
ghost use Rattle.pliron_pass_linked.specs.LinkedRuns.{Answer};
ghost use Rattle.pliron_dialect_calls_tests.specs.Program.{seen, both_names, no_names, caller, inlined, number, twice, call_effect};

// The call of `twice` is inside, and that of `log` is the world's. Where no function has a name, the world is asked.
fn calls_are_by_name()
    ensures effect { seen both_names caller (number 4) [] ≡ Reached (call_effect 2 (twice (number 4)) ∷ []) }
    ensures answer { seen both_names caller (number 4) (Answer (chain_of (number 9 ∷ [])) ∷ []) ≡ Ended
        (twice (number 4) ∷ number 9 ∷ []) (call_effect 2 (twice (number 4)) ∷ []) }
    ensures unlinked { seen no_names caller (number 4) [] ≡ Reached (call_effect 1 (number 4) ∷ []) }
{}

// The same is seen of the program whose first call was inlined.
fn inlined_calls_show_the_same()
    ensures effect { seen both_names inlined (number 4) [] ≡ Reached (call_effect 2 (twice (number 4)) ∷ []) }
    ensures answer { seen both_names inlined (number 4) (Answer (chain_of (number 9 ∷ [])) ∷ []) ≡ Ended
        (twice (number 4) ∷ number 9 ∷ []) (call_effect 2 (twice (number 4)) ∷ []) }
{}

#[test]
fn a_program_of_two_modules(_rt: HostRuntime) {
    calls_are_by_name();
    inlined_calls_show_the_same();
}
