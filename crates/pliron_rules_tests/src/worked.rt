//! What linked runs of a worked program of three modules show.
ghost use Rattle.std.specs.Prelude.{◌≡◌, [], ◌∷◌};
ghost use Rattle.pliron_laws.specs.Datum.{Join};
ghost use Rattle.pliron_laws.specs.Machine.{Ended, Trapped, Reached};
ghost use Rattle.pliron_pass_linked.specs.LinkedRuns.{Answer, Callback};
ghost use Rattle.pliron_rules_tests.specs.Worked.{seen, all_names, even_alone, number, even, odd, asked};

// Two functions of two modules call each other to any depth, and the world sees none of it.
fn calls_are_inside()
    ensures even_number { seen all_names 0 (number 4) [] ≡ Ended (number 1 ∷ []) [] }
    ensures odd_number { seen all_names 0 (number 3) [] ≡ Ended (number 0 ∷ []) [] }
{}

// The world calls `even` back before it answers: it sees the question, then what the callback ended with.
fn worlds_call_back()
    ensures answer { seen all_names 2 (number 5) (Answer (number 7) ∷ []) ≡ Ended (number 7 ∷ []) (asked 5 ∷ []) }
    ensures callback { seen all_names 2 (number 5) (Callback 2 even (number 2 ∷ []) ∷ Answer (number 7) ∷ []) ≡ Ended
        (number 7 ∷ []) (number 1 ∷ asked 5 ∷ []) }
    ensures silent { seen all_names 2 (number 5) (Callback 2 even (number 2 ∷ []) ∷ []) ≡ Reached (number 1 ∷ asked 5
        ∷ []) }
{}

// A call of what the program doesn't have is an effect, which the world answers; a callback of it traps.
fn unknown_names_are_the_worlds()
    ensures effect { seen even_alone 0 (number 4) [] ≡ Reached (Join odd (number 3) ∷ []) }
    ensures answer { seen even_alone 0 (number 4) (Answer (number 1) ∷ []) ≡ Ended (number 1 ∷ []) (Join odd (number 3)
        ∷ []) }
    ensures callback { seen even_alone 2 (number 5) (Callback 2 odd [] ∷ []) ≡ Trapped (asked 5 ∷ []) }
{}

#[test]
fn a_program_of_three_modules(_rt: HostRuntime) {
    calls_are_inside();
    worlds_call_back();
    unknown_names_are_the_worlds();
}
