//! Laws of the words on trees, as calls that do nothing when they run.
ghost use Rattle.pliron_core.specs.ChangeLaws.{SameTreeLaws, InsideChangeLaws};

/// The laws of "the same tree but for erased handles", which is an equivalence that all words on what is live
/// respect, and of "only what is inside an operation changes", which is reflexive and transitive, grows with
/// the operation and leaves what is beside it. Does nothing when it runs.
pub fn change_laws()
    ensures same { SameTreeLaws }
    ensures inside { InsideChangeLaws }
{}
