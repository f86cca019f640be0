//! What follows where calls are inlined one after the other. The function does nothing: its contract is the law.
ghost use Rattle.pliron_opt_inline.specs.InTurn.{InTurnLaws};

/// Calls of functions that are fit to run may be inlined in a module one after the other, among passes. In each program that
/// has the module linked runs are kept, where the names by which they were called stand there for these functions.
pub fn calls_are_inlined_in_turn()
    ensures { InTurnLaws }
{}
