//! Operands that each visit of a region passes.
ghost use Rattle.std.specs.Prelude.{◌≡◌};
ghost use Rattle.pliron_role_runs.specs.Visits.{operand_from as named_from};

/// The operand for this argument of an entry, where each visit passes the operands from this place on. Cost:
/// constant.
pub fn operand_from(place: usize, operands: usize, argument: usize) -> Option<usize>
    ensures { result ≡ named_from place operands argument }
{
    match place.checked_add(argument) {
        Some(operand) if operand < operands => Some(operand),
        _ => None,
    }
}
