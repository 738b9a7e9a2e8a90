// Laws of the grammar and of the limits: each is the contract of a function that does nothing.
ghost use Rattle.std.specs.Prelude.{◌≡◌};
ghost use Rattle.gr_dimacs.specs.Laws.{CanonicalIsFaultless, CanonicalSpells, FaultIsExact, ShorterIsWithin, SpellsOne, WithinIsSpelled};
ghost use Rattle.gr_dimacs.specs.Reads.{program_limits};

use crate::limits::PROGRAM_LIMITS;

/// The limits of the program are these numbers.
pub fn program_limits_are_exact()
    ensures { PROGRAM_LIMITS ≡ program_limits }
{}

/// There is no fault exactly where a formula within the limits is spelled within the bytes.
pub fn fault_is_exact()
    ensures { FaultIsExact }
{}

/// What is spelled within some bytes is spelled by the whole text.
pub fn within_is_spelled()
    ensures { WithinIsSpelled }
{}

/// A text that is shorter than some bytes spells the same within them.
pub fn shorter_is_within()
    ensures { ShorterIsWithin }
{}

/// A text spells at most one formula.
pub fn spells_one()
    ensures { SpellsOne }
{}

/// What is written spells the formula again.
pub fn canonical_spells()
    ensures { CanonicalSpells }
{}

/// What is written is read again within the limits, where the formula is within them and its text is shorter
/// than the bytes that may be looked at.
pub fn canonical_is_faultless()
    ensures { CanonicalIsFaultless }
{}
