// Unit steps along the hints of an addition.
ghost use Rattle.std.specs.Prelude.{◌≡◌, ◌<◌, [], OnOk, IfErr, IfSome, slice_get};
ghost use Rattle.std.specs.FinMap.{get};
ghost use Rattle.gr_logic.specs.Formulas.{VarsUpTo};
ghost use Rattle.gr_logic.specs.Rup.{rup, reading, members, Accepted};
ghost use Rattle.gr_logic.specs.Log.{cause_of};
ghost use Rattle.gr_check.specs.Checks.{AreBounded};
ghost use Rattle.gr_check.specs.Refusals.{IsCauseOf};
ghost use Rattle.gr_check.specs.Readings.{reading_of, open_in, IsWithin};

use crate::marks::Marks;
use crate::pool::{Pool, lits_at};
use crate::refusals::Refused;
use crate::runs::Run;
use gr_logic::Lit;

/// How a clause stands: all its literals are false, or just one (as a set) is not, or more are not.
#[derive(Clone, Copy)]
enum Standing {
    Falsified,
    Forces(Lit),
    Undecided,
}

/// How the clause stands where the marked literals are true. It is read up to the second literal
/// that is not false, after its first one, which the caller has at hand.
fn read_clause(first: Option<Lit>, lits: &[Lit], marks: &Marks) -> Standing
    requires vars { VarsUpTo marks.now.vars lits.now }
    requires first { first ≡ slice_get lits.now 0 }
    ensures reading { reading_of result ≡ reading (members marks.now.list) lits.now }
    ensures within { IsWithin marks.now.vars result }
{
    let mut open = open_one(first, marks);
    for lit in lits {
        if !marks.has(lit.negate()) {
            match open {
                None => open = Some(*lit),
                Some(first) => {
                    if first != *lit {
                        return Standing::Undecided;
                    }
                }
            }
        }
    }
    match open {
        None => Standing::Falsified,
        Some(lit) => Standing::Forces(lit),
    }
}

/// The literal, if there is one that is not false.
fn open_one(first: Option<Lit>, marks: &Marks) -> Option<Lit>
    requires { IfSome first (λ lit. lit.index < marks.now.vars) }
    ensures { result ≡ open_in (members marks.now.list) first }
{
    match first {
        None => None,
        Some(lit) => {
            if marks.has(lit.negate()) {
                None
            } else {
                Some(lit)
            }
        }
    }
}

/// The unit steps of the lemma with this id, whose negation is marked first. The marks are left for
/// the caller to clear.
pub(crate) fn unit_steps(
    pool: &Pool,
    places: &mut Vec<Option<Run>>,
    firsts: &mut Vec<Option<Lit>>,
    marks: &mut Marks,
    id: u64,
    lemma: &[Lit],
    hints: &[u64],
) -> Result<(), Refused>
    requires unmarked { marks.old.list ≡ [] }
    requires lemma { VarsUpTo marks.old.vars lemma.now }
    requires pool { AreBounded marks.old.vars pool.now }
    ensures ok { OnOk result (rup (get pool.now) lemma.now hints.now ≡ Accepted) }
    ensures refused { IfErr result (λ why. IsCauseOf why (cause_of id (rup (get pool.now) lemma.now hints.now))) }
    ensures vars { marks.new.vars ≡ marks.old.vars }
{
    for lit in lemma {
        marks.add(lit.negate())?;
    }
    let lits = pool.locate(hints, places, firsts)?;
    for (i, hint) in hints.iter().enumerate() {
        match places[i] {
            None => return Err(Refused::NotLive { id: *hint }),
            Some(run) => match read_clause(firsts[i], lits_at(lits, run), marks) {
                Standing::Falsified => return Ok(()),
                Standing::Forces(lit) => marks.add(lit)?,
                Standing::Undecided => return Err(Refused::HintNotUnit { id: *hint }),
            },
        }
    }
    Err(Refused::NoConflict { id })
}
