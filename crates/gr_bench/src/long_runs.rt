// A long random run of calls over `1`, `-1 2`, `3 4 -2`, beside a plain program.
ghost use Rattle.std.specs.Prelude.{◌∷◌, ◌≤◌, [], IsTrue, OnOk};
ghost use Rattle.gr_diary.specs.declared.entries.Entry.TheVariants.{Forget};
ghost use Rattle.gr_bench.specs.Exchanges.{IsEnabledAt};
ghost use Rattle.gr_bench.specs.OverChain.{IsOverChain};

use crate::calls::{clause_of, formula_of, ids_of, lit_of};
use crate::{Bench, Imported};
use gr_diary::Diary;
use gr_hold::Holder;
use gr_logic::Line;
use std::alloc::Global;
use std::test::Fail;

impl Bench {
    /// Whether the actor may let the id go: it holds it, and has not taken it.
    fn may_let_go(&self, actor: u32, id: u64) -> bool
        ensures { IsTrue result → IsEnabledAt self.now (Forget actor (id ∷ [])) }
    {
        actor <= self.reducers
            && self.books.taken[actor as usize] != Some(id)
            && self.books.holders.holds(id, Holder::Actor(actor))
    }
}

/// The searching thread offers `3 4`. Answers its id.
fn offer(alloc: Global, bench: &mut Bench) -> Result<u64, Fail>
    requires { IsOverChain bench.old }
    ensures { OnOk result (IsOverChain bench.new) }
{
    let clause = clause_of(alloc, &[3, 4])?;
    let hints = ids_of(alloc, &[1, 2, 3])?;
    let id = bench.learn(clause, hints, 2, true)?;
    Ok(id)
}

/// A reducer shares `2`. Answers its id.
fn share(alloc: Global, bench: &mut Bench, actor: u32) -> Result<u64, Fail>
    requires over { IsOverChain bench.old }
    requires actor { actor ≤ 2 }
    ensures { OnOk result (IsOverChain bench.new) }
{
    let lit = lit_of(2)?;
    let hints = ids_of(alloc, &[1, 2])?;
    let id = bench.unit(actor, lit, hints)?;
    Ok(id)
}

/// The searching thread takes a result over, if there is one. Answers its id.
fn take_over(bench: &mut Bench) -> Result<Option<u64>, Fail>
    requires { IsOverChain bench.old }
    ensures { OnOk result (IsOverChain bench.new) }
{
    match bench.import()? {
        Imported::Import { new, .. } => Ok(Some(new)),
        Imported::Drained => Ok(None),
    }
}

/// An actor lets an id go.
fn let_go(alloc: Global, bench: &mut Bench, actor: u32, id: u64) -> Result<(), Fail>
    requires { IsOverChain bench.old }
    ensures { OnOk result (IsOverChain bench.new) }
{
    if !bench.may_let_go(actor, id) {
        return Err(Fail::from("not held"));
    }
    bench.forget(actor, ids_of(alloc, &[id])?)?;
    Ok(())
}

/// What a plain program knows: the next id, who holds which id, the earliest first, and of each
/// line of the proof log the id, and how many literals it adds under it, 0 where it deletes it.
#[derive(Drop)]
struct Plain {
    next: u64,
    holds: Vec<(u64, Holder)>,
    lines: Vec<(u64, usize)>,
}

impl Plain {
    /// A clause of so many literals comes in, with two holders.
    fn add(&mut self, len: usize, actor: u32, list: Holder) -> Result<u64, Fail> {
        let id = self.next;
        self.next = id.saturating_add(1);
        self.holds.push((id, Holder::Actor(actor)))?;
        self.holds.push((id, list))?;
        self.lines.push((id, len))?;
        Ok(id)
    }

    /// Who held the id does so no more. It leaves where no one else holds it.
    fn drop_hold(&mut self, id: u64, by: Holder) -> Result<(), Fail> {
        self.holds.retain(|hold| *hold != (id, by));
        if !is_held(self.holds.as_slice(), id) {
            self.lines.push((id, 0))?;
        }
        Ok(())
    }

    /// Three clauses have room on offer: one more drives the earliest out.
    fn offer(&mut self) -> Result<u64, Fail> {
        let driven = if count(self.holds.as_slice(), Holder::Work) == 3 {
            earliest(self.holds.as_slice(), Holder::Work)
        } else {
            None
        };
        let id = self.add(2, 0, Holder::Work)?;
        if let Some(driven) = driven {
            self.drop_hold(driven, Holder::Work)?;
        }
        Ok(id)
    }

    fn take_over(&mut self) -> Result<Option<u64>, Fail> {
        let Some(id) = earliest(self.holds.as_slice(), Holder::Result) else {
            return Ok(None);
        };
        self.holds.push((id, Holder::Actor(0)))?;
        self.drop_hold(id, Holder::Result)?;
        Ok(Some(id))
    }
}

/// The id that this holder has held longest.
fn earliest(holds: &[(u64, Holder)], by: Holder) -> Option<u64> {
    for hold in holds {
        if hold.1 == by {
            return Some(hold.0);
        }
    }
    None
}

/// How many ids the holder holds.
fn count(holds: &[(u64, Holder)], by: Holder) -> u32 {
    let mut count: u32 = 0;
    for hold in holds {
        if hold.1 == by {
            count = count.saturating_add(1);
        }
    }
    count
}

/// Whether anyone holds the id.
fn is_held(holds: &[(u64, Holder)], id: u64) -> bool {
    for hold in holds {
        if hold.0 == id {
            return true;
        }
    }
    false
}

/// Steps of a random sequence: 0 and 1 offer, 2 and 3 share by the reducers, 4 and 5 take over, and
/// from 6 on the searching thread, twice, and the reducers let go what they have held longest.
const STEPS: [u32; 160] = [
    2, 4, 0, 2, 8, 3, 8, 3, 0, 4, 7, 0, 5, 2, 2, 1, 8, 1, 5, 4, 5, 7, 6, 3, 7, 8, 4, 6, 1, 6, 9, 2,
    6, 7, 2, 5, 3, 4, 7, 7, 3, 6, 5, 3, 1, 1, 4, 4, 6, 5, 6, 9, 7, 4, 4, 7, 2, 4, 7, 0, 6, 3, 7, 4,
    2, 6, 8, 1, 1, 1, 8, 5, 2, 8, 8, 1, 7, 9, 3, 3, 6, 5, 1, 2, 6, 7, 2, 8, 3, 6, 5, 1, 6, 9, 6, 6,
    8, 1, 1, 9, 4, 4, 2, 3, 1, 6, 0, 7, 7, 2, 0, 1, 3, 7, 5, 6, 2, 6, 4, 4, 6, 8, 3, 0, 9, 4, 9, 5,
    0, 9, 9, 4, 0, 4, 6, 6, 6, 1, 6, 5, 5, 9, 8, 6, 3, 7, 0, 2, 0, 5, 1, 3, 2, 9, 6, 8, 0, 1, 8, 8,
];

/// A step of both, and what each answers.
fn step(
    alloc: Global,
    bench: &mut Bench,
    plain: &mut Plain,
    step: u32,
) -> Result<(Option<u64>, Option<u64>), Fail>
    requires { IsOverChain bench.old }
    ensures { OnOk result (IsOverChain bench.new) }
{
    match step {
        0 | 1 => Ok((Some(offer(alloc, bench)?), Some(plain.offer()?))),
        2 | 3 => {
            let actor = step - 1;
            let shared = share(alloc, bench, actor)?;
            Ok((Some(shared), Some(plain.add(1, actor, Holder::Result)?)))
        }
        4 | 5 => Ok((take_over(bench)?, plain.take_over()?)),
        6 | 7 => let_earliest_go(alloc, bench, plain, 0),
        8 => let_earliest_go(alloc, bench, plain, 1),
        _ => let_earliest_go(alloc, bench, plain, 2),
    }
}

/// The actor lets go what it has held longest.
fn let_earliest_go(
    alloc: Global,
    bench: &mut Bench,
    plain: &mut Plain,
    actor: u32,
) -> Result<(Option<u64>, Option<u64>), Fail>
    requires { IsOverChain bench.old }
    ensures { OnOk result (IsOverChain bench.new) }
{
    let by = Holder::Actor(actor);
    let Some(id) = earliest(plain.holds.as_slice(), by) else {
        return Err(Fail::from("nothing to let go"));
    };
    let_go(alloc, bench, actor, id)?;
    plain.drop_hold(id, by)?;
    Ok((None, None))
}

/// Whether the line adds so many literals under the id, or deletes it where these are none.
fn is_line(line: &Option<Line>, id: u64, len: usize) -> bool {
    match line {
        Some(
            Line::Add {
                id: added,
                clause,
                ..
            },
        ) => *added == id && clause.lits().len() == len,
        Some(Line::Delete { ids, .. }) => ids.all() == [id].as_slice() && len == 0,
        None => false,
    }
}

/// Whether the diary has just these lines.
fn has_lines(diary: &Diary, lines: &[(u64, usize)]) -> Result<bool, Fail> {
    let mut coming = diary.lines();
    for (id, len) in lines {
        if !is_line(&coming.next()?, *id, *len) {
            return Ok(false);
        }
    }
    Ok(coming.next()?.is_none())
}

/// Follows the steps in both. Tells whether all answers agree.
fn agrees(alloc: Global, bench: &mut Bench, plain: &mut Plain, steps: &[u32]) -> Result<bool, Fail>
    requires { IsOverChain bench.old }
{
    'steps: for number in steps {
        let (answer, expected) = step(alloc, bench, plain, *number)?;
        if answer != expected {
            return Ok(false);
        }
    }
    Ok(true)
}

#[test]
fn agrees_with_a_plain_program(rt: HostRuntime) -> Result<(), Fail> {
    let alloc = rt.alloc();
    let formula = formula_of(alloc, 4, &[1], &[-1, 2], &[3, 4, -2])?;
    let mut bench = Bench::open(alloc, &formula, 2, 3)?;
    let mut plain = Plain {
        next: 4,
        holds: Vec::new(alloc),
        lines: Vec::new(alloc),
    };
    assert!(rt; agrees(alloc, &mut bench, &mut plain, &STEPS)?);
    assert_eq!(rt; bench.diary().len(), 160);
    assert_eq!(rt; plain.lines.len(), 102);
    assert!(rt; has_lines(bench.diary(), plain.lines.as_slice())?);
    Ok(())
}
