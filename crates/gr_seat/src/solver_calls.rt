// The searching thread's calls: each is one turn.
ghost use Rattle.std.specs.Prelude.{◌≡◌, IfOk, OnOk, OnErr, Err, MatchBool};
ghost use Rattle.gr_diary.specs.Histories.{IsClosed};
ghost use Rattle.gr_diary.specs.declared.entries.Entry.TheVariants.{Learn, Forget, Close};
ghost use Rattle.gr_diary.specs.declared.entries.Entry.TheVariants as entry;
ghost use Rattle.gr_bench.specs.Answers.{IsImported, entry_of};
ghost use Rattle.gr_seat.specs.Handles.{Enables};
ghost use Rattle.gr_seat.specs.Turns.{TakesTurn, Makes, MakesNone, Anything};

use crate::seats::SolverSeat;
use crate::shared_benches::SharedBench;
use gr_bench::{BenchError, Closing, Imported};
use gr_logic::{Clause, Ids, Lit};
use std::sync::Wait;

impl SharedBench {
    /// Adds a learnt clause, on offer to the reducers or not. The answer is its id.
    pub fn learn<R: Wait>(
        &self,
        rt: &R,
        seat: &mut SolverSeat,
        clause: Clause,
        hints: Ids,
        lbd: u32,
        offered: bool,
    ) -> Result<u64, BenchError>
        requires lock { seat.old.lock ≡ self.now }
        requires able { Enables seat.old (Learn clause hints lbd offered) }
        ensures turn { TakesTurn seat.old seat.new }
        ensures ok { IfOk result (λ id. Makes seat.old seat.new (Learn clause hints lbd offered)
            (λ s. id ≡ s.next)) }
        ensures err { OnErr result (MakesNone seat.old seat.new) }
        ensures closed { result ≡ Err BenchError.Closed → IsClosed seat.new.seen }
    {
        let wakes = brings_work_or_end(&clause, offered);
        let mut held = self.turn.enter(rt, &mut seat.seat);
        let _before = held.value().bench.diary();
        let answer = held.value_mut().bench.learn(clause, hints, lbd, offered);
        let _after = held.value().bench.diary();
        self.turn.leave(&mut seat.seat, held, answer.is_ok());
        self.wake_if(wakes);
        answer
    }

    /// Adds a unit clause. The answer is its id.
    pub fn solver_unit<R: Wait>(
        &self,
        rt: &R,
        seat: &mut SolverSeat,
        lit: Lit,
        hints: Ids,
    ) -> Result<u64, BenchError>
        requires lock { seat.old.lock ≡ self.now }
        requires able { Enables seat.old (entry.Unit 0 lit hints) }
        ensures turn { TakesTurn seat.old seat.new }
        ensures ok { IfOk result (λ id. Makes seat.old seat.new (entry.Unit 0 lit hints) (λ s. id ≡ s.next)) }
        ensures err { OnErr result (MakesNone seat.old seat.new) }
        ensures closed { result ≡ Err BenchError.Closed → IsClosed seat.new.seen }
    {
        let mut held = self.turn.enter(rt, &mut seat.seat);
        let _before = held.value().bench.diary();
        let answer = held.value_mut().bench.unit(0, lit, hints);
        let _after = held.value().bench.diary();
        self.turn.leave(&mut seat.seat, held, answer.is_ok());
        answer
    }

    /// Takes over the earliest result, or learns that there is none.
    pub fn import<R: Wait>(&self, rt: &R, seat: &mut SolverSeat) -> Result<Imported, BenchError>
        requires { seat.old.lock ≡ self.now }
        ensures turn { TakesTurn seat.old seat.new }
        ensures ok { IfOk result (λ imported. Makes seat.old seat.new (entry_of imported)
            (λ s. IsImported s imported)) }
        ensures err { OnErr result (MakesNone seat.old seat.new) }
        ensures closed { result ≡ Err BenchError.Closed → IsClosed seat.new.seen }
    {
        let mut held = self.turn.enter(rt, &mut seat.seat);
        let answer = held.value_mut().bench.import();
        let _after = held.value().bench.diary();
        self.turn.leave(&mut seat.seat, held, answer.is_ok());
        answer
    }

    /// Lets the ids go.
    pub fn solver_forget<R: Wait>(
        &self,
        rt: &R,
        seat: &mut SolverSeat,
        ids: Ids,
    ) -> Result<(), BenchError>
        requires lock { seat.old.lock ≡ self.now }
        requires able { Enables seat.old (Forget 0 ids) }
        ensures turn { TakesTurn seat.old seat.new }
        ensures ok { OnOk result (Makes seat.old seat.new (Forget 0 ids) Anything) }
        ensures err { OnErr result (MakesNone seat.old seat.new) }
        ensures closed { result ≡ Err BenchError.Closed → IsClosed seat.new.seen }
    {
        let mut held = self.turn.enter(rt, &mut seat.seat);
        let _before = held.value().bench.diary();
        let answer = held.value_mut().bench.forget(0, ids);
        let _after = held.value().bench.diary();
        self.turn.leave(&mut seat.seat, held, answer.is_ok());
        answer
    }

    /// Ends the history, if it has no end yet, and wakes the reducers. Takes no memory.
    pub fn close<R: Wait>(&self, rt: &R, seat: &mut SolverSeat) -> Closing
        requires { seat.old.lock ≡ self.now }
        ensures turn { TakesTurn seat.old seat.new }
        ensures done { result ≡ Closing.Done → Makes seat.old seat.new Close Anything }
        ensures already { result ≡ Closing.Already → MakesNone seat.old seat.new }
        ensures closed { IsClosed seat.new.seen }
    {
        let mut held = self.turn.enter(rt, &mut seat.seat);
        let answer = held.value_mut().bench.close();
        let _after = held.value().bench.diary();
        self.turn.leave(&mut seat.seat, held, is_done(answer));
        self.wake_if(true);
        answer
    }
}

/// Whether there is something for the reducers then: a clause on offer, or the end.
fn brings_work_or_end(clause: &Clause, offered: bool) -> bool {
    offered || clause.lits().is_empty()
}

/// Whether the history was ended by the call.
fn is_done(answer: Closing) -> bool
    ensures { MatchBool result (answer ≡ Closing.Done) (answer ≡ Closing.Already) }
{
    match answer {
        Closing::Done => true,
        Closing::Already => false,
    }
}
