// The reducers' calls: each is one turn, and `next_work` takes one for each try.
ghost use Rattle.std.specs.Prelude.{◌≡◌, ◌<◌, IfOk, OnOk, OnErr, Err, IsTrue};
ghost use Rattle.gr_diary.specs.Histories.{IsClosed};
ghost use Rattle.gr_diary.specs.declared.entries.Entry.TheVariants.{Take, Return, Forget};
ghost use Rattle.gr_diary.specs.declared.entries.Entry.TheVariants as entry;
ghost use Rattle.gr_bench.specs.Answers.{IsBestOffer, id_of_outcome};
ghost use Rattle.gr_seat.specs.Handles.{Enables, SeesNoWork};
ghost use Rattle.gr_seat.specs.Turns.{TakesTurn, SeesMore, Makes, MakesNone, Anything};

use crate::seats::ReducerSeat;
use crate::shared_benches::SharedBench;
use gr_bench::{BenchError, TakeError, Taken};
use gr_logic::{Ids, Lit, Strengthened};
use std::sync::Wait;

impl SharedBench {
    /// Takes the best clause on offer.
    pub fn take<R: Wait>(&self, rt: &R, seat: &mut ReducerSeat) -> Result<Taken, TakeError>
        requires lock { seat.old.lock ≡ self.now }
        requires able { Enables seat.old (Take seat.old.actor) }
        ensures turn { TakesTurn seat.old seat.new }
        ensures ok { IfOk result (λ taken. Makes seat.old seat.new (Take seat.old.actor)
            (λ s. IsBestOffer s taken.id taken.clause)) }
        ensures err { OnErr result (MakesNone seat.old seat.new) }
        ensures closed { result ≡ Err TakeError.Closed → IsClosed seat.new.seen }
        ensures idle { result ≡ Err TakeError.Idle → SeesNoWork seat.new }
    {
        let mut held = self.turn.enter(rt, &mut seat.seat);
        let _before = held.value().bench.diary();
        let answer = held.value_mut().bench.take(seat.actor);
        let _after = held.value().bench.diary();
        self.turn.leave(&mut seat.seat, held, answer.is_ok());
        answer
    }

    /// Takes the best clause on offer, and waits while nothing is.
    pub fn next_work<R: Wait>(&self, rt: &R, seat: &mut ReducerSeat) -> Result<Taken, BenchError>
        requires lock { seat.old.lock ≡ self.now }
        requires able { Enables seat.old (Take seat.old.actor) }
        ensures sees { SeesMore seat.old seat.new }
        ensures turns { seat.old.turns < seat.new.turns }
        ensures ok { IfOk result (λ taken. Makes seat.old seat.new (Take seat.old.actor)
            (λ s. IsBestOffer s taken.id taken.clause)) }
        ensures err { OnErr result (MakesNone seat.old seat.new) }
        ensures closed { result ≡ Err BenchError.Closed → IsClosed seat.new.seen }
    {
        let _actor = seat.actor();
        for _ in rt.forever() {
            // Read before the look, so that a clause that is offered after it is a call not seen yet.
            let calls = self.bell.calls();
            match self.take(rt, seat) {
                Ok(taken) => return Ok(taken),
                // A wait that ends without a signal does no harm: it is only tried again.
                Err(TakeError::Idle) => self.bell.wait(rt, &seat.parker, calls),
                Err(TakeError::Closed) => return Err(BenchError::Closed),
                Err(TakeError::OutOfMemory) => return Err(BenchError::OutOfMemory),
            }
        }
        unreachable!()
    }

    /// Gives back what became of the clause that was taken. The answer is the id of a shorter one.
    pub fn give_back<R: Wait>(
        &self,
        rt: &R,
        seat: &mut ReducerSeat,
        outcome: Strengthened,
    ) -> Result<Option<u64>, BenchError>
        requires lock { seat.old.lock ≡ self.now }
        requires able { Enables seat.old (Return seat.old.actor outcome) }
        ensures turn { TakesTurn seat.old seat.new }
        ensures ok { IfOk result (λ id. Makes seat.old seat.new (Return seat.old.actor outcome)
            (λ s. id ≡ id_of_outcome s outcome)) }
        ensures err { OnErr result (MakesNone seat.old seat.new) }
        ensures closed { result ≡ Err BenchError.Closed → IsClosed seat.new.seen }
    {
        let wakes = is_empty(&outcome);
        let mut held = self.turn.enter(rt, &mut seat.seat);
        let _before = held.value().bench.diary();
        let answer = held.value_mut().bench.give_back(seat.actor, outcome);
        let _after = held.value().bench.diary();
        self.turn.leave(&mut seat.seat, held, answer.is_ok());
        self.wake_if(wakes);
        answer
    }

    /// Adds a unit clause. The answer is its id.
    pub fn reducer_unit<R: Wait>(
        &self,
        rt: &R,
        seat: &mut ReducerSeat,
        lit: Lit,
        hints: Ids,
    ) -> Result<u64, BenchError>
        requires lock { seat.old.lock ≡ self.now }
        requires able { Enables seat.old (entry.Unit seat.old.actor lit hints) }
        ensures turn { TakesTurn seat.old seat.new }
        ensures ok { IfOk result (λ id. Makes seat.old seat.new (entry.Unit seat.old.actor lit hints)
            (λ s. id ≡ s.next)) }
        ensures err { OnErr result (MakesNone seat.old seat.new) }
        ensures closed { result ≡ Err BenchError.Closed → IsClosed seat.new.seen }
    {
        let mut held = self.turn.enter(rt, &mut seat.seat);
        let _before = held.value().bench.diary();
        let answer = held.value_mut().bench.unit(seat.actor, lit, hints);
        let _after = held.value().bench.diary();
        self.turn.leave(&mut seat.seat, held, answer.is_ok());
        answer
    }

    /// Lets the ids go.
    pub fn reducer_forget<R: Wait>(
        &self,
        rt: &R,
        seat: &mut ReducerSeat,
        ids: Ids,
    ) -> Result<(), BenchError>
        requires lock { seat.old.lock ≡ self.now }
        requires able { Enables seat.old (Forget seat.old.actor ids) }
        ensures turn { TakesTurn seat.old seat.new }
        ensures ok { OnOk result (Makes seat.old seat.new (Forget seat.old.actor ids) Anything) }
        ensures err { OnErr result (MakesNone seat.old seat.new) }
        ensures closed { result ≡ Err BenchError.Closed → IsClosed seat.new.seen }
    {
        let mut held = self.turn.enter(rt, &mut seat.seat);
        let _before = held.value().bench.diary();
        let answer = held.value_mut().bench.forget(seat.actor, ids);
        let _after = held.value().bench.diary();
        self.turn.leave(&mut seat.seat, held, answer.is_ok());
        answer
    }
}

/// Whether it is the empty clause.
fn is_empty(outcome: &Strengthened) -> bool {
    match outcome {
        Strengthened::Same => false,
        Strengthened::Shorter { clause, .. } => clause.lits().is_empty(),
    }
}
