// The search over a shared exchange, from the searching thread's seat.
ghost use Rattle.std.specs.Prelude.{◌≡◌, ◌≤◌, [], All, IfOk, OnErr};
ghost use Rattle.gr_diary.specs.Histories.{entries_of};
ghost use Rattle.gr_seat.specs.Handles.{Enables};
ghost use Rattle.gr_seat.specs.Turns.{SeesMore};
ghost use Rattle.gr_search.specs.Filters.{OffersLow};
ghost use Rattle.gr_search.specs.Searches.{IsBegun};
ghost use Rattle.gr_search.specs.Turns.{entry_of};
ghost use Rattle.gr_run.specs.Answers.{id_told};
ghost use Rattle.gr_run.specs.Offers.{AnswersUpTo, IsOfferedUpTo};
ghost use Rattle.gr_run.specs.Results.{AreInRange};
ghost use Rattle.gr_run.specs.Runs.{HasRoom};
ghost use Rattle.gr_run.specs.Shared.{HasNotSearched, HasWaited, IsSeatAnswer, IsStanding, IsFoundFrom, IsEndedAt, IsRunFrom};

use crate::answers::{Answer, settle, tell_forget, tell_id, tell_import};
use crate::options::SolveOptions;
use gr_bench::BenchError;
use gr_io::{Gate, Point};
use gr_logic::{Formula, OutOfMemory};
use gr_search::{Ask, Found, OfferFilter, Search, Told};
use gr_seat::{SharedBench, SolverSeat};
use std::alloc::Global;
use std::sync::Wait;

/// The searching thread's seat, and what the search found.
#[derive(Drop)]
pub struct Searched {
    pub seat: SolverSeat,
    pub found: Result<Found, OutOfMemory>,
}

/// Runs a search over a shared exchange, and closes the exchange, also where it wants memory.
pub fn search_on<R: Wait, G: Gate>(
    rt: &R,
    alloc: Global,
    bench: &SharedBench,
    seat: SolverSeat,
    formula: &Formula,
    options: &SolveOptions,
    gate: &G,
) -> Searched
    requires lock { seat.lock ≡ bench.now }
    requires formula { seat.formula ≡ formula.now }
    requires in_range { AreInRange options.now }
    requires first { entries_of seat.seen 0 ≡ [] }
    ensures sees { SeesMore seat result.seat }
    ensures ended { IsEndedAt options.now.conflicts options.now.keep_all result.seat }
    ensures offered { All (IsOfferedUpTo options.now.offer) result.seat.seen }
    ensures found { IfOk result.found (IsRunFrom options.now.conflicts options.now.keep_all result.seat) }
    ensures room { IfOk result.found (HasRoom formula.now options.now.conflicts options.now.keep_all) }
{
    // The seat says that it is the searching thread's, and that it has seen a legal history.
    let _actor = seat.actor();
    let mut seat = seat;
    let found = search_from(rt, alloc, bench, &mut seat, formula, options, gate);
    let closing = bench.close(rt, &mut seat);
    match found {
        Ok(found) => Searched {
            seat,
            found: Ok(settle(found, closing)),
        },
        Err(OutOfMemory) => Searched {
            seat,
            found: Err(OutOfMemory),
        },
    }
}

/// Makes a search with these options and runs it.
fn search_from<R: Wait, G: Gate>(
    rt: &R,
    alloc: Global,
    bench: &SharedBench,
    seat: &mut SolverSeat,
    formula: &Formula,
    options: &SolveOptions,
    gate: &G,
) -> Result<Found, OutOfMemory>
    requires lock { seat.old.lock ≡ bench.now }
    requires formula { seat.old.formula ≡ formula.now }
    requires in_range { AreInRange options.now }
    requires seat { HasNotSearched seat.old }
    ensures standing { IsStanding options.now.offer options.now.conflicts options.now.keep_all seat.old seat.new }
    ensures found { IfOk result (IsFoundFrom options.now.conflicts options.now.keep_all seat.new) }
{
    let offer = options.offer;
    let filter = OfferFilter::new(move |lbd: u32, _len: u32| lbd <= offer);
    let mut search = Search::new(alloc, formula, options.conflicts, options.keep_all, filter)?;
    drive_on(rt, bench, seat, &mut search, offer, gate)
}

/// Runs a search until it is done. Its filter offers clauses up to this LBD.
fn drive_on<R: Wait, G: Gate, F: Fn(u32, u32) -> bool + Drop>(
    rt: &R,
    bench: &SharedBench,
    seat: &mut SolverSeat,
    search: &mut Search<F>,
    offer: u32,
    gate: &G,
) -> Result<Found, OutOfMemory>
    requires lock { seat.old.lock ≡ bench.now }
    requires callable { F.IsAlwaysCallable search.old.filter.f }
    requires low { OffersLow (F.post search.old.filter.f) }
    requires bounded { AnswersUpTo offer (F.post search.old.filter.f) }
    requires begun { IsBegun seat.old.formula search.old.state.limit search.old.state.keep_all search.old.state }
    requires some { 1 ≤ search.old.state.limit }
    requires seat { HasNotSearched seat.old }
    ensures standing { IsStanding offer search.old.state.limit search.old.state.keep_all seat.old seat.new }
    ensures found { IfOk result (IsFoundFrom search.old.state.limit search.old.state.keep_all seat.new) }
{
    // It is a number of 32 bits.
    let _bound = offer;
    let mut told = Told::Start;
    for _round in rt.forever() {
        let ask = search.turn(told)?;
        match answer_on(rt, bench, seat, ask, gate)? {
            Answer::Told(next) => told = next,
            Answer::Found(found) => return Ok(found),
        }
    }
    unreachable!()
}

/// Makes the entry that is asked for.
fn answer_on<R: Wait, G: Gate>(
    rt: &R,
    bench: &SharedBench,
    seat: &mut SolverSeat,
    ask: Ask,
    gate: &G,
) -> Result<Answer, OutOfMemory>
    requires lock { seat.old.lock ≡ bench.now }
    requires solver { seat.old.actor ≡ 0 }
    requires able { Enables seat.old (entry_of ask) }
    ensures ok { IfOk result (λ answer. IsSeatAnswer seat.old ask answer seat.new) }
    ensures err { OnErr result (HasWaited seat.old seat.new) }
{
    match ask {
        Ask::Learn {
            clause,
            hints,
            lbd,
            offered,
        } => {
            let told = tell_learnt(bench.learn(rt, seat, clause, hints, lbd, offered), gate)?;
            Ok(Answer::Told(told))
        }
        Ask::Unit { lit, hints } => {
            let told = tell_id(bench.solver_unit(rt, seat, lit, hints))?;
            Ok(Answer::Told(told))
        }
        Ask::Import => {
            let told = tell_import(bench.import(rt, seat))?;
            Ok(Answer::Told(told))
        }
        Ask::Forget { ids } => {
            let told = tell_forget(bench.solver_forget(rt, seat, ids))?;
            Ok(Answer::Told(told))
        }
        Ask::Done(found) => Ok(Answer::Found(found)),
    }
}

/// A clause got its id, and the gate is passed; or the history is closed.
fn tell_learnt<G: Gate>(answer: Result<u64, BenchError>, gate: &G) -> Result<Told, OutOfMemory>
    ensures { result ≡ id_told answer }
{
    if answer.is_ok() {
        gate.pass(0, Point::Learnt);
    }
    tell_id(answer)
}
