// A run on one thread.
ghost use Rattle.std.specs.Prelude.{◌≡◌, ◌≤◌, [], All, IfOk, OnOk, OnErr};
ghost use Rattle.gr_diary.specs.Histories.{IsLegal};
ghost use Rattle.gr_bench.specs.Exchanges.{IsEnabledAt, IsSameExchange, IsUnchanged};
ghost use Rattle.gr_search.specs.Filters.{OffersLow};
ghost use Rattle.gr_search.specs.Searches.{IsBegun};
ghost use Rattle.gr_search.specs.Turns.{entry_of};
ghost use Rattle.gr_run.specs.Alone.{IsAnswer, IsFoundAt};
ghost use Rattle.gr_run.specs.Offers.{AnswersUpTo, IsOfferedUpTo};
ghost use Rattle.gr_run.specs.Results.{AreInRange, IsRan};

use crate::answers::{Answer, settle, tell_forget, tell_id, tell_import};
use crate::options::SolveOptions;
use crate::results::{Ran, report};
use gr_bench::Bench;
use gr_logic::{Formula, OutOfMemory};
use gr_search::{Ask, Found, OfferFilter, Search, Told};
use std::alloc::Global;

/// Solves a formula on one thread, with no reducers.
pub fn solve_alone(
    alloc: Global,
    formula: &Formula,
    options: &SolveOptions,
) -> Result<Ran, OutOfMemory>
    requires alone { options.now.reducers ≡ 0 }
    requires in_range { AreInRange options.now }
    ensures ran { IfOk result (λ ran. IsRan formula.now options.now ran) }
    ensures offered { IfOk result (λ ran. All (IsOfferedUpTo options.now.offer) ran.diary.entries) }
{
    // The formula's clauses say that there are few, so that the log's ids can be written.
    let _few = formula.clauses();
    let offer = options.offer;
    let filter = OfferFilter::new(move |lbd: u32, _len: u32| lbd <= offer);
    let mut bench = Bench::open(alloc, formula, 0, options.capacity)?;
    let mut search = Search::new(alloc, formula, options.conflicts, options.keep_all, filter)?;
    let found = drive(&mut bench, &mut search, offer)?;
    let closing = bench.close();
    Ok(report(alloc, settle(found, closing), bench.into_diary()))
}

/// Runs a search over an exchange until it is done. Its filter offers clauses up to this LBD.
fn drive<F: Fn(u32, u32) -> bool + Drop>(
    bench: &mut Bench,
    search: &mut Search<F>,
    offer: u32,
) -> Result<Found, OutOfMemory>
    requires callable { F.IsAlwaysCallable search.old.filter.f }
    requires low { OffersLow (F.post search.old.filter.f) }
    requires bounded { AnswersUpTo offer (F.post search.old.filter.f) }
    requires begun { IsBegun bench.old.formula search.old.state.limit search.old.state.keep_all search.old.state }
    requires some { 1 ≤ search.old.state.limit }
    requires alone { bench.old.reducers ≡ 0 }
    requires empty { bench.old.diary.entries ≡ [] }
    ensures same { IsSameExchange bench.old bench.new }
    ensures found { IfOk result (IsFoundAt search.old.state.limit search.old.state.keep_all bench.new) }
    ensures offered { OnOk result (All (IsOfferedUpTo offer) bench.new.diary.entries) }
{
    // It is a number of 32 bits.
    let _bound = offer;
    let mut told = Told::Start;
    loop {
        let ask = search.turn(told)?;
        match answer(bench, ask)? {
            Answer::Told(next) => told = next,
            Answer::Found(found) => return Ok(found),
        }
    }
}

/// Makes the entry that is asked for.
fn answer(bench: &mut Bench, ask: Ask) -> Result<Answer, OutOfMemory>
    requires legal { IsLegal bench.old.formula bench.old.reducers bench.old.capacity bench.old.diary.entries }
    requires able { IsEnabledAt bench.old (entry_of ask) }
    ensures ok { IfOk result (λ answer. IsAnswer bench.old ask answer bench.new) }
    ensures err { OnErr result (IsUnchanged bench.old bench.new) }
{
    match ask {
        Ask::Learn {
            clause,
            hints,
            lbd,
            offered,
        } => {
            let told = tell_id(bench.learn(clause, hints, lbd, offered))?;
            Ok(Answer::Told(told))
        }
        Ask::Unit { lit, hints } => {
            let told = tell_id(bench.unit(0, lit, hints))?;
            Ok(Answer::Told(told))
        }
        Ask::Import => {
            let told = tell_import(bench.import())?;
            Ok(Answer::Told(told))
        }
        Ask::Forget { ids } => {
            let told = tell_forget(bench.forget(0, ids))?;
            Ok(Answer::Told(told))
        }
        Ask::Done(found) => Ok(Answer::Found(found)),
    }
}
