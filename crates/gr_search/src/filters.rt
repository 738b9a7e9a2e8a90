// Which learnt clauses are offered.
ghost use Rattle.std.specs.Prelude.{◌≡◌, ◌<◌, ◌≤◌, false};
ghost use Rattle.gr_search.specs.Filters.{OffersLow};
ghost use Rattle.gr_search.specs.Offers.{HasShortClause, unoffered};
ghost use Rattle.gr_search.specs.Turns.{IsOfferedBy};

use crate::asks::Ask;

/// Decides by LBD and length which learnt clauses are offered.
#[derive(Drop)]
pub struct OfferFilter<F> {
    pub f: F,
}

impl<F: Fn(u32, u32) -> bool> OfferFilter<F> {
    /// A filter that asks the closure for each clause of at least two literals.
    pub fn new(f: F) -> OfferFilter<F>
        requires callable { F.IsAlwaysCallable f }
        requires low { OffersLow (F.post f) }
        ensures { result.f ≡ f }
    {
        OfferFilter { f }
    }

    /// Whether a clause of this LBD and this many literals is offered.
    pub fn offers(&self, lbd: u32, len: u32) -> bool
        requires callable { F.IsAlwaysCallable self.now.f }
        ensures short { len < 2 → result ≡ false }
        ensures long { 2 ≤ len → F.post self.now.f lbd len result }
    {
        len >= 2 && (self.f)(lbd, len)
    }

    /// The same ask, where a clause that is to be learnt is offered as the filter answers.
    pub(crate) fn offer(&self, ask: Ask) -> Ask
        requires callable { F.IsAlwaysCallable self.now.f }
        requires short { HasShortClause ask }
        ensures same { unoffered result ≡ unoffered ask }
        ensures offered { IsOfferedBy (F.post self.now.f) result }
    {
        match ask {
            Ask::Learn {
                clause,
                hints,
                lbd,
                ..
            } => {
                let offered = self.offers(lbd, clause.lits().len() as u32);
                Ask::Learn {
                    clause,
                    hints,
                    lbd,
                    offered,
                }
            }
            other => other,
        }
    }
}
