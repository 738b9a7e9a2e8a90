// Laws of the definitions: each is the contract of a function that does nothing.
ghost use Rattle.gr_work.specs.Laws.{BestIsBest, NoOtherIsBest, SomeItemIsBest};

/// The best item stands in the list; none before it is better, and each after it is worse.
pub fn best_is_best()
    ensures { BestIsBest }
{}

/// What stands in the list so is the best item.
pub fn no_other_is_best()
    ensures { NoOtherIsBest }
{}

/// A list with items has a best one.
pub fn some_item_is_best()
    ensures { SomeItemIsBest }
{}
