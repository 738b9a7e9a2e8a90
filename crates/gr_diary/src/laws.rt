// Laws of the definitions: each is the contract of a function that does nothing.
ghost use Rattle.gr_diary.specs.Laws.{HistoriesGrow, BeginningsAreLegal, NoLineIsRefused, AddedClausesAreImplied, ReturnedClausesAreParts, EmptyClausesRefute, EntriesKeepTheInvariant, HistoriesKeepTheInvariant, OthersKeepHeld, OwnPartStays, EnabledStays, HeldClausesAreLive, StatesTellTheEnd, NothingFollowsTheEnd, OnlyLostIdsLeave};
ghost use Rattle.gr_diary.specs.DiaryLaws.{JournalsTellTheLog};
ghost use Rattle.gr_diary.specs.LogIds.{LinesHaveIds};
ghost use Rattle.gr_diary.specs.HoldingLaws.{HeldClausesChange, PartsShowHeldClauses, AloneThereAreNoResults};
ghost use Rattle.gr_diary.specs.OwnParts.{OwnPartMoves};

/// A history grows entry by entry, and each beginning of a legal one is legal.
pub fn histories_grow()
    ensures push { HistoriesGrow }
    ensures begins { BeginningsAreLegal }
{}

/// No line of a legal history's log is refused.
pub fn no_line_is_refused()
    ensures { NoLineIsRefused }
{}

/// Each clause that a legal history adds is implied by the formula.
pub fn added_clauses_are_implied()
    ensures { AddedClausesAreImplied }
{}

/// A clause that a reducer gives back is a proper part of the one that it took last.
pub fn returned_clauses_are_parts()
    ensures { ReturnedClausesAreParts }
{}

/// The log of a legal history that adds the empty clause is accepted, and no assignment satisfies the formula.
pub fn empty_clauses_refute()
    ensures { EmptyClausesRefute }
{}

/// Each entry keeps the invariant from any state that has it, and the state after a legal history has it.
pub fn entries_keep_the_invariant()
    ensures each { EntriesKeepTheInvariant }
    ensures all { HistoriesKeepTheInvariant }
    ensures others { OthersKeepHeld }
{}

/// What an actor holds, may cite, has taken and may do depends on its own entries alone, and what it holds stays live.
pub fn own_part_stays()
    ensures part { OwnPartStays }
    ensures enabled { EnabledStays }
    ensures live { HeldClausesAreLive }
{}

/// What an entry does to its actor's part: what the actor holds and has taken changes by the entry, and no clause that
/// it may cite then is deleted.
pub fn own_part_moves()
    ensures { OwnPartMoves }
{}

/// A state is closed, or refuted, just where the history is, and nothing follows on a closed history.
pub fn closed_histories_end()
    ensures told { StatesTellTheEnd }
    ensures last { NothingFollowsTheEnd }
{}

/// Only ids that lose a holder by an entry leave at it.
pub fn only_lost_ids_leave()
    ensures { OnlyLostIdsLeave }
{}

/// The lines of a diary that has a history's entries, and at each the ids that left, are the history's log.
pub fn journals_tell_the_log()
    ensures { JournalsTellTheLog }
{}

/// What an actor holds changes by its own entries as they say, its part shows just this, and without reducers there
/// are no results.
pub fn own_entries_change_what_is_held()
    ensures change { HeldClausesChange }
    ensures shown { PartsShowHeldClauses }
    ensures alone { AloneThereAreNoResults }
{}

/// A log may write each id of a legal history's lines.
pub fn lines_have_ids()
    ensures { LinesHaveIds }
{}
