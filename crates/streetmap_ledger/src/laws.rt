//! Laws of the definitions.
ghost use Rattle.streetmap_ledger.specs.Laws.{RepeatActsOnce, AcceptedAreEnough};
ghost use Rattle.streetmap_ledger.specs.Laws.{RefusedChangesNothing, SelectedAreCandidates};
ghost use Rattle.streetmap_ledger.specs.WellFormed.{StaysWellFormed};
ghost use Rattle.streetmap_ledger.specs.Walks.{WalksShowAll};

/// A batch that is sent again after it was accepted or repeated changes nothing.
pub fn repeat_acts_once()
    ensures { RepeatActsOnce }
{}

/// The state after a list of batches is that after only its accepted ones, which are all accepted
/// when they are given again.
pub fn accepted_are_enough()
    ensures { AcceptedAreEnough }
{}

/// A refused batch changes nothing, and if an edit was at fault its key may be used again.
pub fn refused_changes_nothing()
    ensures { RefusedChangesNothing }
{}

/// The opening state is well-formed, and each batch that the type of batches can hold keeps a state
/// so: names, titles, time properties and keys follow the rules, and its features are features.
pub fn states_stay_well_formed()
    ensures { StaysWellFormed }
{}

/// A walk over the pages of a collection, from each to the one after its last id, misses nothing
/// and repeats nothing; and one exists.
pub fn walks_show_all()
    ensures { WalksShowAll }
{}

/// A feature that a query selects is a candidate: its extent and its seconds overlap those of the
/// query. So a page of only the candidates is the page of all features.
pub fn selected_are_candidates()
    ensures { SelectedAreCandidates }
{}
