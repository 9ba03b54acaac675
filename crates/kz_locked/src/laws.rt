//! Laws over stays and books, each the contract of a function that does nothing.
ghost use Rattle.kz_locked.specs.Visits.{VisitsAreStays, SettlingsAreStays};
ghost use Rattle.kz_locked.specs.Zone.{OneMoreStayIsKept, PassesKnowParts, VisitsGoOn, SettlingsGoOn, StaysCarryFirstSteps, NewZonesAreLocked};

/// A visit to a book is a stay.
pub fn visits_are_stays()
    ensures { VisitsAreStays }
{}

/// A settled visit is one too.
pub fn settlings_are_stays()
    ensures { SettlingsAreStays }
{}

/// A locked zone stays one with one more stay.
pub fn one_more_stay_is_kept()
    ensures { OneMoreStayIsKept }
{}

/// What a pass of a zone's turn knows is what its CPU has of the zone.
pub fn passes_know_parts()
    ensures { PassesKnowParts }
{}

/// A visit to a locked zone is one more stay there.
pub fn visits_go_on()
    ensures { VisitsGoOn }
{}

/// A settled visit to a locked zone is one more stay there too.
pub fn settlings_go_on()
    ensures { SettlingsGoOn }
{}

/// A new zone can be put behind a turn.
pub fn new_zones_are_locked()
    ensures { NewZonesAreLocked }
{}

/// The stays of a locked zone carry the first of each CPU's steps of a round.
pub fn stays_carry_first_steps()
    ensures { StaysCarryFirstSteps }
{}
