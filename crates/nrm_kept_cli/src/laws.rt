//! Laws of sessions that keep their bookings. Each is the contract of a function that does nothing.
ghost use Rattle.nrm_kept_cli.specs.Laws.{FaultsLeaveNothing, KeptHindsightBounds, KeptMoneyAddsUp, KeptPlansAreOptimal, KeptRunsHaveFirstParts, KeptRunsOversellNoLeg, RowsLoadAgain};

/// A line that is answered `store` or `memory` leaves everything as it was: without such lines a run is one of a session without a store.
pub fn faults_leave_nothing()
    ensures { FaultsLeaveNothing }
{}

/// No leg has more seats sold than are authorised once rows have loaded, nor after any commands from there, whatever the faults of the
/// store.
pub fn kept_runs_oversell_no_leg()
    ensures { KeptRunsOversellNoLeg }
{}

/// At each line of hindsight that tells a value, no selection of the loaded bookings and of the requests since that fits the authorised
/// seats earns more; and the bookings that stand are such a selection.
pub fn kept_hindsight_bounds()
    ensures { KeptHindsightBounds }
{}

/// The bookings of a book load again from their rows, just as they stand, as long as a store can hold their numbers.
pub fn rows_load_again()
    ensures { RowsLoadAgain }
{}

/// What the loaded bookings are worth, and what was sold since, is the revenue of the bookings that stand, what was given back since,
/// and what is withheld.
pub fn kept_money_adds_up()
    ensures { KeptMoneyAddsUp }
{}

/// What a `plan` line prints once rows have loaded, after any commands from there, are optimal bid prices.
pub fn kept_plans_are_optimal()
    ensures { KeptPlansAreOptimal }
{}

/// Each first part of a run is a run, and the rest is one from where it came.
pub fn kept_runs_have_first_parts()
    ensures { KeptRunsHaveFirstParts }
{}
