//! Laws of whole sessions. Each is the contract of a function that does nothing.
ghost use Rattle.nrm_session.specs.Headline.{RequestsAreAnswered};
ghost use Rattle.nrm_session.specs.Hindsight.{HindsightBounds, HindsightBoundsOn};
ghost use Rattle.nrm_session.specs.LastPlan.{PrintedFromOpeningPlans, PrintedPricesAreOptimal};
ghost use Rattle.nrm_session.specs.Laws.{EachListHasARun, OtherLinesNeedNoMemory, PlansStayOptimal, RepliesAreDetermined};
ghost use Rattle.nrm_session.specs.Laws.{RunsHaveFirstParts};
ghost use Rattle.nrm_session.specs.Laws.{RunsOversellNoLeg, StatesAreDetermined};
ghost use Rattle.nrm_session.specs.Money.{MoneyAddsUp, MoneyGoesOn};
ghost use Rattle.nrm_session.specs.PhysicalSeats.{PhysicalSeatsDecideNothing};

/// No leg has more seats sold than are authorised in an opening, and a run keeps that from any state.
pub fn runs_oversell_no_leg()
    ensures { RunsOversellNoLeg }
{}

/// The commands of a session determine its replies and its states, where no line runs out of memory.
pub fn replies_are_determined()
    ensures { RepliesAreDetermined }
{}

/// Memory runs out at lines of `reoptimise` and of `hindsight` alone, and then nothing changes.
pub fn other_lines_need_no_memory()
    ensures { OtherLinesNeedNoMemory }
{}

/// The commands of a session and its replies determine its states.
pub fn states_are_determined()
    ensures { StatesAreDetermined }
{}

/// From each state, each list of commands has a run in which no line runs out of memory.
pub fn each_list_has_a_run()
    ensures { EachListHasARun }
{}

/// The plan in force is one of the network in each opening, and a run keeps that from any state; where its mode solves linear programs,
/// its bid prices are optimal duals of the linear program at the plan's seats left and period.
pub fn plans_stay_optimal()
    ensures { PlansStayOptimal }
{}

/// What a `plan` line prints, after any commands from an opening, are optimal bid prices of the linear program at the seats left and
/// from the period of the last line that was answered `optimised`, or of the opening.
pub fn printed_prices_are_optimal()
    ensures opening { PrintedPricesAreOptimal }
    ensures on { PrintedFromOpeningPlans }
{}

/// Each first part of a run is a run, and the rest is one from where it came.
pub fn runs_have_first_parts()
    ensures { RunsHaveFirstParts }
{}

/// A request is sold exactly when on every leg the seats left cover the party plus the protection above its bucket, and its fare
/// reaches the sum of the bid prices; else the first leg that is short is named, or the fare.
pub fn requests_are_answered()
    ensures { RequestsAreAnswered }
{}

/// At each line of hindsight that tells a value, no selection of the requests so far, sold or not, each whole and at most once, that
/// fits the seats earns more; and the bookings that stand are such a selection, of the revenue that is told.
pub fn hindsight_bounds()
    ensures opening { HindsightBounds }
    ensures on { HindsightBoundsOn }
{}

/// After any commands from an opening, what was sold in all is the revenue of the bookings that stand, what was given back, and what
/// is withheld, to the unit.
pub fn money_adds_up()
    ensures opening { MoneyAddsUp }
    ensures on { MoneyGoesOn }
{}

/// Two networks that differ in their physical seats alone have the same opening plan, or their opening linear programs are too large in the
/// same place; and from one state, with its plan, they have the same replies to the same commands, but for the text of a leg.
pub fn physical_seats_decide_nothing()
    ensures { PhysicalSeatsDecideNothing }
{}
