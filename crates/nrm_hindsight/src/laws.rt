//! Laws of hindsight. Each is a clause of a function that does nothing.
ghost use Rattle.nrm_hindsight.specs.Laws.{
  BookingsAreSelected,
  SelectionsAllocate,
  SelectionsAreBounded,
  SomeRequestsStand,
  TalliesAreCapped,
  TalliesGrow,
};

/// The value of hindsight bounds what every choice of past requests earns that fits the authorised seats of each leg, each
/// request whole and at most once: such a choice is an allocation of its linear program. Bookings that are among the requests and
/// take no more than the authorised seats of a leg are such a choice, and earn their revenue.
pub fn selections_are_bounded()
    ensures allocates { SelectionsAllocate }
    ensures bounded { SelectionsAreBounded }
    ensures bookings { BookingsAreSelected }
{}

/// Tallies that are kept capped by the least authorised seats suffice: they grow request by request, and where they are at
/// least what is booked, they are those of some requests of which the bookings are a choice.
pub fn tallies_suffice()
    ensures capped { TalliesAreCapped }
    ensures grow { TalliesGrow }
    ensures stand { SomeRequestsStand }
{}
