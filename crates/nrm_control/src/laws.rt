//! Laws of controllers and states. Each is the contract of a function that does nothing.
ghost use Rattle.nrm_control.specs.Standing.{RepresentsSome};

/// Each controller represents some state, so that what is said of all states that it represents isn't empty: there are
/// requests with its tallies, of which its bookings are a choice.
pub fn represents_some()
    ensures { RepresentsSome }
{}
