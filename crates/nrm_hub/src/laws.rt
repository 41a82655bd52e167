//! Laws of many desks. Each is the contract of a function that does nothing.
ghost use Rattle.nrm_hub.specs.Desks.{DesksAreServed, RightsHold, RowsGiveTheState};

/// Whatever happens at the desks, in whatever order: all that was carried out is one run of the session; the rows that were given out are just
/// those of what was carried out, with their replies; each client is sent the replies to its own lines, in order, none before the rows of all that
/// was answered before are kept, and all of them once these were told and until the next line is answered or somebody is to be closed; of each desk
/// each number is carried out at most once, a line that comes again gets the reply that it had, and a desk holds just what its own rows leave.
pub fn desks_are_served()
    ensures { DesksAreServed }
{}

/// A line beyond a client's rights, be it a greeting, `ask` or a command, changes nothing, and is told so.
pub fn rights_hold()
    ensures { RightsHold }
{}

/// The rows of the journal give the state: who is given them again, cut anywhere between two, stands where the other stood after these.
pub fn rows_give_the_state()
    ensures { RowsGiveTheState }
{}
