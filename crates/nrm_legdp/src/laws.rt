//! Laws of the values of seats. Each is the contract of a function that does nothing. The model is the static one of a single leg
//! (chapter 2 of Talluri and van Ryzin): the classes ask one after the other, the lowest fare first, and each independently of the others.
ghost use Rattle.nrm_legdp.specs.Laws.{DifferencesFall, NoPolicyEarnsMore, ProtectionsEarnAll};
ghost use Rattle.nrm_legdp.specs.Seasons.{EarnedOverSeasons, RememberingEarnsNoMore};

/// A further seat adds no more to the value than the seat before it.
pub fn a_further_seat_adds_no_more()
    ensures { DifferencesFall }
{}

/// No policy earns more than the value: none of all tables that say how much is sold of what is left and asked for.
pub fn no_policy_earns_more()
    ensures { NoPolicyEarnsMore }
{}

/// To sell what is left above the protections is a policy, and it earns the value.
pub fn protections_earn_all()
    ensures { ProtectionsEarnAll }
{}

/// What a policy earns is the sum over all seasons, in each of which each class has the demand of one of its histories: over their
/// number it is the policy's expected revenue (chapter 2 of Talluri and van Ryzin).
pub fn earned_over_seasons()
    ensures { EarnedOverSeasons }
{}

/// No policy that remembers what was asked for before earns more than the value.
pub fn remembering_earns_no_more()
    ensures { RememberingEarnsNoMore }
{}
