//! Laws of plans. Each is the contract of a function that does nothing.
ghost use Rattle.nrm_plan.specs.Laws.{EachHasAPlan, NestsAreThoseDefined, PlansAreDetermined, PlansAreOptimal};

/// Each plan that solves a linear program has an optimal allocation and optimal bid prices.
pub fn plans_are_optimal()
    ensures { PlansAreOptimal }
{}

/// A network has a plan in each mode, for all seats left and periods, or the linear program is Large.
pub fn each_has_a_plan()
    ensures { EachHasAPlan }
{}

/// It is one plan, or Large in one place; never both.
pub fn plans_are_determined()
    ensures { PlansAreDetermined }
{}

/// What `Plan::bucket` and `Plan::protection` look up of a plan of a network are the bucket and the protection that the
/// definitions give at the plan's bid prices.
pub fn nests_are_those_defined()
    ensures { NestsAreThoseDefined }
{}
