//! Laws of groupings and divisions. Each is the contract of a function that does nothing.
ghost use Rattle.nrm_cluster.specs.Laws.{CentresAreBest, NoGroupingCostsLess, OneDivisionIsChosen, ThresholdsGroup};

/// The centre of a piece is a best one: at no other whole number does the piece cost less.
pub fn centres_are_best()
    ensures { CentresAreBest }
{}

/// No grouping of the values, with any centres whatever, costs less than the chosen division.
pub fn no_grouping_costs_less()
    ensures { NoGroupingCostsLess }
{}

/// There is at most one chosen division.
pub fn one_division_is_chosen()
    ensures { OneDivisionIsChosen }
{}

/// The cuts of the chosen division, used as thresholds, group the values just as it does, and at its centres cost what it does.
pub fn thresholds_group()
    ensures { ThresholdsGroup }
{}
