//! Thresholds of least cost: the fares on a leg are cut into neighbouring groups, so that the weighted sum of their distances
//! to the middle of their group is the least there is. A caller asks `leg_points` for the fares on a leg, each with the demand
//! at it, and `best_cuts` for the thresholds.
#![tactic(auto)]

mod chosen;
mod cuts;
mod laws;
mod limits;
mod pieces;
mod points;
mod table;

pub use cuts::{Cuts, best_cuts};
pub use laws::{
    centres_are_best, no_grouping_costs_less, one_division_is_chosen, thresholds_group,
};
pub use limits::{MOST_GROUPS, MOST_WEIGHT};
pub use points::{Asked, Points, leg_points};
