//! The dynamic program of one leg: its classes ask from the lowest fare to the highest, and each is sold what is best, however much
//! each asks for. A caller asks `leg_classes` for the classes of a leg, `leg_values` for their table, and the table for its values
//! and protections.
#![tactic(auto)]

mod classes;
mod laws;
mod limits;
mod table;

pub use classes::{ClassFault, Classes, leg_classes};
pub use laws::{
    a_further_seat_adds_no_more, earned_over_seasons, no_policy_earns_more, protections_earn_all,
    remembering_earns_no_more,
};
pub use limits::MOST_CLASSES;
pub use table::{LegTable, leg_values};
