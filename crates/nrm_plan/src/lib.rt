//! Plans: one optimisation's result, of which requests are answered until the next one.
//!
//! A caller meets the calls of `Plan` in this order, and the tests run such sequences:
//! - `SeatsLeft`, begun with `new` and filled by `push`, or `of` a list, which `as_slice` gives again: the seats left, leg by leg;
//! - `opening`, the plan before anything is sold, and `make`, the plan at some seats left from a period on;
//! - `mode` and `period`, what was optimised, and `mean_value`, `certificate` and `price`, what that gave;
//! - `protected_from`, for each leg of a request, and `fare_refuses`, where its legs have the seats;
//! - `bucket` and `protection`, the nests of a plan, to be told.
#![tactic(auto)]

mod fares;
mod laws;
mod nests;
mod plan;
mod seats;

pub use laws::{each_has_a_plan, nests_are_those_defined, plans_are_determined, plans_are_optimal};
pub use plan::Plan;
pub use seats::SeatsLeft;
