//! The controller: what is sold of a network, and whether a request is.
//!
//! A caller meets the calls of `Controller` in this order, as in the tests `serves_by_hand` and `serves_at_bid_prices_by_hand`:
//! - `start`, with nothing sold;
//! - `request`, which gives an `Answer`, and `cancel`;
//! - `reoptimise`, a new plan at the seats left;
//! - `hindsight`, what past requests could have earned, `tally`, what was asked for of a product, and `withheld`, what cancellations
//!   didn't give back;
//! - `network`, `plan` and `book`, what is in force, to be told; `limits_hold` says by its clause that it is within the limits.
#![tactic(auto)]

mod answer;
mod controller;
mod laws;

pub use answer::Answer;
pub use controller::Controller;
pub use laws::represents_some;
