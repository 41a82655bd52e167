//! The deterministic linear program of a network (chapter 3 of Talluri and van Ryzin), its certificates, its
//! allocations and prices, and the path of the simplex method on it. The laws over these definitions are functions
//! with no body to speak of: each carries its law as its contract.
//!
//! A caller meets the calls of `Program` in this order, as in the test `keeps_its_parts`: `new`, then `leg_count`, `product_count`,
//! `caps`, `bounds` and `fares`, its parts, and `legs_of` and `uses_leg`, what a product takes. A solver gives a `Certificate`, whose
//! `bid_price` is that of a leg and `price_sum` the sum over the legs of a product.
#![tactic(auto)]

mod certificate;
mod laws;
mod limits;
mod program;

pub use certificate::{Certificate, Numbers};
pub use laws::{
    closes_certify, ends_meet, ends_optimal, every_path_ends, optimal_certify, optimal_meet,
    path_has_facts, paths_end_once, value_is_whole, weakly_dual,
};
pub use limits::{MOST_BOUNDS, MOST_CAPS, MOST_FARE, MOST_LEGS_OF_A_PRODUCT, MOST_SEATS_IN_ALL};
pub use program::Program;
