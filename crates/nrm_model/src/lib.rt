//! A network of flight legs, the products that are sold on it, and the demand of past departures.
//!
//! A caller meets its calls in this order; the tests of `nrm_samples`, where networks are made, run most of them.
//! - `Network::new`, of `Leg`s and `Product`s, whose lists are `Thresholds` and `LegNumbers`; `NameTable` finds names before there
//!   is a network;
//! - `n`, `t`, `leg_count`, `product_count`: how much there is of each, and `limits_hold`, which says by its clause that no more is;
//! - `find_leg`, `find_product`, then `leg_at`, `product_at`: a leg or a product by its name, and by its number;
//! - `uses_leg`, `products_on`, `least_authorised`: what a product takes, who takes a leg, and what a product at most gets;
//! - `demand`, `to_come`, `total`: what was asked for, in a period, from one on, and in all histories;
//! - `authorised_of_legs`, `fares_of_products`, `legs_of_products`: lists of the whole, for who keeps some beside the network.
#![tactic(auto)]

mod leg;
mod limits;
mod mode;
mod names;
mod network;
mod product;

pub use leg::{Leg, Thresholds};
pub use limits::{
    BOOKING_LIMIT, LAST_BOOKING, MOST_CERTIFICATE_BYTES, MOST_DEMAND, MOST_FARE, MOST_HISTORIES,
    MOST_LEGS, MOST_LEGS_OF_A_PRODUCT, MOST_NETWORK_BYTES, MOST_PARTY, MOST_PERIODS, MOST_PRODUCTS,
    MOST_REFUND, MOST_SEATS, MOST_STREAM_BYTES, MOST_THRESHOLDS, MOST_TOTAL_DEMAND,
};
pub use mode::Mode;
pub use names::NameTable;
pub use network::Network;
pub use product::{LegNumbers, Product};
