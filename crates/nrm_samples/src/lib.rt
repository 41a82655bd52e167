//! Small networks, and a linear program, for the tests of the crates above, each worked by hand. The value of each stands
//! in specs/Networks or specs/Programs under the same name.
#![tactic(auto)]

mod networks;
mod parts;
mod programs;

pub use networks::{two_legs, two_legs_authorised, two_legs_five_products, two_legs_last_first};
pub use programs::two_legs_five_products_program;
