//! Networks and commands that are made of one number, so that anyone can make the same again.
#![tactic(auto)]

mod draws;
mod laws;
mod maker;
mod names;
mod network;

pub use laws::{made_networks_are_limited, products_use_one_leg_each_way};
pub use maker::{Maker, made};
