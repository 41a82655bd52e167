//! Texts about the state of the seats, about certificates and about plans, put line by line. Nothing here takes memory.
#![tactic(auto)]

mod certificate;
mod leg;
mod line;
mod nests;
mod plan;

pub use certificate::certificate_text;
pub use leg::leg_text;
pub use plan::plan_text;
