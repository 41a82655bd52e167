//! The tests of bookings, of plans and of the controller.
#![tactic(auto)]

#[cfg(test)]
mod book;
#[cfg(test)]
mod control;
#[cfg(test)]
mod plan;
