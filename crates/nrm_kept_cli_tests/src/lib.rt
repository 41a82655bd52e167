//! The tests of sessions that keep their bookings in a store.
#![tactic(auto)]

#[cfg(test)]
mod tests;
