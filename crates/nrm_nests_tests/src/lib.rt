//! The tests of buckets and of protections, of thresholds, and of the dynamic program of a leg, on small networks.
#![tactic(auto)]

#[cfg(test)]
mod basis;
#[cfg(test)]
mod bucket;
#[cfg(test)]
mod cluster;
#[cfg(test)]
mod legdp;
#[cfg(test)]
mod protection;
