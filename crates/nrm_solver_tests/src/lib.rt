//! The tests of the solver, from rows to `solve`, of the samples and the linear programs of a network, and of certificates.
#![tactic(auto)]

#[cfg(test)]
mod certificate;
#[cfg(test)]
mod dlp;
#[cfg(test)]
mod lp;
#[cfg(test)]
mod reading;
#[cfg(test)]
mod row;
#[cfg(test)]
mod samples;
#[cfg(test)]
mod search;
#[cfg(test)]
mod simplex;
#[cfg(test)]
mod tableau;
