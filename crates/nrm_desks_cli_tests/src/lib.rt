//! The tests of the top call of `nrm_desks`, many desks at one controller, and of frames.
#![tactic(auto)]

#[cfg(test)]
mod desks;
#[cfg(test)]
mod frames;
