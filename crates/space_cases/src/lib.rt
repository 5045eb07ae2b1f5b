//! Worked cases of shared spaces: leases that are split, used side by side, joined and closed.
//!
//! The tests drive leases through calls in every order of short lists, on one thread and beside each other, and count the
//! tags and the entries of the closed words. What stands here besides are the steps that they are driven by.
#![tactic(auto)]

#[cfg(test)]
mod beside;
pub mod calls;
#[cfg(test)]
mod leased;
#[cfg(test)]
mod loads;
#[cfg(test)]
mod mapped;
pub mod owned;
pub mod pair;
pub mod racer;
#[cfg(test)]
mod races;
#[cfg(test)]
mod splits;
pub mod steps;
#[cfg(test)]
mod threads;
#[cfg(test)]
mod unlinked;
pub mod words;
