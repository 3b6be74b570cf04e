//! The judges of lists: whether a list is in the form of a network, a plan or rule tables, and where it is not.
#![tactic(auto)]

pub mod judge;
mod ranges;
pub mod sums;
