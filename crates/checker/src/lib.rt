//! The check of a plan: the lists and the rows, then every step on every link.
#![tactic(auto)]

pub mod check;
pub mod marks;
pub mod pair;
mod sums;
