//! The readers of the three texts. The line reader is private to this crate.
#![tactic(auto)]

mod line;
pub mod read;
