//! The writers of the three texts.
#![tactic(auto)]

pub mod write;
