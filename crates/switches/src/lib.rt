//! The rules at each switch: counted, held against its room, and refusal 18. Inner functions of the staging.
#![tactic(auto)]

pub mod room;
pub mod tables;
