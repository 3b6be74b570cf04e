//! The loads of all links, gathered in one pass over the tunnels, or flow by flow. Inner functions of the checker; they know
//! nothing of plans.
#![tactic(auto)]

pub mod amounts;
pub mod flows;
pub mod gather;
pub mod windows;
