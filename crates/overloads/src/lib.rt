//! The first overload of a plan, found step by step and link by link. Inner functions of the checker.
#![tactic(auto)]

mod search;
pub mod steps;
