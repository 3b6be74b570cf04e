//! The three forms: which line stands where and which numbers it may have, and the keys.
#![tactic(auto)]

pub mod form;
