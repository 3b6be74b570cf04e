//! The rule tables of switches: definitions in specs/, the proofs of their laws and of the claim in proofs/, and the type of
//! those that are judged good.
#![tactic(auto)]

pub mod judged;
