//! The amounts of the tunnels in the rows of a plan, in a table of a block of steps, and what else of a network stands in columns.
//! Inner functions of the checker.
#![tactic(auto)]

pub mod columns;
pub mod pair;
pub mod rows;
