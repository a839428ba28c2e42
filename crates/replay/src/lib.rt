//! A table of snapshots over a row of events, for any system: the theory, and replay and mending of any machine that keeps to it.
#![tactic(auto)]

pub mod machine;
pub mod rows;
pub mod table;
pub mod trace;
