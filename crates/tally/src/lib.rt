//! The smallest system over a trace: its state is a digit, an event is a digit that is added. A worked example of replay and mending.
#![tactic(auto)]

pub mod digit;
pub mod trace;
