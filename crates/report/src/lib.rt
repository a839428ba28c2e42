//! The lines that the office program writes.
#![tactic(auto)]

pub mod buffer;
pub mod line;
pub mod office;
pub mod text;
