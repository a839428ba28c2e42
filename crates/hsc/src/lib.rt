//! The calls of the C surface, with numbers and lent buffers; `hsc_c` gives them their symbols. Document 01, "Trace image", has the refusals.
#![tactic(auto)]

pub mod checking;
pub mod comparing;
pub mod differing;
pub mod drawing;
mod filling;
pub mod mending;
pub mod reading;
pub mod receiving;
pub mod replaying;
pub mod stepping;
pub mod version;
