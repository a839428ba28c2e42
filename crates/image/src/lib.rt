//! Document 01's trace image in a lent slice: its edition, its header, what is refused, and the
//! state while its events are taken.
#![tactic(auto)]

pub mod check;
mod checked;
pub mod edition;
pub mod header;
mod patch;
pub mod running;
