//! Document 01's bytes: the snapshot of a state, and an event, read and written in a lent slice.
#![tactic(auto)]

pub mod codec;
pub mod event;
pub mod form;
pub mod places;
pub mod settings;
pub mod split;

/// The bytes of a snapshot.
pub const SNAPSHOT_SIZE: usize = 68;

/// The bytes of an event.
pub const EVENT_SIZE: usize = 12;

/// The bytes of ACC, flags and levels beside a snapshot.
pub const MOVING_SIZE: usize = 9;
