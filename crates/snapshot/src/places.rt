//! Document 01's byte offsets: where each number begins, counted from the first byte of what
//! holds it.

/// In 26 bytes of settings; PFN is the first.
pub const MODE: usize = 2;

pub const HIP: usize = 4;

pub const LOP: usize = 8;

pub const OVF: usize = 12;

pub const UNF: usize = 16;

pub const OMB: usize = 20;

pub const HPO: usize = 22;

pub const LPO: usize = 24;

/// In a snapshot; the staged settings are the first.
pub const ACTIVE: usize = 26;

pub const ACC: usize = 52;

pub const OUTPUTS: usize = 56;

pub const ER: usize = 58;

pub const FLAGS: usize = 60;

pub const LEVELS: usize = 64;

pub const RUNNING: usize = 65;

pub const FIRST: usize = 66;

pub const SECOND: usize = 67;

/// In an event; the kind is the first, and the stamp is never read.
pub const SUB: usize = 1;

pub const ZERO: usize = 2;

pub const VALUE: usize = 4;

/// In the numbers beside a snapshot while events are taken; ACC is the first.
pub const MOVING_FLAGS: usize = 4;

pub const MOVING_LEVELS: usize = 8;
