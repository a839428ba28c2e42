//! What a reader waits for.
use refusal::Refusal;

/// What a reader waits for, with how many of the image's bytes it took; or the refusal that it
/// remembers.
#[derive(Clone, Copy, Debug, PartialEq, Eq)]
pub enum Phase {
    /// The rest of the header.
    Header(usize),
    /// The rest of an event, or the next one.
    Events(usize),
    /// The bytes past the events, or the end.
    Snapshots(usize),
    Refused(Refusal),
}
