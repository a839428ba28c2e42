//! An event in its 12 bytes. A slice and a place in it, as in
//! `word::bytes`.
ghost use Rattle.std.specs.Prelude.{◌≡◌, ◌+◌, ◌≤◌, length};
ghost use Rattle.word.specs.Part.{part};
ghost use Rattle.snapshot.specs.Widths.{event_size};
ghost use Rattle.snapshot.specs.EventBytes.{event_of, reserved_zero, legal_event};

use crate::places;
use counter::legality;
use word::bytes::LittleEndian;

/// What an event asks for; its stamp is left out.
// Numbers, and not counter's `Event`: it may be one that is not legal (`legal-stamp`, `step-stamp`).
#[derive(Clone, Copy, Debug, PartialEq, Eq)]
pub struct Event {
    pub kind: u8,
    pub sub: u8,
    pub value: i32,
}

/// The event from byte at.
pub fn read_event(s: &[u8], at: usize) -> Event
    requires { at + event_size ≤ length s.now }
    ensures { result ≡ event_of (part s.now at event_size) }
{
    Event {
        kind: u8::read(s, at),
        sub: u8::read(s, at + places::SUB),
        value: i32::read(s, at + places::VALUE),
    }
}

/// Whether bytes 2-3 of the event from byte at are zero.
pub fn reserved_zero(s: &[u8], at: usize) -> bool
    requires { at + event_size ≤ length s.now }
    ensures { result ≡ reserved_zero (part s.now at event_size) }
{
    u16::read(s, at + places::ZERO) == 0
}

/// Whether the event from byte at is legal; nearly all are samples, so those are told first.
pub fn legal_event(s: &[u8], at: usize) -> bool
    requires { at + event_size ≤ length s.now }
    ensures { result ≡ legal_event (part s.now at event_size) }
{
    let e = read_event(s, at);
    if legality::is_sample(e.kind, e.sub, e.value) {
        reserved_zero(s, at)
    } else {
        reserved_zero(s, at) & legality::legal(e.kind, e.sub, e.value)
    }
}
