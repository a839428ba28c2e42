//! Which events are legal, by kind, sub and value.
ghost use Rattle.std.specs.Prelude.{◌≡◌};
ghost use Rattle.counter.specs.Events.{is_levels, is_sample, legal};

use crate::event::Event;

fn is_levels(v: i32) -> bool
    ensures { result ≡ is_levels v }
{
    (0 <= v) & (v <= 15)
}

/// Whether the event is legal.
// By its numbers, as the events of `step-good` and `legal-stamp` are. Apart, so that a loop over events has
// the test of a sample alone within it (`legal_event`).
#[inline(never)]
pub fn legal(kind: u8, sub: u8, v: i32) -> bool
    ensures { result ≡ legal kind sub v }
{
    Event::parse(kind, sub, v).is_some()
}

/// Whether the event is a legal input sample, told by its numbers alone: nearly all events are.
pub fn is_sample(kind: u8, sub: u8, v: i32) -> bool
    ensures { result ≡ is_sample kind sub v }
{
    (kind == 1) & ((sub == 0) & is_levels(v))
}
