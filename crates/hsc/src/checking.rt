//! The call that checks an event.
ghost use Rattle.std.specs.Prelude.{◌≡◌};
ghost use Rattle.hsc.specs.Calls.{check_answer};

use refusal::Refusal;
use snapshot::EVENT_SIZE;
use snapshot::event::legal_event;

/// 1 where the event is legal, 0 where it is not, 9 where it is not 12 bytes: C's numbers.
pub fn hsc_event_check(event: &[u8]) -> u32
    ensures { result ≡ check_answer event.now }
{
    if event.len() != EVENT_SIZE {
        return Refusal::Size.number() as u32;
    }
    if legal_event(event, 0) { 1 } else { 0 }
}
