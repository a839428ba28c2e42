//! Whether a reader's bytes are such as a call may have left.
ghost use Rattle.std.specs.Prelude.{◌≡◌, cond, ◌≤◌, ltb, length};
ghost use Rattle.refusal.specs.Refusals.{given};
ghost use Rattle.snapshot.specs.Widths.{event_size};
ghost use Rattle.image.specs.Editions.{max_size};
ghost use Rattle.image.specs.Header.{header_size, header_verdict};
ghost use Rattle.reader.specs.Layout.{reader_size, taken_in, header_in};
ghost use Rattle.reader.specs.WellFormed.{FaultTold, rest_blank, waiting, opened_formed, formed};

use crate::layout::{
    HEADER, NUMBER, PENDING, PLACE, SIZE, STATE, TAKEN, edition_in, events_end, header_verdict,
    image_end, is_blank, number,
};
use image::edition::MAX_SIZE;
use image::{edition, header};
use refusal::Refusal;
use snapshot::EVENT_SIZE;

/// The refusal that a trace may have by this number at this place; `None` where it has none such.
// A chain, and no `find` over the four: that form stayed open.
#[tactic(auto, unfolding(crate::specs::WellFormed::fault))]
pub fn trace_refusal(number: u64, place: usize) -> Option<Refusal>
    ensures { FaultTold number place result }
{
    if number == Refusal::Event(place).number() {
        return if place < header::MAX_EVENTS {
            Some(Refusal::Event(place))
        } else {
            None
        };
    }
    if place != 0 {
        return None;
    }
    if number == Refusal::Short.number() {
        Some(Refusal::Short)
    } else if number == Refusal::Limits.number() {
        Some(Refusal::Limits)
    } else if number == Refusal::Offsets.number() {
        Some(Refusal::Offsets)
    } else if number == Refusal::Length.number() {
        Some(Refusal::Length)
    } else {
        None
    }
}

// Whether all but the first so many bytes of the header, of the waiting event and of the snapshot are 0.
#[tactic(auto, unfolding(crate::specs::WellFormed::rest_blank))]
fn rest_blank(bytes: &[u8; SIZE], header: usize, pending: usize, state: usize) -> bool
    requires { (header ≤ header_size) × (pending ≤ event_size) × (state ≤ max_size) }
    ensures { result ≡ rest_blank bytes.now header pending state }
{
    is_blank(bytes, HEADER + header, header::SIZE - header)
        & is_blank(bytes, PENDING + pending, EVENT_SIZE - pending)
        & is_blank(bytes, STATE + state, MAX_SIZE - state)
}

// How many bytes of an event wait, of so many taken.
fn waiting_in(bytes: &[u8; SIZE], taken: usize) -> usize
    requires { header_size ≤ taken }
    ensures { (result ≡ waiting (header_in bytes.now) taken) × (result ≤ event_size) }
{
    if taken < events_end(bytes) {
        (taken - header::SIZE) % EVENT_SIZE
    } else {
        0
    }
}

// Past a header that is not refused. There is no `Reader` yet: this is what its invariant is tested by.
#[tactic(auto, unfolding(crate::specs::WellFormed::opened_formed, crate::specs::WellFormed::accepts))]
fn accepted_formed(bytes: &[u8; SIZE], taken: usize) -> bool
    requires { (header_size ≤ taken) × (header_verdict (header_in bytes.now) ≡ given tt) }
    ensures { result ≡ opened_formed (header_in bytes.now) bytes.now taken }
{
    let ed = edition_in(bytes);
    let size = edition::size(ed);
    let waiting = waiting_in(bytes, taken);
    (taken <= image_end(bytes))
        & edition::formed(ed, bytes, STATE)
        & rest_blank(bytes, header::SIZE, waiting, size)
}

// Past the header.
#[tactic(auto, unfolding(crate::specs::WellFormed::opened_formed, crate::specs::WellFormed::accepts))]
fn opened_formed(bytes: &[u8; SIZE], taken: usize) -> bool
    requires { header_size ≤ taken }
    ensures { result ≡ opened_formed (header_in bytes.now) bytes.now taken }
{
    match header_verdict(bytes) {
        Ok(()) => accepted_formed(bytes, taken),
        Err(_) => false,
    }
}

// Where nothing was refused.
fn trace_formed(bytes: &[u8; SIZE]) -> bool
    ensures { result ≡ cond (ltb (taken_in bytes.now) header_size) (rest_blank bytes.now (taken_in bytes.now) 0 0)
        (opened_formed (header_in bytes.now) bytes.now (taken_in bytes.now)) }
{
    let taken = number(bytes, TAKEN);
    if taken < header::SIZE {
        rest_blank(bytes, taken, 0, 0)
    } else {
        opened_formed(bytes, taken)
    }
}

/// Whether a call may have left these bytes in a reader; others are refused by 9.
#[tactic(auto, unfolding(crate::specs::WellFormed::formed))]
pub fn is_formed(bytes: &[u8; SIZE]) -> bool
    ensures { result ≡ formed bytes.now }
{
    let refused = number(bytes, NUMBER);
    let place = number(bytes, PLACE);
    if refused == 0 {
        (place == 0) & trace_formed(bytes)
    } else {
        trace_refusal(refused as u64, place).is_some()
            & (number(bytes, TAKEN) == 0)
            & rest_blank(bytes, 0, 0, 0)
    }
}
