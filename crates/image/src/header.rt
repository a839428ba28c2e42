//! The header of an image: six numbers, each in four bytes, what they tell, and refusals 1 to 3.
//! A slice and a place in it, as in `word::bytes`.
ghost use Rattle.std.specs.Prelude.{◌≡◌, ◌+◌, ◌*◌, ◌^◌, ◌≤◌, ◌<◌, length};
ghost use Rattle.word.specs.LittleEndian.{number_at};
ghost use Rattle.refusal.specs.Refusals.{answer_of, given};
ghost use Rattle.replay.specs.Traces.{shape_of as trace_shape};
ghost use Rattle.snapshot.specs.Widths.{event_size};
ghost use Rattle.image.specs.Header.{header_size, max_events, shape_of, edition_of};
ghost use Rattle.image.specs.Header.{limits_broken, offsets_broken, header_verdict};

use crate::edition::{Edition, edition_at};
use refusal::Refusal;
use replay::trace::Trace;
use snapshot::EVENT_SIZE;
use word::bytes::LittleEndian;

/// The bytes of the header.
pub const SIZE: usize = 24;

/// The byte from which the number of events stands.
pub const EVENT_COUNT: usize = 0;

/// The byte from which the first event's place stands.
pub const EVENT_OFFSET: usize = 4;

/// The byte from which the number of snapshots stands.
pub const SNAPSHOT_COUNT: usize = 8;

/// The byte from which the first snapshot's place stands.
pub const SNAPSHOT_OFFSET: usize = 12;

/// The byte from which the number of events between snapshots stands.
pub const SPACING: usize = 16;

/// The byte from which the sixth number stands, which tells the edition.
pub const SIXTH: usize = 20;

/// The most events of an image.
pub const MAX_EVENTS: usize = 1048576;

const MAX_SPACING: usize = 4096;

/// The header's number from byte `at` on.
pub fn number(image: &[u8], at: usize) -> usize
    requires { at + 4 ≤ length image.now }
    ensures { result ≡ number_at image.now at 4 }
{
    u32::read(image, at) as usize
}

/// The edition that the header tells.
pub fn edition(image: &[u8]) -> Edition
    requires { header_size ≤ length image.now }
    ensures { result ≡ edition_of image.now }
{
    edition_at(number(image, SIXTH))
}

/// The trace that the header tells, where it is not refused.
#[tactic(auto, unfolding(crate::specs::Header::header_verdict))]
pub fn trace(image: &[u8]) -> Trace
    requires { header_verdict image.now ≡ given tt }
    ensures { trace_shape result ≡ shape_of image.now }
{
    Trace {
        header: SIZE,
        count: number(image, EVENT_COUNT),
        spacing: number(image, SPACING),
    }
}

/// The byte at which event `i` begins.
pub fn event_place(i: usize) -> usize
    requires { header_size + i * event_size < 2 ^ 64 }
    ensures { result ≡ header_size + i * event_size }
{
    SIZE + i * EVENT_SIZE
}

/// The byte at which snapshot `j` begins, where `count` events stand before the table and a
/// snapshot has `size` bytes.
pub fn snapshot_place(count: usize, size: usize, j: usize) -> usize
    requires { header_size + count * event_size + j * size < 2 ^ 64 }
    ensures { result ≡ header_size + count * event_size + j * size }
{
    event_place(count) + j * size
}

// Refusal 2. The header's numbers as they stand, each read for this one question, as the definition
// takes them.
fn limits_broken(count: usize, spacing: usize, sixth: usize) -> bool
    ensures { result ≡ limits_broken count spacing sixth }
{
    (MAX_EVENTS < count) | (spacing == 0) | (MAX_SPACING < spacing) | !(sixth == 0)
}

// Refusal 3, of a header that refusal 2 leaves: plain numbers, as for refusal 2.
fn offsets_broken(
    count: usize,
    spacing: usize,
    events: usize,
    snapshots: usize,
    table: usize,
) -> bool
    requires { (0 < spacing) × (count ≤ max_events) }
    ensures { result ≡ offsets_broken count spacing events snapshots table }
{
    !(events == SIZE) | !(snapshots == count / spacing + 1) | !(table == SIZE + EVENT_SIZE * count)
}

/// Refuses a header by the first of 1 to 3 that applies.
#[tactic(auto, unfolding(crate::specs::Header::header_verdict))]
pub fn verdict(image: &[u8]) -> Result<(), Refusal>
    ensures { answer_of result ≡ header_verdict image.now }
{
    if image.len() < SIZE {
        return Err(Refusal::Short);
    }
    let count = number(image, EVENT_COUNT);
    let spacing = number(image, SPACING);
    if limits_broken(count, spacing, number(image, SIXTH)) {
        return Err(Refusal::Limits);
    }
    if offsets_broken(
        count,
        spacing,
        number(image, EVENT_OFFSET),
        number(image, SNAPSHOT_COUNT),
        number(image, SNAPSHOT_OFFSET),
    ) {
        return Err(Refusal::Offsets);
    }
    Ok(())
}
