//! The C surface: the archive's symbols, each one call of `hsc` with its clauses.
#![tactic(auto)]

ghost use Rattle.std.specs.Prelude.{◌≡◌, length};
ghost use Rattle.hsc.specs.Version.{version};
ghost use Rattle.hsc.specs.Calls.{check_answer, step_answer, step_after, read_answer, read_after, replay_status, mend_status, mend_span, compare_status, compare_count, rest_number, rest_part, draw_status, feed_status, end_status};
ghost use Rattle.image_replay.specs.Replays.{replay_image, replay_last};
ghost use Rattle.image_mend.specs.Mends.{mend_image};
ghost use Rattle.compare.specs.Comparing.{compare_row};
ghost use Rattle.image.specs.declared.edition.Edition.TheVariants.{Base};
ghost use Rattle.draw.specs.Drawing.{draw_snapshot, draw_row};
ghost use Rattle.difference.specs.FirstDifference.{first_difference};
ghost use Rattle.receive.specs.Calls.{new_reader, feed_reader, feed_buffer, feed_taken, end_reader, end_buffer};

use receive::READER_SIZE;

/// The number that the header of the same version has.
#[unsafe(no_mangle)]
pub extern "C" fn hsc_version() -> u32
    ensures { result ≡ version }
{
    hsc::version::hsc_version()
}

/// 1 where the event is legal, 0 where it is not, 9 where it is not 12 bytes.
#[unsafe(no_mangle)]
pub extern "C" fn hsc_event_check(event: &[u8]) -> u32
    ensures { result ≡ check_answer event.now }
{
    hsc::checking::hsc_event_check(event)
}

/// Takes the event: the next snapshot stands over the lent one. A refusal leaves it as it was.
#[unsafe(no_mangle)]
pub extern "C" fn hsc_step(snapshot: &mut [u8], event: &[u8]) -> u64
    ensures status { result ≡ step_answer snapshot.old event.now }
    ensures snapshot { snapshot.new ≡ step_after snapshot.old event.now }
{
    hsc::stepping::hsc_step(snapshot, event)
}

/// Writes the state and the bits shown but not stored into fields. A refusal leaves them as they were.
#[unsafe(no_mangle)]
pub extern "C" fn hsc_read(snapshot: &[u8], fields: &mut [i32; 32]) -> u64
    ensures status { result ≡ read_answer snapshot.now }
    ensures fields { fields.new ≡ read_after snapshot.now fields.old }
{
    hsc::reading::hsc_read(snapshot, fields)
}

/// Writes every snapshot anew, and the final state's into last. A refusal leaves both as they were.
#[unsafe(no_mangle)]
pub extern "C" fn hsc_replay(image: &mut [u8], last: &mut [u8; 68]) -> u64
    ensures status { result ≡ replay_status image.old }
    ensures image { image.new ≡ replay_image image.old }
    ensures last { last.new ≡ replay_last image.old last.old }
{
    hsc::replaying::hsc_replay(image, last)
}

/// Copies the patch over the events from place first on and mends the snapshots: span holds the first compared, the stop and the events run. A
/// refusal leaves image and span as they were.
#[unsafe(no_mangle)]
pub extern "C" fn hsc_mend(image: &mut [u8], first: u64, patch: &[u8], span: &mut [u32; 3]) -> u64
    ensures status { result ≡ mend_status image.old first patch.now }
    ensures image { image.new ≡ mend_image image.old first patch.now }
    ensures span { span.new ≡ mend_span image.old first patch.now span.old }
{
    hsc::mending::hsc_mend(image, first, patch, span)
}

/// Writes the places where the traces differ into the row, and their number into count. A refusal leaves both as they were.
#[unsafe(no_mangle)]
pub extern "C" fn hsc_compare(first: &[u8], second: &[u8], row: &mut [u32], count: &mut u32) -> u64
    ensures status { result ≡ compare_status first.now second.now row.old }
    ensures row { row.new ≡ compare_row first.now second.now row.old }
    ensures count { count.new ≡ compare_count first.now second.now row.old count.old }
{
    hsc::comparing::hsc_compare(first, second, row, count)
}

/// Tells the rest of the longer trace: which trace it is, and in part the place of the rest's first byte there and its length.
#[unsafe(no_mangle)]
pub extern "C" fn hsc_rest<'a>(first: &'a [u8], second: &'a [u8], part: &mut [u64; 2]) -> u32
    ensures trace { result ≡ rest_number first.now second.now }
    ensures part { part.new ≡ rest_part first.now second.now }
{
    hsc::comparing::hsc_rest(first, second, part)
}

/// Takes the events over the snapshot, as so many steps, and writes the accumulator after each into the row. A refusal leaves both as they
/// were.
#[unsafe(no_mangle)]
pub extern "C" fn hsc_draw(snapshot: &mut [u8], events: &[u8], row: &mut [i32]) -> u64
    ensures status { result ≡ draw_status snapshot.old events.now row.old }
    ensures snapshot { snapshot.new ≡ draw_snapshot Base snapshot.old events.now (length row.old) }
    ensures row { row.new ≡ draw_row Base snapshot.old events.now row.old }
{
    hsc::drawing::hsc_draw(snapshot, events, row)
}

/// The first place where the two differ; the shorter's length if there is none within it.
#[unsafe(no_mangle)]
pub extern "C" fn hsc_first_difference(first: &[u8], second: &[u8]) -> u64
    ensures { result ≡ first_difference first.now second.now }
{
    hsc::differing::hsc_first_difference(first, second)
}

/// Makes a reader of which nothing was taken.
#[unsafe(no_mangle)]
pub extern "C" fn hsc_reader_new(reader: &mut [u8; READER_SIZE])
    ensures { reader.new ≡ new_reader }
{
    hsc::receiving::hsc_reader_new(reader);
}

/// Takes bytes of the chunk until the next snapshot's place or the chunk's end: taken holds their number, and 1 if the buffer now holds that
/// snapshot. A refusal leaves buffer and taken as they were; but for 9 it stays in the reader.
#[unsafe(no_mangle)]
pub extern "C" fn hsc_reader_feed(
    reader: &mut [u8; READER_SIZE],
    chunk: &[u8],
    buffer: &mut [u8],
    taken: &mut [u64; 2],
) -> u64
    ensures status { result ≡ feed_status reader.old chunk.now buffer.old }
    ensures reader { reader.new ≡ feed_reader reader.old chunk.now buffer.old }
    ensures buffer { buffer.new ≡ feed_buffer reader.old chunk.now buffer.old }
    ensures taken { taken.new ≡ feed_taken reader.old chunk.now buffer.old taken.old }
{
    hsc::receiving::hsc_reader_feed(reader, chunk, buffer, taken)
}

/// Takes the sender's end: the buffer holds the final state's snapshot. A refusal leaves it as it was; but for 9 it stays in the reader.
#[unsafe(no_mangle)]
pub extern "C" fn hsc_reader_end(reader: &mut [u8; READER_SIZE], buffer: &mut [u8]) -> u64
    ensures status { result ≡ end_status reader.old buffer.old }
    ensures reader { reader.new ≡ end_reader reader.old buffer.old }
    ensures buffer { buffer.new ≡ end_buffer reader.old buffer.old }
{
    hsc::receiving::hsc_reader_end(reader, buffer)
}
