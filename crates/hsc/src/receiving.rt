//! The calls on a trace that comes in chunks.
ghost use Rattle.std.specs.Prelude.{◌≡◌};
ghost use Rattle.receive.specs.Calls.{new_reader, feed_reader, feed_buffer, feed_taken, end_reader, end_buffer};
ghost use Rattle.hsc.specs.Calls.{feed_status, end_status};

use receive::{READER_SIZE, end, feed, new};
use refusal::status_of;

/// Makes a reader of which nothing was taken.
pub fn hsc_reader_new(reader: &mut [u8; READER_SIZE])
    ensures { reader.new ≡ new_reader }
{
    new(reader);
}

/// Takes bytes of the chunk until the next snapshot's place or the chunk's end: taken holds their number, and 1 if the buffer now holds that
/// snapshot. A refusal leaves buffer and taken as they were; but for 9 it stays in the reader.
pub fn hsc_reader_feed(
    reader: &mut [u8; READER_SIZE],
    chunk: &[u8],
    buffer: &mut [u8],
    taken: &mut [u64; 2],
) -> u64
    ensures status { result ≡ feed_status reader.old chunk.now buffer.old }
    ensures reader { reader.new ≡ feed_reader reader.old chunk.now buffer.old }
    ensures buffer { buffer.new ≡ feed_buffer reader.old chunk.now buffer.old }
    ensures taken { taken.new ≡ feed_taken reader.old chunk.now buffer.old taken.old }
{
    status_of(feed(reader, chunk, buffer, taken))
}

/// Takes the sender's end: the buffer holds the final state's snapshot. A refusal leaves it as it was; but for 9 it stays in the reader.
pub fn hsc_reader_end(reader: &mut [u8; READER_SIZE], buffer: &mut [u8]) -> u64
    ensures status { result ≡ end_status reader.old buffer.old }
    ensures reader { reader.new ≡ end_reader reader.old buffer.old }
    ensures buffer { buffer.new ≡ end_buffer reader.old buffer.old }
{
    status_of(end(reader, buffer))
}
