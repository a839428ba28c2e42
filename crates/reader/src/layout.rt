//! The reader's bytes: where its parts stand, and these read and written.
//! A slice and a place in it, as in `word::bytes`.
ghost use Rattle.std.specs.Prelude.{◌≡◌, [], ◌+◌, ◌^◌, ◌≤◌, ◌<◌, length};
ghost use Rattle.word.specs.Part.{put};
ghost use Rattle.word.specs.LittleEndian.{to_bytes, number_at};
ghost use Rattle.refusal.specs.Refusals.{answer_of, number_of, place_of, given};
ghost use Rattle.image.specs.Header.{header_size, edition_of, header_verdict};
ghost use Rattle.reader.specs.Formats.{zeros, events_end, image_end};
ghost use Rattle.reader.specs.Layout.{reader_size, header_in, laid};
ghost use Rattle.reader.specs.WellFormed.{blank};

use image::edition::{Edition, edition_at};
use image::{edition, header};
use refusal::Refusal;
use word::bytes::LittleEndian;
use word::parts::{copy_over, same};

pub const TAKEN: usize = 0;

pub const HEADER: usize = 4;

pub const PENDING: usize = 28;

pub const NUMBER: usize = 40;

pub const PLACE: usize = 44;

pub const STATE: usize = 48;

pub const SIZE: usize = 116;

/// The number in the four bytes from byte at on.
// As `header::number`, with the bound that places in a reader want.
pub fn number(bytes: &[u8], at: usize) -> usize
    requires { at + 4 ≤ length bytes.now }
    ensures { (result ≡ number_at bytes.now at 4) × (result < 2 ^ 32) }
{
    u32::read(bytes, at) as usize
}

pub fn write_number(bytes: &mut [u8], at: usize, v: usize)
    requires { (at + 4 ≤ length bytes.old) × (v < 2 ^ 32) }
    ensures { bytes.new ≡ put bytes.old at (to_bytes 4 v) }
{
    (v as u32).write(bytes, at);
}

/// The header's number from its byte at on.
// As `header::number`, over a reader's 116 bytes.
pub fn header_number(bytes: &[u8; SIZE], at: usize) -> usize
    requires { at + 4 ≤ header_size }
    ensures { (result ≡ number_at (header_in bytes.now) at 4) × (result < 2 ^ 32) }
{
    number(bytes, HEADER + at)
}

/// The edition that the header tells.
// As `header::edition`, over a reader's 116 bytes.
pub fn edition_in(bytes: &[u8; SIZE]) -> Edition
    ensures { result ≡ edition_of (header_in bytes.now) }
{
    edition_at(header_number(bytes, header::SIXTH))
}

/// Refusals 2 and 3 of the header.
#[tactic(auto, unfolding(word::specs::Part::part))]
pub fn header_verdict(bytes: &[u8; SIZE]) -> Result<(), Refusal>
    ensures { answer_of result ≡ header_verdict (header_in bytes.now) }
{
    header::verdict(&bytes[HEADER..PENDING])
}

/// Whether the n bytes from byte at on are 0.
pub fn is_blank(bytes: &[u8; SIZE], at: usize, n: usize) -> bool
    requires { at + n ≤ reader_size }
    ensures { result ≡ blank bytes.now at n }
{
    let none = [0u8; SIZE];
    let end = at + n;
    same(&bytes[at..end], &none[0..n])
}

/// Zeros over the n bytes from byte at on.
// From an array, as in `is_blank`: `copy_over` and `same` promise what `put` and `blank` say.
pub fn clear(bytes: &mut [u8; SIZE], at: usize, n: usize)
    requires { at + n ≤ reader_size }
    ensures { bytes.new ≡ put bytes.old at (zeros n) }
{
    let none = [0u8; SIZE];
    copy_over(bytes, at, &none[0..n]);
}

/// A refusal over all else: its number and its place.
pub fn remember(bytes: &mut [u8; SIZE], refusal: Refusal)
    requires { place_of refusal < 2 ^ 32 }
    ensures { bytes.new ≡ laid 0 [] [] (number_of refusal) (place_of refusal) [] }
{
    clear(bytes, 0, SIZE);
    write_number(bytes, NUMBER, refusal.number() as usize);
    write_number(bytes, PLACE, refusal.place() as usize);
}

/// The byte of the image at which its events end.
pub fn events_end(bytes: &[u8; SIZE]) -> usize
    ensures { result ≡ events_end (header_in bytes.now) }
{
    header::event_place(header_number(bytes, header::EVENT_COUNT))
}

/// The byte at which the image ends, of a header that is not refused.
// Over the bytes: the phase has told that it is not refused.
pub fn image_end(bytes: &[u8; SIZE]) -> usize
    requires { header_verdict (header_in bytes.now) ≡ given tt }
    ensures { (result ≡ image_end (header_in bytes.now)) × (result < 2 ^ 32) }
{
    let count = header_number(bytes, header::EVENT_COUNT);
    let spacing = header_number(bytes, header::SPACING);
    let size = edition::size(edition_in(bytes));
    header::snapshot_place(count, size, count / spacing + 1)
}
