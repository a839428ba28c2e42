//! The office program: an image from standard input, and its line.
ghost use Rattle.std.specs.Prelude.{◌≡◌, ◌≤◌, ◌<◌, IfOk, length, take};
ghost use Rattle.std.specs.Io.KnownBytes.{Consumes, IsAtEnd};
ghost use Rattle.word.specs.Part.{part};
ghost use Rattle.snapshot.specs.Widths.{snapshot_size};
ghost use Rattle.snapshot.specs.Snapshots.{decode};
ghost use Rattle.refusal.specs.Refusals.{given};
ghost use Rattle.image.specs.Header.{header_size, event_count, snapshot_count};
ghost use Rattle.report.specs.Office.{line_of, office_line, count_of};

use crate::line::{refusal_line, replay_line};
use crate::text::{ROOM, Text};
use image::edition::MAX_SIZE;
use image::header;
use image_replay::replay;
use snapshot::codec::decode;
use std::io;
use std::io::{Read, Write};

// The line of an image that was replayed, by its header and the final state's snapshot.
fn accepted_line(image: &[u8], last: &[u8]) -> Text
    requires { (header_size ≤ length image.now) × (snapshot_size ≤ length last.now) }
    ensures { result ≡ line_of (event_count image.now) (snapshot_count image.now)
        (given (decode (part last.now 0 snapshot_size))) }
{
    let events = header::number(image, header::EVENT_COUNT) as u64;
    let snapshots = header::number(image, header::SNAPSHOT_COUNT) as u64;
    let state = decode(last, 0);
    replay_line(
        events,
        snapshots,
        state.acc,
        state.out,
        state.er,
        state.flags,
    )
}

// Replays the image, and the line that this comes to.
fn office_line(image: &mut [u8]) -> Text
    ensures { result ≡ office_line image.old }
{
    // `replay` writes the final snapshot into what it is lent, as its clause `last` says.
    let mut last = [0u8; MAX_SIZE];
    match replay(image, &mut last) {
        Ok(()) => accepted_line(image, &last),
        Err(refusal) => refusal_line(refusal.number(), refusal.place()),
    }
}

/// Replays the image and puts its line at the front of a buffer of 160 bytes; answers the line's
/// length.
// A lent buffer, and not a `Text`: `answer-met` and `office-line` are of these clauses.
pub fn answer(image: &mut [u8], line: &mut [u8]) -> usize
    requires { 160 ≤ length line.old }
    ensures line { take result line.new ≡ office_line image.old }
    ensures within { result ≤ length line.new }
{
    office_line(image).copy_to(line)
}

/// A read failed, and so many bytes came before it.
#[derive(Clone, Copy, Debug, PartialEq, Eq)]
struct Failed {
    after: usize,
}

/// How many bytes came; those before a read that failed count.
fn count(read: Result<usize, Failed>) -> usize
    ensures { result ≡ count_of read }
{
    match read {
        Ok(n) => n,
        Err(failed) => failed.after,
    }
}

/// Reads until the buffer is full, the input ends or a read fails, and answers how many bytes came.
/// They stand at the buffer's front, are the input's next ones, and no other byte was taken from it.
/// Fewer than the buffer holds are the input's last.
fn read_full<R: Read>(input: &mut R, buf: &mut [u8]) -> Result<usize, Failed>
    ensures long { length buf.new ≡ length buf.old }
    ensures within { count_of result ≤ length buf.new }
    ensures front { Consumes (R.remaining input.old) (R.remaining input.new)
        (take (count_of result) buf.new) }
    ensures last { IfOk result (λ n. n < length buf.new → IsAtEnd (R.remaining input.new)) }
{
    let mut done = 0;
    // No `for`: a read gives any number of bytes.
    while done < buf.len() {
        match input.read(&mut buf[done..]) {
            Ok(0) => return Ok(done),
            Ok(n) => done += n,
            Err(_) => return Err(Failed { after: done }),
        }
    }
    Ok(done)
}

/// Writes a line; what standard output does not take is lost.
fn put(rt: &impl Print, line: &[u8]) {
    let _ = io::writer(rt).write_all(line);
}

// Writes the image's line.
fn tell(rt: &impl Print, image: &mut [u8]) {
    // A lent buffer: `answer` writes into it.
    let mut line = [0u8; ROOM];
    let n = answer(image, &mut line);
    put(rt, &line[..n]);
}

/// The whole program: the bytes before the input's end, or before a read that fails, are the image.
/// One byte past the buffer is too long.
pub fn run(rt: &(impl Input + Print)) {
    let mut input = rt.reader();
    let mut image = [0u8; 65536];
    let n = count(read_full(&mut input, &mut image));
    let mut more = [0u8; 1];
    if count(read_full(&mut input, &mut more)) == 0 {
        tell(rt, &mut image[..n]);
    } else {
        // Bytes, as `put` writes them.
        put(rt, b"too long\n");
    }
}
