//! A state in the 68 bytes of its snapshot.
//! A slice and a place in it, as in `word::bytes`.
ghost use Rattle.std.specs.Prelude.{◌≡◌, ◌+◌, ◌≤◌, length};
ghost use Rattle.word.specs.Part.{part, put};
ghost use Rattle.snapshot.specs.Widths.{snapshot_size};
ghost use Rattle.snapshot.specs.Snapshots.{desk_at, encode, decode};

use crate::places;
use crate::settings::{read_settings, write_settings};
use counter::desk::{Desk, queued_of};
use counter::state::Counter;
use word::bytes::LittleEndian;

// The desk in the snapshot from byte `at` on.
fn read_desk(s: &[u8], at: usize) -> Desk
    requires { at + snapshot_size ≤ length s.now }
    ensures { result ≡ desk_at s.now at }
{
    let first = u8::read(s, at + places::FIRST);
    let second = u8::read(s, at + places::SECOND);
    Desk {
        running: u8::read(s, at + places::RUNNING),
        waiting: [first, second],
        queued: queued_of(first, second),
    }
}

/// The state in the snapshot from byte `at` on.
pub fn decode(s: &[u8], at: usize) -> Counter
    requires { at + snapshot_size ≤ length s.now }
    ensures { result ≡ decode (part s.now at snapshot_size) }
{
    Counter {
        staged: read_settings(s, at),
        active: read_settings(s, at + places::ACTIVE),
        acc: i32::read(s, at + places::ACC),
        out: u16::read(s, at + places::OUTPUTS),
        er: u16::read(s, at + places::ER),
        flags: u32::read(s, at + places::FLAGS),
        levels: u8::read(s, at + places::LEVELS),
        desk: read_desk(s, at),
    }
}

/// Writes the state's snapshot over the 68 bytes from byte `at` on.
pub fn encode(c: Counter, s: &mut [u8], at: usize)
    requires { at + snapshot_size ≤ length s.old }
    ensures { s.new ≡ put s.old at (encode c) }
{
    write_settings(c.staged, s, at);
    write_settings(c.active, s, at + places::ACTIVE);
    c.acc.write(s, at + places::ACC);
    c.out.write(s, at + places::OUTPUTS);
    c.er.write(s, at + places::ER);
    c.flags.write(s, at + places::FLAGS);
    c.levels.write(s, at + places::LEVELS);
    c.desk.running.write(s, at + places::RUNNING);
    c.desk.waiting[0].write(s, at + places::FIRST);
    c.desk.waiting[1].write(s, at + places::SECOND);
}
