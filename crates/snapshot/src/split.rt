//! The state while events are taken: a snapshot's bytes, and beside them ACC, the flags and the
//! levels, which nearly every event moves. Both stay lent bytes, side by side in each call: the
//! theorem `step-over` speaks of `step_over` over them.
ghost use Rattle.std.specs.Prelude.{◌≡◌, ◌+◌, ◌≤◌, length};
ghost use Rattle.word.specs.Part.{part, put};
ghost use Rattle.word.specs.Layouts.{pack};
ghost use Rattle.accumulator.specs.Causes.{number};
ghost use Rattle.counter.specs.Desk.{empty};
ghost use Rattle.counter.specs.Parts.{with_desk};
ghost use Rattle.counter.specs.Interrupts.{raise};
ghost use Rattle.counter.specs.Sample.{sample};
ghost use Rattle.counter.specs.Events.{step_control};
ghost use Rattle.snapshot.specs.Widths.{snapshot_size, moving_size, moving_layout, event_size};
ghost use Rattle.snapshot.specs.Snapshots.{encode, decode};
ghost use Rattle.snapshot.specs.EventBytes.{step_event};
ghost use Rattle.snapshot.specs.Split.{split_state, HoldsIfGood};
ghost use Rattle.snapshot.specs.Split.{moving_at, moving_row, moving_of, with_moving};

use crate::event::read_event;
use crate::{SNAPSHOT_SIZE, codec, places};
use accumulator::cause::Cause;
use counter::desk::Desk;
use counter::state::Counter;
use counter::{legality, stepping};
use word::bytes::LittleEndian;
use word::parts::{copy_over, copy_part};

/// The numbers beside a snapshot.
#[derive(Clone, Copy, Debug, PartialEq, Eq)]
struct Moving {
    acc: i32,
    flags: u32,
    levels: u8,
}

impl Moving {
    /// Those of a state.
    fn of(c: &Counter) -> Self
        ensures { result ≡ moving_of c.now }
    {
        Moving {
            acc: c.acc,
            flags: c.flags,
            levels: c.levels,
        }
    }

    /// The numbers in their bytes.
    fn read(bytes: &[u8]) -> Self
        requires { length bytes.now ≡ moving_size }
        ensures { result ≡ moving_at bytes.now }
    {
        Moving {
            acc: i32::read(bytes, 0),
            flags: u32::read(bytes, places::MOVING_FLAGS),
            levels: u8::read(bytes, places::MOVING_LEVELS),
        }
    }

    /// Writes the numbers over their bytes.
    fn write(self, bytes: &mut [u8])
        requires { length bytes.old ≡ moving_size }
        ensures { bytes.new ≡ pack moving_layout (moving_row self) }
    {
        self.acc.write(bytes, 0);
        self.flags.write(bytes, places::MOVING_FLAGS);
        self.levels.write(bytes, places::MOVING_LEVELS);
    }

    /// Puts the numbers into a state.
    fn store(self, c: &mut Counter)
        ensures { c.new ≡ with_moving self c.old }
    {
        c.acc = self.acc;
        c.flags = self.flags;
        c.levels = self.levels;
    }
}

/// The state that the two hold.
pub fn read_state(s: &[u8], moving: &[u8]) -> Counter
    requires { (length s.now ≡ snapshot_size) × (length moving.now ≡ moving_size) }
    ensures { result ≡ split_state s.now moving.now }
{
    let mut c = codec::decode(s, 0);
    Moving::read(moving).store(&mut c);
    c
}

/// ACC of the state that the two hold, which is beside the snapshot.
pub fn read_acc(s: &[u8], moving: &[u8]) -> i32
    requires { (length s.now ≡ snapshot_size) × (length moving.now ≡ moving_size) }
    ensures { result ≡ (split_state s.now moving.now).acc }
{
    i32::read(moving, 0)
}

/// The state over both.
pub fn write_state(c: Counter, s: &mut [u8], moving: &mut [u8])
    requires { (length s.old ≡ snapshot_size) × (length moving.old ≡ moving_size) }
    ensures { HoldsIfGood c s.new moving.new }
{
    codec::encode(c, s, 0);
    Moving::of(&c).write(moving);
}

/// Puts the moving numbers of a snapshot beside it.
pub fn load_moving(s: &[u8], moving: &mut [u8])
    requires { (length s.now ≡ snapshot_size) × (length moving.old ≡ moving_size) }
    ensures { split_state s.now moving.new ≡ decode s.now }
{
    u32::read(s, places::ACC).write(moving, 0);
    u32::read(s, places::FLAGS).write(moving, places::MOVING_FLAGS);
    u8::read(s, places::LEVELS).write(moving, places::MOVING_LEVELS);
}

fn copy_snapshot(image: &[u8], at: usize, s: &mut [u8])
    requires { (at + snapshot_size ≤ length image.now) × (length s.old ≡ snapshot_size) }
    ensures { s.new ≡ part image.now at snapshot_size }
{
    copy_part(s, 0, image, at, SNAPSHOT_SIZE);
}

/// The state in the snapshot from byte at of an image, over both. Its bytes are copied as they
/// are.
pub fn load_state(image: &[u8], at: usize, s: &mut [u8], moving: &mut [u8])
    requires { (at + snapshot_size ≤ length image.now) × (length s.old ≡ snapshot_size) × (length moving.old ≡ moving_size) }
    ensures { split_state s.new moving.new ≡ decode (part image.now at snapshot_size) }
{
    copy_snapshot(image, at, s);
    load_moving(s, moving);
}

/// The numbers beside a snapshot over those of the snapshot from byte at of an image.
pub fn write_over(image: &mut [u8], at: usize, moving: &[u8])
    requires { (at + snapshot_size ≤ length image.old) × (length moving.now ≡ moving_size) }
    ensures { image.new
        ≡ put image.old at (encode (split_state (part image.old at snapshot_size) moving.now)) }
{
    u32::read(moving, 0).write(image, at + places::ACC);
    u32::read(moving, places::MOVING_FLAGS).write(image, at + places::FLAGS);
    u8::read(moving, places::MOVING_LEVELS).write(image, at + places::LEVELS);
}

/// Writes the snapshot of the state that the two hold from byte at of an image.
pub fn write_snapshot(image: &mut [u8], at: usize, s: &[u8], moving: &[u8])
    requires { (at + snapshot_size ≤ length image.old) × (length s.now ≡ snapshot_size) × (length moving.now ≡ moving_size) }
    ensures { image.new ≡ put image.old at (encode (split_state s.now moving.now)) }
{
    copy_over(image, at, s);
    write_over(image, at, moving);
}

// Other numbers, and then the cause. The state is read again here: kept from before the sample, it
// would have to be read whole for every sample.
#[inline(never)]
fn raise_over(s: &mut [u8], moving: &mut [u8], next: Moving, cause: Cause)
    requires { (length s.old ≡ snapshot_size) × (length moving.old ≡ moving_size) }
    ensures { HoldsIfGood (raise (number cause) (with_moving next (decode s.old))) s.new moving.new }
{
    let mut c = codec::decode(s, 0);
    next.store(&mut c);
    c.raise(cause);
    write_state(c, s, moving);
}

// The state without its desk, which a sample does not look at and which then need not be loaded.
fn read_without_desk(s: &[u8], moving: &[u8]) -> Counter
    requires { (length s.now ≡ snapshot_size) × (length moving.now ≡ moving_size) }
    ensures { result ≡ with_desk empty (split_state s.now moving.now) }
{
    let mut c = read_state(s, moving);
    c.desk = Desk::empty();
    c
}

// A sample; where it raises no cause, the snapshot's bytes are not touched, and where nothing comes
// of it, only the levels are written.
#[inline(always)]
fn sample_over(s: &mut [u8], moving: &mut [u8], new: u8)
    requires { (length s.old ≡ snapshot_size) × (length moving.old ≡ moving_size) }
    ensures { HoldsIfGood (sample new (split_state s.old moving.old)) s.new moving.new }
{
    let c = read_without_desk(s, moving);
    if c.is_idle(new) {
        moving[places::MOVING_LEVELS] = new;
    } else {
        let r = c.sampled(new);
        let next = Moving {
            acc: r.acc,
            flags: r.flags,
            levels: new,
        };
        match r.cause {
            None => next.write(moving),
            Some(cause) => raise_over(s, moving, next, cause),
        }
    }
}

// Any other event, by its numbers, as `step_control` takes it.
#[inline(never)]
fn control_over(s: &mut [u8], moving: &mut [u8], kind: u8, sub: u8, v: i32)
    requires { (length s.old ≡ snapshot_size) × (length moving.old ≡ moving_size) }
    ensures { HoldsIfGood (step_control kind sub v (split_state s.old moving.old)) s.new moving.new }
{
    let mut c = read_state(s, moving);
    c.step_control(kind, sub, v);
    write_state(c, s, moving);
}

/// Takes the event from byte at.
#[inline(always)]
pub fn step_over(s: &mut [u8], moving: &mut [u8], events: &[u8], at: usize)
    requires { (length s.old ≡ snapshot_size) × (length moving.old ≡ moving_size) × (at + event_size ≤ length events.now) }
    ensures { HoldsIfGood (step_event (part events.now at event_size) (split_state s.old moving.old))
        s.new moving.new }
{
    let e = read_event(events, at);
    if legality::is_sample(e.kind, e.sub, e.value) {
        sample_over(s, moving, stepping::levels_of(e.value));
    } else {
        control_over(s, moving, e.kind, e.sub, e.value);
    }
}
