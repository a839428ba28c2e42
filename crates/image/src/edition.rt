//! The editions of an image, and what is asked of one by its header alone.
//! A slice and a place in it, as in `word::bytes`.
ghost use Rattle.std.specs.Prelude.{◌≡◌, ◌+◌, ◌*◌, ◌≤◌, length};
ghost use Rattle.word.specs.Part.{part, put};
ghost use Rattle.replay.specs.Events.{first_illegal};
ghost use Rattle.snapshot.specs.Widths.{event_size};
ghost use Rattle.image.specs.Editions.{system, edition_at, max_size};

use crate::running::Running;
use replay::machine::Machine;
use replay::rows;
use snapshot::SNAPSHOT_SIZE;

/// The editions, by the header's sixth number.
// An enum and a `match` in each call: the header tells the edition when the program runs, and below
// that the machine is a type.
#[derive(Clone, Copy, Debug, PartialEq, Eq)]
pub enum Edition {
    Base,
}

/// The most bytes of a snapshot.
pub const MAX_SIZE: usize = SNAPSHOT_SIZE;

/// The edition of a header whose sixth number is this.
// No `From`: any number tells one today, and refusal 2 says which may stand there.
pub fn edition_at(sixth: usize) -> Edition
    ensures { result ≡ edition_at sixth }
{
    Edition::Base
}

/// The bytes of a snapshot.
pub fn size(ed: Edition) -> usize
    ensures { (result ≡ (system ed).size) × (result ≤ max_size) }
{
    match ed {
        Edition::Base => Running::size(),
    }
}

/// The first illegal event of the `count` events from byte `at` on, or `count`.
// A number, and no `Option`: the theory's, as in `replay::rows`.
pub fn first_illegal(ed: Edition, events: &[u8], at: usize, count: usize) -> usize
    requires { at + count * event_size ≤ length events.now }
    ensures { result ≡ first_illegal (system ed) events.now at 0 count }
{
    match ed {
        Edition::Base => rows::first_illegal::<Running>(events, at, count),
    }
}

/// Whether the snapshot from byte `at` on is well formed.
pub fn formed(ed: Edition, image: &[u8], at: usize) -> bool
    requires { at + (system ed).size ≤ length image.now }
    ensures { result ≡ (system ed).formed (part image.now at (system ed).size) }
{
    match ed {
        Edition::Base => Running::is_formed(image, at),
    }
}

/// Whether replay may start where snapshot 0 stands from byte `at` on.
pub fn starts(ed: Edition, image: &[u8], at: usize) -> bool
    requires { at + (system ed).size ≤ length image.now }
    ensures { result ≡ (system ed).starts (part image.now at (system ed).size) }
{
    match ed {
        Edition::Base => Running::may_start(image, at),
    }
}

/// Writes the start over snapshot 0, which stands from byte `at` on.
pub fn begin(ed: Edition, image: &mut [u8], at: usize)
    requires { at + (system ed).size ≤ length image.old }
    ensures { image.new
        ≡ put image.old at ((system ed).encode ((system ed).start (part image.old at (system ed).size))) }
{
    match ed {
        Edition::Base => Running::begin(image, at),
    }
}
