//! The base edition as a machine: the counter's state in the bytes of a snapshot, and beside them
//! the numbers that nearly every event moves.
//! A slice and a place in it, as in `word::bytes`.
ghost use Rattle.std.specs.Prelude.{◌≡◌, true, refl, length, ◌+◌, ◌≤◌};
ghost use Rattle.std.proofs.Common.{rules};
ghost use Rattle.word.specs.Part.{part};
ghost use Rattle.word.specs.Same.{same_bytes};
ghost use Rattle.snapshot.specs.Widths.{snapshot_size};

use counter::state::Counter;
use difference::first_difference;
use replay::machine::Machine;
use snapshot::{EVENT_SIZE, MOVING_SIZE, SNAPSHOT_SIZE, codec, event, form, split};
use std::marker::Model;

/// A good state of the counter while events are taken.
#[derive(Drop)]
pub struct Running {
    snapshot: [u8; SNAPSHOT_SIZE],
    moving: [u8; MOVING_SIZE],
}

impl Model for Running {
    ghost use Rattle.counter.specs.declared.state.Counter.{Counter};
    ghost use Rattle.counter.specs.WellFormed.{Good};
    ghost use Rattle.snapshot.specs.Split.{split_state};

    ghost Value = { Counter };

    ghost view = { λ r. split_state r.snapshot r.moving };

    ghost invariant = { λ r. Good (split_state r.snapshot r.moving) };
}

// Whether a snapshot's bytes stand from byte at on.
fn same_at(image: &[u8], at: usize, bytes: &[u8; SNAPSHOT_SIZE]) -> bool
    requires { at + snapshot_size ≤ length image.now }
    ensures { result ≡ same_bytes (part image.now at snapshot_size) bytes.now }
{
    let end = at + SNAPSHOT_SIZE;
    first_difference(&image[at..end], bytes) == SNAPSHOT_SIZE
}

impl Machine for Running {
    ghost use Rattle.snapshot.proofs.RoundTrip.{length-encode};
    ghost use Rattle.snapshot.specs.Widths.{event_size};
    ghost use Rattle.snapshot.specs.FormedBytes.{formed};
    ghost use Rattle.image.specs.Editions.{base};
    ghost use Rattle.image.specs.Laws.{base-laws};

    ghost WIDTH = { event_size };

    const WIDTH: usize = EVENT_SIZE;

    ghost system = { base };

    ghost state = { λ c. c };

    ghost can_load = { λ b. formed b ≡ true };

    ghost number = { λ c. c.acc };

    fn size() -> usize {
        SNAPSHOT_SIZE
    }

    fn is_legal(events: &[u8], at: usize) -> bool {
        event::legal_event(events, at)
    }

    fn is_formed(image: &[u8], at: usize) -> bool {
        form::formed(image, at)
    }

    fn may_start(image: &[u8], at: usize) -> bool {
        true
    }

    fn begin(image: &mut [u8], at: usize) {
        codec::encode(Counter::fresh(), image, at);
    }

    fn load(image: &[u8], at: usize) -> Self {
        // `split::load_state` fills what it is lent.
        let mut snapshot = [0u8; SNAPSHOT_SIZE];
        let mut moving = [0u8; MOVING_SIZE];
        split::load_state(image, at, &mut snapshot, &mut moving);
        Running { snapshot, moving }
    }

    // Inlined, as what it calls for a sample is (`counter::sampling`).
    #[inline(always)]
    fn step(&mut self, events: &[u8], at: usize) {
        split::step_over(&mut self.snapshot, &mut self.moving, events, at);
    }

    fn write(&self, image: &mut [u8], at: usize) {
        split::write_snapshot(image, at, &self.snapshot, &self.moving);
    }

    fn is_at(&self, image: &[u8], at: usize) -> bool {
        let mut bytes = self.snapshot;
        split::write_over(&mut bytes, 0, &self.moving);
        same_at(image, at, &bytes)
    }

    fn number(&self) -> i32 {
        split::read_acc(&self.snapshot, &self.moving)
    }

    ghost wide = { Prim.search rules };

    ghost laws = { base-laws };

    ghost long = { λ c. length-encode c };

    ghost formed_loads = { λ _ h. h };
}
