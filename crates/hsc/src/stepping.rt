//! The call that steps a snapshot by one event.
ghost use Rattle.std.specs.Prelude.{◌≡◌, true, length};
ghost use Rattle.snapshot.specs.Widths.{snapshot_size, event_size};
ghost use Rattle.snapshot.specs.Snapshots.{encode, decode};
ghost use Rattle.snapshot.specs.FormedBytes.{formed};
ghost use Rattle.snapshot.specs.EventBytes.{step_event};
ghost use Rattle.refusal.specs.Refusals.{answer_of};
ghost use Rattle.hsc.specs.Calls.{event_verdict, step_verdict, step_answer, step_after};

use refusal::{Refusal, status_of};
use snapshot::event::legal_event;
use snapshot::form::formed;
use snapshot::{EVENT_SIZE, MOVING_SIZE, SNAPSHOT_SIZE, split};

// Refusals 5 and 6, where every length is right.
fn event_verdict(snapshot: &[u8], event: &[u8]) -> Result<(), Refusal>
    requires { (length snapshot.now ≡ snapshot_size) × (length event.now ≡ event_size) }
    ensures { answer_of result ≡ event_verdict snapshot.now event.now }
{
    if !legal_event(event, 0) {
        return Err(Refusal::Event(0));
    }
    if !formed(snapshot, 0) {
        return Err(Refusal::Snapshot(0));
    }
    Ok(())
}

// What a step comes to.
#[tactic(auto, unfolding(crate::specs::Calls::step_verdict))]
fn step_verdict(snapshot: &[u8], event: &[u8]) -> Result<(), Refusal>
    ensures { answer_of result ≡ step_verdict snapshot.now event.now }
{
    if snapshot.len() != SNAPSHOT_SIZE {
        return Err(Refusal::Size);
    }
    if event.len() != EVENT_SIZE {
        return Err(Refusal::Size);
    }
    event_verdict(snapshot, event)
}

// Writes the next snapshot over this one, whose bytes hold the state meanwhile: a `Running` would be
// copied in and out for each step.
fn step_over(snapshot: &mut [u8], event: &[u8])
    requires snapshot_formed { (length snapshot.old ≡ snapshot_size) × (formed snapshot.old ≡ true) }
    requires event_whole { length event.now ≡ event_size }
    ensures { snapshot.new ≡ encode (step_event event.now (decode snapshot.old)) }
{
    let mut moving = [0u8; MOVING_SIZE];
    split::load_moving(snapshot, &mut moving);
    split::step_over(snapshot, &mut moving, event, 0);
    split::write_over(snapshot, 0, &moving);
}

/// Takes the event: the next snapshot stands over the lent one. A refusal leaves it as it was.
pub fn hsc_step(snapshot: &mut [u8], event: &[u8]) -> u64
    ensures status { result ≡ step_answer snapshot.old event.now }
    ensures snapshot { snapshot.new ≡ step_after snapshot.old event.now }
{
    let verdict = step_verdict(snapshot, event);
    if verdict.is_ok() {
        step_over(snapshot, event);
    }
    status_of(verdict)
}
