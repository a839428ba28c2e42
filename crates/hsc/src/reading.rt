//! The call that reads a snapshot.
ghost use Rattle.std.specs.Prelude.{◌≡◌};
ghost use Rattle.refusal.specs.Refusals.{answer_of};
ghost use Rattle.hsc.specs.Calls.{read_verdict, read_answer, read_after};

use crate::filling::fill;
use refusal::{Refusal, status_of};
use snapshot::SNAPSHOT_SIZE;
use snapshot::codec::decode;
use snapshot::form::formed;

// What a reading comes to.
fn read_verdict(snapshot: &[u8]) -> Result<(), Refusal>
    ensures { answer_of result ≡ read_verdict snapshot.now }
{
    if snapshot.len() != SNAPSHOT_SIZE {
        return Err(Refusal::Size);
    }
    if !formed(snapshot, 0) {
        return Err(Refusal::Snapshot(0));
    }
    Ok(())
}

/// Writes the state and the bits shown but not stored into fields. A refusal leaves them as they were.
pub fn hsc_read(snapshot: &[u8], fields: &mut [i32; 32]) -> u64
    ensures status { result ≡ read_answer snapshot.now }
    ensures fields { fields.new ≡ read_after snapshot.now fields.old }
{
    let verdict = read_verdict(snapshot);
    if verdict.is_ok() {
        fill(decode(snapshot, 0), fields);
    }
    status_of(verdict)
}
