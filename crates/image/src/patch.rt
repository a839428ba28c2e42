//! What is refused of a patch: its length and its place, then an event of it.
ghost use Rattle.std.specs.Prelude.{◌≡◌, ◌+◌, ltb};
ghost use Rattle.refusal.specs.Refusals.{answer_of};
ghost use Rattle.image.specs.Editions.{system};
ghost use Rattle.image.specs.Verdicts.{patch_verdict};

use crate::edition::{Edition, first_illegal};
use refusal::Refusal;
use snapshot::EVENT_SIZE;

// Whether first + n is beyond count, a sum that never wraps.
fn beyond(first: u64, n: usize, count: usize) -> bool
    ensures { result ≡ ltb count (first + n) }
{
    (first as usize)
        .checked_add(n)
        .is_none_or(|end| count < end)
}

/// Refusals 7 and 8, of a patch for a trace of count events.
pub fn patch_verdict(ed: Edition, count: usize, first: u64, patch: &[u8]) -> Result<(), Refusal>
    ensures { answer_of result ≡ patch_verdict (system ed) count first patch.now }
{
    let n = patch.len() / EVENT_SIZE;
    if !(patch.len() % EVENT_SIZE == 0) | beyond(first, n, count) {
        return Err(Refusal::Patch);
    }
    let i = first_illegal(ed, patch, 0, n);
    if i < n {
        return Err(Refusal::PatchEvent(i));
    }
    Ok(())
}
