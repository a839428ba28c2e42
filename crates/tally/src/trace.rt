//! A trace of digits in a lent image: replay and mending. The start is the digit 0.
ghost use Rattle.std.specs.Prelude.{◌≡◌, length};
ghost use Rattle.replay.specs.Image.{Fitting};
ghost use Rattle.replay.specs.Replay.{Replayable, replayed_image, TrueTable};
ghost use Rattle.replay.specs.Mend.{outcome, mend};
ghost use Rattle.replay.specs.Claim.{Mended};
ghost use Rattle.replay.specs.Traces.{shape_of};
ghost use Rattle.tally.specs.Tally.{tally};

use crate::digit::Digit;
use replay::table;
use replay::trace::Trace;

/// Writes every snapshot anew from the events.
pub fn replay(image: &mut [u8], trace: Trace)
    requires { Replayable tally (shape_of trace) image.old }
    ensures { image.new ≡ replayed_image tally (shape_of trace) image.old }
{
    let _ = table::replay::<Digit>(image, trace);
}

/// Writes the patch over the events from event first on, mends the snapshots after it, and returns the stop.
pub fn mend(image: &mut [u8], trace: Trace, first: usize, patch: &[u8]) -> usize
    requires replayable { Replayable tally (shape_of trace) image.old }
    requires fitting { Fitting tally (shape_of trace) first (length patch.now) patch.now }
    ensures answer { outcome image.new result
        ≡ mend tally (shape_of trace) first (length patch.now) patch.now image.old }
    ensures claim { TrueTable tally (shape_of trace) image.old
        → Mended tally (shape_of trace) image.old first (length patch.now) patch.now
        (outcome image.new result) }
{
    table::mend::<Digit>(image, trace, first, patch)
}
