//! The call that draws a night.
ghost use Rattle.std.specs.Prelude.{◌≡◌, length};
ghost use Rattle.image.specs.declared.edition.Edition.TheVariants.{Base};
ghost use Rattle.draw.specs.Drawing.{draw_snapshot, draw_row};
ghost use Rattle.hsc.specs.Calls.{draw_status};

use draw::draw;
use image::edition::Edition;
use refusal::status_of;

/// Takes the events over the snapshot, as so many steps, and writes the accumulator after each into the row. A refusal leaves both as they
/// were.
pub fn hsc_draw(snapshot: &mut [u8], events: &[u8], row: &mut [i32]) -> u64
    ensures status { result ≡ draw_status snapshot.old events.now row.old }
    ensures snapshot { snapshot.new ≡ draw_snapshot Base snapshot.old events.now (length row.old) }
    ensures row { row.new ≡ draw_row Base snapshot.old events.now row.old }
{
    // The base edition's: no header tells another.
    status_of(draw(Edition::Base, snapshot, events, row))
}
