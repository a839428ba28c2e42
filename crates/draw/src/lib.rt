//! Drawing (document 02, request 2): the accumulator after each of many events into a lent row, and the snapshot after all of them.
#![tactic(auto)]

ghost use Rattle.std.specs.Prelude.{◌≡◌, ◌*◌, length};
ghost use Rattle.refusal.specs.Refusals.{answer_of, given};
ghost use Rattle.replay.specs.Events.{run};
ghost use Rattle.replay.specs.Counts.{after_each};
ghost use Rattle.image.specs.Editions.{system};
ghost use Rattle.draw.specs.Drawing.{draw_verdict, state_after, draw_snapshot, counts, draw_row};

use crate::check::draw_verdict;
use image::edition::Edition;
use image::running::Running;
use refusal::Refusal;
use replay::machine::Machine;
use replay::rows;

mod check;

// Takes as many events as the row has numbers from a snapshot on, writes the number after each, and over the snapshot that of the
// state after all of them.
fn draw_as<M: Machine>(snapshot: &mut [u8], events: &[u8], row: &mut [i32])
    requires whole { length snapshot.old ≡ M.system.size }
    requires can_load { M.can_load snapshot.old }
    requires one_event_each { length events.now ≡ length row.old * M.WIDTH }
    ensures snapshot { snapshot.new
        ≡ M.system.encode (run M.system (M.system.decode snapshot.old) events.now 0 (length row.old)) }
    ensures row { row.new
        ≡ after_each M.system M.number (M.system.decode snapshot.old) events.now 0 0 (length row.old) }
{
    let mut machine = M::load(snapshot, 0);
    rows::draw(&mut machine, events, 0, row);
    machine.write(snapshot, 0);
}

// Draws what is not refused.
fn draw_valid(ed: Edition, snapshot: &mut [u8], events: &[u8], row: &mut [i32])
    requires { draw_verdict ed snapshot.old events.now (length row.old) ≡ given tt }
    ensures snapshot { snapshot.new ≡ (system ed).encode (state_after ed snapshot.old events.now) }
    ensures row { row.new ≡ counts ed snapshot.old events.now }
{
    match ed {
        Edition::Base => draw_as::<Running>(snapshot, events, row),
    }
}

/// Takes the events over the snapshot: writes the accumulator after each into the row, and the
/// snapshot after all of them over the lent one. Refuses by 9, 5 and then 6, and leaves both as they
/// were.
pub fn draw(ed: Edition, snapshot: &mut [u8], events: &[u8], row: &mut [i32]) -> Result<(), Refusal>
    ensures answer { answer_of result ≡ draw_verdict ed snapshot.old events.now (length row.old) }
    ensures snapshot { snapshot.new ≡ draw_snapshot ed snapshot.old events.now (length row.old) }
    ensures row { row.new ≡ draw_row ed snapshot.old events.now row.old }
{
    draw_verdict(ed, snapshot, events, row.len())?;
    draw_valid(ed, snapshot, events, row);
    Ok(())
}
