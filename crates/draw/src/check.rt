//! What is refused before anything is written: a length, then an illegal event, then the snapshot.
ghost use Rattle.std.specs.Prelude.{◌≡◌, length};
ghost use Rattle.refusal.specs.Refusals.{answer_of};
ghost use Rattle.image.specs.Editions.{system};
ghost use Rattle.draw.specs.Drawing.{sizes_verdict, legal_verdict, form_verdict, draw_verdict};

use image::edition::{self, Edition, first_illegal};
use refusal::{Refusal, told_place};
use snapshot::EVENT_SIZE;

// Refusal 9.
#[tactic(auto, unfolding(crate::specs::Drawing::sizes_verdict))]
fn sizes_verdict(ed: Edition, snapshot: &[u8], events: &[u8], room: usize) -> Result<(), Refusal>
    ensures { answer_of result ≡ sizes_verdict ed snapshot.now events.now room }
{
    let sized = snapshot.len() == edition::size(ed);
    let whole = events.len() % EVENT_SIZE == 0;
    if !sized | !whole | !(room == events.len() / EVENT_SIZE) {
        return Err(Refusal::Size);
    }
    Ok(())
}

// Refusal 5.
fn legal_verdict(ed: Edition, events: &[u8]) -> Result<(), Refusal>
    ensures { answer_of result ≡ legal_verdict ed events.now }
{
    let count = events.len() / EVENT_SIZE;
    let i = first_illegal(ed, events, 0, count);
    if i < count {
        return Err(Refusal::Event(told_place(i)));
    }
    Ok(())
}

// Refusal 6.
fn form_verdict(ed: Edition, snapshot: &[u8]) -> Result<(), Refusal>
    requires { length snapshot.now ≡ (system ed).size }
    ensures { answer_of result ≡ form_verdict ed snapshot.now }
{
    if !edition::formed(ed, snapshot, 0) {
        return Err(Refusal::Snapshot(0));
    }
    Ok(())
}

/// Refuses a snapshot, events and a row of `room` numbers by the first of 9, 5 and 6 that applies.
#[tactic(auto, unfolding(crate::specs::Drawing::draw_verdict))]
pub fn draw_verdict(ed: Edition, snapshot: &[u8], events: &[u8], room: usize) -> Result<(), Refusal>
    ensures { answer_of result ≡ draw_verdict ed snapshot.now events.now room }
{
    sizes_verdict(ed, snapshot, events, room)?;
    legal_verdict(ed, events)?;
    form_verdict(ed, snapshot)
}
