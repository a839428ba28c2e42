//! The reader of a trace that comes in chunks (document 02, request 5): its bytes, and what it waits for.
#![tactic(auto)]

ghost use Rattle.std.specs.Prelude.{◌≡◌, cond, Some, None};
ghost use Rattle.refusal.specs.Refusals.{answer_of};
ghost use Rattle.pieces.specs.Traces.{verdict};
ghost use Rattle.reader.specs.Formats.{format};
ghost use Rattle.reader.specs.Layout.{reader_in};
ghost use Rattle.reader.specs.WellFormed.{Held, formed};
ghost use Rattle.reader.specs.Phases.{PhaseIs};

use crate::check::{is_formed, trace_refusal};
use crate::layout::{NUMBER, PLACE, SIZE, TAKEN, events_end, number};
use crate::phase::Phase;
use image::header;
use refusal::Refusal;
use std::marker::Model;

pub mod check;
pub mod layout;
pub mod phase;

/// A reader: 116 bytes such as a call may have left, laid out as C keeps them.
#[derive(Drop)]
pub struct Reader {
    pub bytes: [u8; SIZE],
}

impl Model for Reader {
    ghost use Rattle.std.specs.Prelude.{List, ℕ};
    ghost use Rattle.reader.specs.WellFormed.{Held};

    ghost Value = { List ℕ };

    ghost view = { λ r. r.bytes };

    ghost invariant = { λ r. Held r.bytes };
}

// Inlined, as what opens a reader is: else its 116 bytes are moved at each return, and a chunk of 12
// bytes takes a third longer.
impl Reader {
    /// The reader in these bytes; `None` where no call may have left them.
    #[inline(always)]
    pub fn open(bytes: &[u8; SIZE]) -> Option<Reader>
        ensures { result ≡ cond (formed bytes.now) (Some bytes.now) None }
    {
        if !is_formed(bytes) {
            return None;
        }
        Some(Reader { bytes: *bytes })
    }

    /// What it waits for.
    #[inline(always)]
    pub fn phase(&self) -> Phase
        ensures { PhaseIs self.now result }
    {
        let bytes = &self.bytes;
        if let Some(refusal) = trace_refusal(number(bytes, NUMBER) as u64, number(bytes, PLACE)) {
            return Phase::Refused(refusal);
        }
        let taken = number(bytes, TAKEN);
        if taken < header::SIZE {
            Phase::Header(taken)
        } else if taken < events_end(bytes) {
            Phase::Events(taken)
        } else {
            Phase::Snapshots(taken)
        }
    }

    /// The remembered refusal as an `Err`, or `Ok` where there is none.
    #[inline(always)]
    pub fn refusal(&self) -> Result<(), Refusal>
        ensures answer { answer_of result ≡ verdict format (reader_in self.now).phase }
        ensures held { Held self.now }
    {
        match self.phase() {
            Phase::Refused(refusal) => Err(refusal),
            Phase::Header(_) | Phase::Events(_) | Phase::Snapshots(_) => Ok(()),
        }
    }
}
