//! An image as far as it is checked, with what its header tells, and what is refused of it next.
ghost use Rattle.std.specs.Prelude.{◌≡◌};
ghost use Rattle.refusal.specs.Refusals.{given};
ghost use Rattle.image.specs.Header.{event_count, spacing_of, edition_of, header_verdict};
ghost use Rattle.image.specs.Verdicts.{image_verdict};

use crate::edition::{Edition, first_illegal};
use crate::header::{number, snapshot_place};
use crate::patch::patch_verdict;
use crate::{edition, header};
use refusal::Refusal;

/// An image whose header refusals 1 to 3 leave.
// Nothing prints or compares one.
#[derive(Clone, Copy)]
pub struct Headed<'a> {
    image: &'a [u8],
    edition: Edition,
    count: usize,
    spacing: usize,
    ghost passes: { header_verdict image.now ≡ given tt },
    ghost edition_told: { edition ≡ edition_of image.now },
    ghost count_told: { count ≡ event_count image.now },
    ghost spacing_told: { spacing ≡ spacing_of image.now },
}

impl<'a> Headed<'a> {
    ghost use Rattle.std.specs.Prelude.{◌≤◌};
    ghost use Rattle.refusal.specs.Refusals.{answer_of};
    ghost use Rattle.replay.specs.Image.{snapshots, snapshot_place};
    ghost use Rattle.image.specs.Header.{header_size, shape_of, system_of};
    ghost use Rattle.image.specs.Verdicts.{length_verdict, events_verdict};

    /// Reads what the header tells.
    pub fn read(image: &'a [u8]) -> Headed<'a>
        requires { header_verdict image.now ≡ given tt }
        ensures { result.image.now ≡ image.now }
    {
        Headed {
            image,
            edition: header::edition(image),
            count: number(image, header::EVENT_COUNT),
            spacing: number(image, header::SPACING),
        }
    }

    // The byte at which snapshot s begins; one past the last stands for the table's end.
    fn snapshot_at(&self, s: usize) -> usize
        requires { s ≤ snapshots (shape_of self.now.image.now) }
        ensures { let image = self.now.image.now in
            result ≡ snapshot_place (system_of image) (shape_of image) s }
    {
        snapshot_place(self.count, edition::size(self.edition), s)
    }

    /// Refuses by 4 where the image does not end with its table.
    pub fn length_verdict(&self) -> Result<(), Refusal>
        ensures { answer_of result ≡ length_verdict self.now.image.now }
    {
        if self.image.len() != self.snapshot_at(self.count / self.spacing + 1) {
            return Err(Refusal::Length);
        }
        Ok(())
    }

    /// Refuses by 5 at the first event that is illegal.
    pub fn events_verdict(&self) -> Result<(), Refusal>
        requires { length_verdict self.now.image.now ≡ given tt }
        ensures { let image = self.now.image.now in
            answer_of result ≡ events_verdict (system_of image) 5 image header_size (event_count image) }
    {
        let i = first_illegal(self.edition, self.image, header::SIZE, self.count);
        if i < self.count {
            return Err(Refusal::Event(i));
        }
        Ok(())
    }
}

/// An image that refusals 1 to 5 leave.
// Nothing prints or compares one.
#[derive(Clone, Copy)]
pub struct Checked<'a> {
    headed: Headed<'a>,
    ghost passes: { image_verdict headed.image.now ≡ given tt },
}

impl<'a> Checked<'a> {
    ghost use Rattle.std.specs.Prelude.{◌+◌, ◌≤◌};
    ghost use Rattle.refusal.specs.Refusals.{answer_of};
    ghost use Rattle.replay.specs.Image.{snapshots};
    ghost use Rattle.image.specs.Header.{shape_of};
    ghost use Rattle.image.specs.Verdicts.{starts_verdict, start_verdict, edit_verdict};

    /// Reads what the header tells.
    pub fn read(image: &'a [u8]) -> Checked<'a>
        requires { image_verdict image.now ≡ given tt }
        ensures { result.headed.image.now ≡ image.now }
    {
        Checked {
            headed: Headed::read(image),
        }
    }

    /// Refuses by 6 at 0 where replay may not start.
    pub fn starts_verdict(&self) -> Result<(), Refusal>
        ensures { answer_of result ≡ starts_verdict self.now.headed.image.now }
    {
        let headed = self.headed;
        if !edition::starts(headed.edition, headed.image, headed.snapshot_at(0)) {
            return Err(Refusal::Snapshot(0));
        }
        Ok(())
    }

    // Refusal 6, of the snapshot s.
    fn start_verdict(&self, s: usize) -> Result<(), Refusal>
        requires { s + 1 ≤ snapshots (shape_of self.now.headed.image.now) }
        ensures { answer_of result ≡ start_verdict self.now.headed.image.now s }
    {
        let headed = self.headed;
        if !edition::formed(headed.edition, headed.image, headed.snapshot_at(s)) {
            return Err(Refusal::Snapshot(s));
        }
        Ok(())
    }

    /// Refuses a patch from event `first` on: 7 and 8, then 6.
    pub fn edit_verdict(&self, first: u64, patch: &[u8]) -> Result<(), Refusal>
        ensures { answer_of result ≡ edit_verdict self.now.headed.image.now first patch.now }
    {
        let headed = self.headed;
        patch_verdict(headed.edition, headed.count, first, patch)?;
        self.start_verdict(first as usize / headed.spacing)
    }
}
