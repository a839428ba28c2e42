//! What is refused before anything is written: an image, its start, and a patch for it.
ghost use Rattle.std.specs.Prelude.{◌≡◌};
ghost use Rattle.refusal.specs.Refusals.{answer_of};
ghost use Rattle.image.specs.Verdicts.{image_verdict, replay_verdict, mend_verdict};

use crate::checked::{Checked, Headed};
use crate::header;
use refusal::Refusal;

/// Refuses an image by the first of 1 to 5 that applies.
#[tactic(auto, unfolding(crate::specs::Verdicts::image_verdict))]
pub fn image_verdict(image: &[u8]) -> Result<(), Refusal>
    ensures { answer_of result ≡ image_verdict image.now }
{
    header::verdict(image)?;
    let headed = Headed::read(image);
    headed.length_verdict()?;
    headed.events_verdict()
}

/// Refuses an image that may not be replayed: 1 to 5, then 6 at 0.
#[tactic(auto, unfolding(crate::specs::Verdicts::replay_verdict))]
pub fn replay_verdict(image: &[u8]) -> Result<(), Refusal>
    ensures { answer_of result ≡ replay_verdict image.now }
{
    image_verdict(image)?;
    Checked::read(image).starts_verdict()
}

/// Refuses an image, or a patch for it from event `first` on: 1 to 5, 7, 8, then 6.
#[tactic(auto, unfolding(crate::specs::Verdicts::mend_verdict))]
pub fn mend_verdict(image: &[u8], first: u64, patch: &[u8]) -> Result<(), Refusal>
    ensures { answer_of result ≡ mend_verdict image.now first patch.now }
{
    image_verdict(image)?;
    Checked::read(image).edit_verdict(first, patch)
}
