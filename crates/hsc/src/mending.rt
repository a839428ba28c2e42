//! The call that mends an image.
ghost use Rattle.std.specs.Prelude.{◌≡◌};
ghost use Rattle.image_mend.specs.Mends.{mend_image};
ghost use Rattle.hsc.specs.Calls.{mend_status, mend_span};

use image_mend::mend;
use refusal::status_of;

/// Copies the patch over the events from place first on and mends the snapshots: span holds the first compared, the stop and the events run. A
/// refusal leaves image and span as they were.
pub fn hsc_mend(image: &mut [u8], first: u64, patch: &[u8], span: &mut [u32; 3]) -> u64
    ensures status { result ≡ mend_status image.old first patch.now }
    ensures image { image.new ≡ mend_image image.old first patch.now }
    ensures span { span.new ≡ mend_span image.old first patch.now span.old }
{
    match mend(image, first, patch) {
        Ok(done) => {
            *span = [done.first as u32, done.stop as u32, done.ran as u32];
            0
        }
        Err(refusal) => status_of(Err(refusal)),
    }
}
