//! The call that replays an image.
ghost use Rattle.std.specs.Prelude.{◌≡◌};
ghost use Rattle.image_replay.specs.Replays.{replay_image, replay_last};
ghost use Rattle.hsc.specs.Calls.{replay_status};

use image_replay::replay;
use refusal::status_of;

/// Writes every snapshot anew, and the final state's into last. A refusal leaves both as they were.
pub fn hsc_replay(image: &mut [u8], last: &mut [u8; 68]) -> u64
    ensures status { result ≡ replay_status image.old }
    ensures image { image.new ≡ replay_image image.old }
    ensures last { last.new ≡ replay_last image.old last.old }
{
    status_of(replay(image, last))
}
