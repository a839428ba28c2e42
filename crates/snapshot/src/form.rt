//! Whether a snapshot is well formed.
//! A slice and a place in it, as in `word::bytes`.
ghost use Rattle.std.specs.Prelude.{◌≡◌, ◌+◌, ◌≤◌, length};
ghost use Rattle.word.specs.Part.{part};
ghost use Rattle.snapshot.specs.Widths.{snapshot_size};
ghost use Rattle.snapshot.specs.FormedBytes.{formed};

use crate::codec::decode;

/// Whether the snapshot from byte at is well formed.
pub fn formed(s: &[u8], at: usize) -> bool
    requires { at + snapshot_size ≤ length s.now }
    ensures { result ≡ formed (part s.now at snapshot_size) }
{
    let c = decode(s, at);
    c.is_well_formed()
}
