//! The call on two parts of bytes: the first place where they differ.
ghost use Rattle.std.specs.Prelude.{◌≡◌};
ghost use Rattle.difference.specs.FirstDifference.{first_difference};

use difference::first_difference;

/// The first place where the two differ; the shorter's length if there is none within it.
pub fn hsc_first_difference(first: &[u8], second: &[u8]) -> u64
    ensures { result ≡ first_difference first.now second.now }
{
    first_difference(first, second) as u64
}
