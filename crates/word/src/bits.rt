//! Masks on a word: one flag of the 32-bit flag word, and the merge of two 16-bit output words.
ghost use Rattle.std.specs.Prelude.{◌≡◌, ◌<◌};
ghost use Rattle.word.specs.Masks.{bit, set_bit, clear_bit, merge};

// That n is below 32 is asked: what n names is the caller's, as `Flag::bit` promises it.

/// Whether bit n of w is 1.
#[tactic(auto, unfolding(crate::specs::Masks::bit))]
pub fn has(w: u32, n: u32) -> bool
    requires { n < 32 }
    ensures { result ≡ bit w n }
{
    (w >> n) % 2 == 1
}

/// w with bit n at 1.
#[tactic(auto, unfolding(crate::specs::Masks::set_bit))]
pub fn set(w: u32, n: u32) -> u32
    requires { n < 32 }
    ensures { result ≡ set_bit w n }
{
    w | (1 << n)
}

/// w with bit n at 0.
#[tactic(auto, unfolding(crate::specs::Masks::clear_bit))]
pub fn clear(w: u32, n: u32) -> u32
    requires { n < 32 }
    ensures { result ≡ clear_bit 32 w n }
{
    w & !(1 << n)
}

/// The bits of new where the mask has a 1, those of old where it has a 0.
#[tactic(auto, unfolding(crate::specs::Masks::merge))]
pub fn merge(mask: u16, new: u16, old: u16) -> u16
    ensures { result ≡ merge 16 mask new old }
{
    (new & mask) | (old & !mask)
}
