//! The output word: what a preset puts on it, and what the program does.
ghost use Rattle.std.specs.Prelude.{◌≡◌};
ghost use Rattle.counter.specs.Interrupts.{preset_word};
ghost use Rattle.counter.specs.Events.{program_word};

use word::bits;

/// Below this, bits 12-15 of a word are zero.
pub const OUTPUTS_END: u16 = 0x1000;

/// A preset's word on the outputs in the mask, among bits 0 to 11.
#[tactic(auto, unfolding(crate::specs::Interrupts::preset_word))]
pub(crate) fn preset_word(omb: u16, word: u16, out: u16) -> u16
    ensures { result ≡ preset_word omb word out }
{
    bits::merge(omb % OUTPUTS_END, word, out)
}

/// The program's word on the outputs that are not in the mask.
#[tactic(auto, unfolding(crate::specs::Events::program_word))]
pub fn program_word(omb: u16, word: u16, out: u16) -> u16
    ensures { result ≡ program_word omb word out }
{
    bits::merge(omb % OUTPUTS_END, out, word % OUTPUTS_END)
}
