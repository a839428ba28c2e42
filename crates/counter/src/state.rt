//! The counter's parts, and the counter as it starts.
ghost use Rattle.std.specs.Prelude.{◌≡◌};
ghost use Rattle.word.specs.Masks.{bit};
ghost use Rattle.counter.specs.Flags.{bit_of};
ghost use Rattle.counter.specs.Parts.{fresh, on, off};

use crate::desk::Desk;
use crate::flag::Flag;
use word::bits;

/// What a load copies from staged to active, in the snapshot's order.
// MOD is a number, and not a `Mode`: a state holds any number of a snapshot (`encode-decode`).
#[derive(Clone, Copy, Debug, PartialEq, Eq, Default)]
pub struct Settings {
    pub pfn: i16,
    pub mode: i16,
    pub hip: i32,
    pub lop: i32,
    pub ovf: i32,
    pub unf: i32,
    pub omb: u16,
    pub hpo: u16,
    pub lpo: u16,
}

/// All that a counter is between two events.
// ER is a number, and not an `Option<Rule>`: a state holds any number of a snapshot
// (`encode-decode`).
#[derive(Clone, Copy, Debug, PartialEq, Eq)]
pub struct Counter {
    pub staged: Settings,
    pub active: Settings,
    pub acc: i32,
    pub out: u16,
    pub er: u16,
    pub flags: u32,
    pub levels: u8,
    pub desk: Desk,
}

impl Counter {
    /// A counter that was never set up: nothing is loaded, and every cause may interrupt.
    #[tactic(auto, unfolding(crate::specs::Parts::fresh))]
    pub fn fresh() -> Self
        ensures { result ≡ fresh }
    {
        let staged = Settings {
            hip: i32::MAX,
            lop: i32::MIN,
            ovf: i32::MAX,
            unf: i32::MIN,
            ..Settings::default()
        };
        let mut counter = Counter {
            staged,
            active: Settings::default(),
            acc: 0,
            out: 0,
            er: 0,
            flags: 0,
            levels: 0,
            desk: Desk::empty(),
        };
        counter.set(Flag::Ofm);
        counter.set(Flag::Ufm);
        counter.set(Flag::Hpm);
        counter.set(Flag::Lpm);
        counter
    }

    /// Whether the flag is 1.
    #[inline(always)]
    pub fn has(&self, flag: Flag) -> bool
        ensures { result ≡ bit self.now.flags (bit_of flag) }
    {
        bits::has(self.flags, flag.bit())
    }

    /// Sets the flag to 1.
    #[inline(always)]
    pub fn set(&mut self, flag: Flag)
        ensures { self.new ≡ on (bit_of flag) self.old }
    {
        self.flags = bits::set(self.flags, flag.bit());
    }

    /// Sets the flag to 0.
    #[inline(always)]
    pub(crate) fn clear(&mut self, flag: Flag)
        ensures { self.new ≡ off (bit_of flag) self.old }
    {
        self.flags = bits::clear(self.flags, flag.bit());
    }
}
