//! The bits shown but not stored.
ghost use Rattle.std.specs.Prelude.{◌≡◌};
ghost use Rattle.counter.specs.Shown.{uix, uip, cu, two_way, cd, hpr, lpr};

use crate::flag::Flag;
use crate::state::Counter;

impl Counter {
    /// A cause runs.
    #[tactic(auto, unfolding(crate::specs::Shown::uix))]
    pub fn uix(&self) -> bool
        ensures { result ≡ uix self.now }
    {
        self.desk.running != 0
    }

    /// A cause waits.
    #[tactic(auto, unfolding(crate::specs::Shown::uip))]
    pub fn uip(&self) -> bool
        ensures { result ≡ uip self.now }
    {
        self.desk.queued != 0
    }

    /// CE.
    #[tactic(auto, unfolding(crate::specs::Shown::cu))]
    pub fn cu(&self) -> bool
        ensures { result ≡ cu self.now }
    {
        self.has(Flag::Ce)
    }

    /// A mode of 2 to 7 is loaded.
    fn two_way(&self) -> bool
        ensures { result ≡ two_way self.now }
    {
        self.has(Flag::Loaded) & !self.active.up_only()
    }

    /// CE, in a mode of 2 to 7.
    #[tactic(auto, unfolding(crate::specs::Shown::cd))]
    pub fn cd(&self) -> bool
        ensures { result ≡ cd self.now }
    {
        self.has(Flag::Ce) & self.two_way()
    }

    /// ACC is HIP or above, with settings loaded.
    #[tactic(auto, unfolding(crate::specs::Shown::hpr))]
    pub fn hpr(&self) -> bool
        ensures { result ≡ hpr self.now }
    {
        self.has(Flag::Loaded) & (self.active.hip <= self.acc)
    }

    /// ACC is LOP or below, in a mode of 2 to 7.
    #[tactic(auto, unfolding(crate::specs::Shown::lpr))]
    pub fn lpr(&self) -> bool
        ensures { result ≡ lpr self.now }
    {
        self.two_way() & (self.acc <= self.active.lop)
    }
}
