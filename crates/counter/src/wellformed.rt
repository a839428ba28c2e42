//! Well formed: the rules that a state in a snapshot has to keep.
ghost use Rattle.std.specs.Prelude.{◌≡◌};
ghost use Rattle.accumulator.specs.Causes.{cause_count};
ghost use Rattle.counter.specs.Desk.{first, second};
ghost use Rattle.counter.specs.WellFormed.{is_none, causes_formed, error_formed, active_formed};
ghost use Rattle.counter.specs.WellFormed.{well_formed};

use crate::desk::{Desk, queued_of};
use crate::flag::Flag;
use crate::outputs::OUTPUTS_END;
use crate::rules;
use crate::state::{Counter, Settings};

/// Below this, flag bits 20-31 are zero.
const FLAGS_END: u32 = 0x10_0000;

/// The greatest levels.
const LEVELS: u8 = 15;

/// The greatest cause.
const CAUSES: u8 = 4;

impl Desk {
    /// Each number is a cause's or 0, a second waits only with a first, a first only with one
    /// running, and two that wait differ.
    fn causes_formed(&self) -> bool
        ensures { result
            ≡ causes_formed cause_count self.now.running (first self.now) (second self.now) }
    {
        let [first, second] = self.waiting;
        (self.running <= CAUSES)
            & (first <= CAUSES)
            & (second <= CAUSES)
            & ((second == 0) | !(first == 0))
            & ((first == 0) | !(self.running == 0))
            & ((second == 0) | !(first == second))
    }
}

impl Settings {
    /// Every setting is 0.
    #[tactic(auto, unfolding(crate::specs::WellFormed::is_none))]
    pub(crate) fn is_none(&self) -> bool
        ensures { result ≡ is_none self.now }
    {
        *self == Settings::default()
    }
}

impl Counter {
    /// ER is 0 or a rule's number, and ED is 1 exactly if ER is not 0.
    fn error_formed(&self) -> bool
        ensures { result ≡ error_formed self.now.er self.now.flags }
    {
        (self.er <= rules::COUNT) & (self.has(Flag::Ed) == !(self.er == 0))
    }

    /// The active settings pass the rules if loaded, and are all 0 if not.
    fn active_formed(&self) -> bool
        ensures { result ≡ active_formed self.now.flags self.now.active }
    {
        if self.has(Flag::Loaded) {
            self.active.check().is_ok()
        } else {
            self.active.is_none()
        }
    }

    /// Whether the state is well formed.
    #[tactic(auto, unfolding(crate::specs::WellFormed::well_formed, crate::specs::WellFormed::parts_formed))]
    pub fn is_well_formed(&self) -> bool
        ensures { result ≡ well_formed self.now }
    {
        let [first, second] = self.desk.waiting;
        (self.flags < FLAGS_END)
            & (self.out < OUTPUTS_END)
            & (self.levels <= LEVELS)
            & self.desk.causes_formed()
            & self.error_formed()
            & self.active_formed()
            & (self.desk.queued == queued_of(first, second))
    }
}
