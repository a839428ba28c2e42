//! The modes, in which the inputs count.
ghost use Rattle.std.specs.Prelude.{◌≡◌};
ghost use Rattle.counter.specs.Modes.{IsMode, mode_number};
ghost use Rattle.counter.specs.Parts.{mode_of, up_only};
ghost use Rattle.counter.specs.Idle.{by_rises};

use crate::state::Settings;

/// Modes 0 to 7, in this order. Those with a reset have a hold, too.
#[derive(Clone, Copy, Debug, PartialEq, Eq)]
pub enum Mode {
    Up,
    UpReset,
    Direction,
    DirectionReset,
    UpDown,
    UpDownReset,
    Quadrature,
    QuadratureReset,
}

/// A MOD that is no mode.
#[derive(Clone, Copy, Debug, PartialEq, Eq)]
pub struct NoMode(pub i16);

impl TryFrom<i16> for Mode {
    type Error = NoMode;

    ghost try_from_gives = { IsMode };

    #[tactic(auto, unfolding(crate::specs::Parts::mode_of))]
    fn try_from(number: i16) -> Result<Self, NoMode> {
        match number {
            0 => Ok(Mode::Up),
            1 => Ok(Mode::UpReset),
            2 => Ok(Mode::Direction),
            3 => Ok(Mode::DirectionReset),
            4 => Ok(Mode::UpDown),
            5 => Ok(Mode::UpDownReset),
            6 => Ok(Mode::Quadrature),
            7 => Ok(Mode::QuadratureReset),
            _ => Err(NoMode(number)),
        }
    }
}

impl Settings {
    /// The mode of these settings, if MOD is one.
    pub fn mode(&self) -> Option<Mode>
        ensures { mode_number result ≡ mode_of self.now.mode }
    {
        Mode::try_from(self.mode).ok()
    }

    /// Modes 0 to 5 count and reset by rises alone.
    #[tactic(auto, unfolding(crate::specs::Idle::by_rises, crate::specs::Parts::mode_of))]
    pub(crate) fn by_rises(&self) -> bool
        ensures { result ≡ by_rises (mode_of self.now.mode) }
    {
        matches!(self.mode, 0..=5)
    }

    /// Modes 0 and 1 count up only.
    pub fn up_only(&self) -> bool
        ensures { result ≡ up_only (mode_of self.now.mode) }
    {
        matches!(self.mode(), Some(Mode::Up | Mode::UpReset))
    }
}
