//! The causes of interrupts.
ghost use Rattle.std.specs.Prelude.{◌≡◌};
ghost use Rattle.accumulator.specs.Causes.{number, Names};

/// Why a count asks for an interrupt.
#[derive(Clone, Copy, Debug, PartialEq, Eq)]
pub enum Cause {
    LowPreset,
    HighPreset,
    Underflow,
    Overflow,
}

/// A number that is no cause's.
#[derive(Clone, Copy, Debug, PartialEq, Eq)]
pub struct NoCause(pub u8);

impl TryFrom<u8> for Cause {
    type Error = NoCause;

    ghost try_from_gives = { Names };

    fn try_from(number: u8) -> Result<Self, NoCause> {
        match number {
            1 => Ok(Cause::LowPreset),
            2 => Ok(Cause::HighPreset),
            3 => Ok(Cause::Underflow),
            4 => Ok(Cause::Overflow),
            _ => Err(NoCause(number)),
        }
    }
}

impl From<Cause> for u8 {
    ghost from_gives = { λ cause n. n ≡ number cause };

    fn from(cause: Cause) -> u8 {
        match cause {
            Cause::LowPreset => 1,
            Cause::HighPreset => 2,
            Cause::Underflow => 3,
            Cause::Overflow => 4,
        }
    }
}
