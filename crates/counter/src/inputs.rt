//! One input sample: edges of the four inputs, and what the mode makes of them.
ghost use Rattle.std.specs.Prelude.{◌≡◌, ◌<◌};
ghost use Rattle.word.specs.Masks.{bit};
ghost use Rattle.counter.specs.Inputs.{number};
ghost use Rattle.counter.specs.Modes.{mode_number};
ghost use Rattle.counter.specs.Sample.{rises, falls, reset_by, inhibited, direction, alone_up};
ghost use Rattle.counter.specs.Sample.{by_level, by_input, by_phase, count_of};
ghost use Rattle.counter.specs.Idle.{none_rises};

use crate::mode::Mode;
use word::bits;

/// A count up or down.
#[derive(Clone, Copy, Debug, PartialEq, Eq)]
pub enum Count {
    Up,
    Down,
}

/// The four inputs, in the order of their numbers.
#[derive(Clone, Copy, Debug, PartialEq, Eq)]
pub enum Input {
    /// Input 0.
    A,
    /// Input 1.
    B,
    /// Input 2.
    Z,
    /// Input 3, the hold in modes 1, 3, 5 and 7.
    Hold,
}

impl Input {
    /// Its number, which is its bit in the levels.
    #[inline(always)]
    pub fn number(self) -> u32
        ensures below { result < 4 }
        ensures number { result ≡ number self }
    {
        self as u32
    }
}

/// Whether the input is on.
pub(crate) fn is_on(levels: u8, input: Input) -> bool
    ensures { result ≡ bit levels (number input) }
{
    bits::has(u32::from(levels), input.number())
}

/// Whether the input goes from off to on.
pub(crate) fn rises(old: u8, new: u8, input: Input) -> bool
    ensures { result ≡ rises old new (number input) }
{
    !is_on(old, input) & is_on(new, input)
}

/// Whether the input goes from on to off.
fn falls(old: u8, new: u8, input: Input) -> bool
    ensures { result ≡ falls old new (number input) }
{
    is_on(old, input) & !is_on(new, input)
}

/// Whether no input goes from off to on, told by one test of all levels.
pub fn none_rises(old: u8, new: u8) -> bool
    ensures { result ≡ none_rises old new 8 }
{
    new & !old == 0
}

/// Whether the inputs reset: in mode 7 input 0 falls with 1 off and 2 on, in 1, 3 and 5 input 2
/// rises.
#[tactic(auto, unfolding(crate::specs::Sample::reset_by, crate::specs::Sample::has_reset))]
pub(crate) fn reset_by(mode: Option<Mode>, old: u8, new: u8) -> bool
    ensures { result ≡ reset_by (mode_number mode) old new }
{
    match mode {
        Some(Mode::UpReset | Mode::DirectionReset | Mode::UpDownReset) => rises(old, new, Input::Z),
        Some(Mode::QuadratureReset) => {
            falls(old, new, Input::A) & (!is_on(new, Input::B) & is_on(new, Input::Z))
        }
        _ => false,
    }
}

/// Whether an input inhibits the count: the hold in 1, 3, 5 and 7, and in 7 input 2 as well.
#[tactic(auto, unfolding(crate::specs::Sample::inhibited, crate::specs::Sample::has_reset))]
pub(crate) fn inhibited(mode: Option<Mode>, new: u8) -> bool
    ensures { result ≡ inhibited (mode_number mode) new }
{
    match mode {
        Some(Mode::UpReset | Mode::DirectionReset | Mode::UpDownReset) => is_on(new, Input::Hold),
        Some(Mode::QuadratureReset) => is_on(new, Input::Hold) | is_on(new, Input::Z),
        _ => false,
    }
}

/// Modes 0 and 1.
#[tactic(auto, unfolding(crate::specs::Sample::alone_up))]
fn alone_up(old: u8, new: u8) -> Option<Count>
    ensures { count_of result ≡ alone_up old new }
{
    if rises(old, new, Input::A) {
        Some(Count::Up)
    } else {
        None
    }
}

/// Modes 2 and 3: input 1 gives the direction.
#[tactic(auto, unfolding(crate::specs::Sample::by_level))]
fn by_level(old: u8, new: u8) -> Option<Count>
    ensures { count_of result ≡ by_level old new }
{
    match (rises(old, new, Input::A), is_on(new, Input::B)) {
        (true, false) => Some(Count::Up),
        (true, true) => Some(Count::Down),
        _ => None,
    }
}

/// Modes 4 and 5: an input for each direction; both in one sample do not count.
#[tactic(auto, unfolding(crate::specs::Sample::by_input))]
fn by_input(old: u8, new: u8) -> Option<Count>
    ensures { count_of result ≡ by_input old new }
{
    match (rises(old, new, Input::A), rises(old, new, Input::B)) {
        (true, false) => Some(Count::Up),
        (false, true) => Some(Count::Down),
        _ => None,
    }
}

/// Modes 6 and 7: edges of input 0 while input 1 is off.
#[tactic(auto, unfolding(crate::specs::Sample::by_phase))]
fn by_phase(old: u8, new: u8) -> Option<Count>
    ensures { count_of result ≡ by_phase old new }
{
    if is_on(new, Input::B) {
        None
    } else if rises(old, new, Input::A) {
        Some(Count::Up)
    } else if falls(old, new, Input::A) {
        Some(Count::Down)
    } else {
        None
    }
}

/// What the mode makes of a sample.
#[tactic(auto, unfolding(crate::specs::Sample::direction))]
#[inline(always)]
pub(crate) fn direction(mode: Option<Mode>, old: u8, new: u8) -> Option<Count>
    ensures { count_of result ≡ direction (mode_number mode) old new }
{
    match mode? {
        Mode::Up | Mode::UpReset => alone_up(old, new),
        Mode::Direction | Mode::DirectionReset => by_level(old, new),
        Mode::UpDown | Mode::UpDownReset => by_input(old, new),
        Mode::Quadrature | Mode::QuadratureReset => by_phase(old, new),
    }
}
