//! The rules by plain numbers, for a caller that has no enum: a cause's number, an input's, a mode's, a
//! rule's. A number that stands for none is answered as the definitions have it.
ghost use Rattle.std.specs.Prelude.{◌≡◌, ◌<◌};
ghost use Rattle.word.specs.Masks.{bit};
ghost use Rattle.counter.specs.Events.{is_zero};
ghost use Rattle.counter.specs.Interrupts.{cause_word, quiet, raise};
ghost use Rattle.counter.specs.Loading.{rejected};
ghost use Rattle.counter.specs.Sample.{rises, has_reset, reset_by, inhibited, direction, count_of};
ghost use Rattle.counter.specs.Sample.{up_flags, down_flags};
ghost use Rattle.counter.specs.WellFormed.{causes_formed, error_formed, active_formed};

use crate::flag::Flag;
use crate::inputs::{self, Count};
use crate::mode::Mode;
use crate::outputs::preset_word;
use crate::rules;
use crate::state::{Counter, Settings};
use accumulator::cause::Cause;
use word::bits;

/// Whether bit `n` of the levels is 1.
pub fn is_on(levels: u8, n: u32) -> bool
    requires { n < 32 }
    ensures { result ≡ bit levels n }
{
    bits::has(u32::from(levels), n)
}

/// Whether bit `n` of the levels goes from 0 to 1.
pub fn rises(old: u8, new: u8, n: u32) -> bool
    requires { n < 32 }
    ensures { result ≡ rises old new n }
{
    !is_on(old, n) & is_on(new, n)
}

/// Modes 1, 3, 5 and 7 have a reset and a hold.
#[tactic(auto, unfolding(crate::specs::Sample::has_reset))]
pub fn has_reset(mode: u8) -> bool
    ensures { result ≡ has_reset mode }
{
    (mode < 8) & (mode % 2 == 1)
}

/// Whether the inputs reset in this mode; in a number that is no mode's they do not.
#[tactic(auto, unfolding(crate::specs::Sample::reset_by, crate::specs::Sample::has_reset, crate::specs::Parts::mode_of))]
pub fn reset_by(mode: u8, old: u8, new: u8) -> bool
    ensures { result ≡ reset_by mode old new }
{
    inputs::reset_by(Mode::try_from(i16::from(mode)).ok(), old, new)
}

/// Whether an input inhibits the count in this mode; in a number that is no mode's none does.
#[tactic(auto, unfolding(crate::specs::Sample::inhibited, crate::specs::Sample::has_reset, crate::specs::Parts::mode_of))]
pub fn inhibited(mode: u8, new: u8) -> bool
    ensures { result ≡ inhibited mode new }
{
    inputs::inhibited(Mode::try_from(i16::from(mode)).ok(), new)
}

/// What this mode makes of a sample; a number that is no mode's makes no count.
#[tactic(auto, unfolding(crate::specs::Sample::direction, crate::specs::Parts::mode_of))]
pub fn direction(mode: u8, old: u8, new: u8) -> Option<Count>
    ensures { count_of result ≡ direction mode old new }
{
    inputs::direction(Mode::try_from(i16::from(mode)).ok(), old, new)
}

/// The flags after a count up that came to this cause, 0 for none.
#[tactic(auto, unfolding(crate::specs::Sample::up_flags))]
pub fn up_flags(single: bool, cause: u8, flags: u32) -> u32
    ensures { result ≡ up_flags single cause flags }
{
    let counted = bits::set(flags, Flag::Dir.bit());
    match cause {
        4 => bits::set(counted, Flag::Of.bit()),
        2 if single => bits::set(counted, Flag::Md.bit()),
        _ => counted,
    }
}

/// The flags after a count down that came to this cause, 0 for none.
#[tactic(auto, unfolding(crate::specs::Sample::down_flags))]
pub fn down_flags(cause: u8, flags: u32) -> u32
    ensures { result ≡ down_flags cause flags }
{
    let counted = bits::clear(flags, Flag::Dir.bit());
    match cause {
        3 => bits::set(counted, Flag::Uf.bit()),
        _ => counted,
    }
}

/// The outputs after a cause: 2 puts HPO, 1 puts LPO; another number leaves them.
#[tactic(auto, unfolding(crate::specs::Interrupts::cause_word))]
pub fn cause_word(cause: u8, omb: u16, hpo: u16, lpo: u16, out: u16) -> u16
    ensures { result ≡ cause_word cause omb hpo lpo out }
{
    match cause {
        2 => preset_word(omb, hpo, out),
        1 => preset_word(omb, lpo, out),
        _ => out,
    }
}

/// The flags with LPI, HPI, UFI and OFI at 0.
#[tactic(auto, unfolding(crate::specs::Interrupts::quiet))]
pub fn quiet(flags: u32) -> u32
    ensures { result ≡ quiet flags }
{
    let flags = bits::clear(flags, Flag::Lpi.bit());
    let flags = bits::clear(flags, Flag::Hpi.bit());
    let flags = bits::clear(flags, Flag::Ufi.bit());
    bits::clear(flags, Flag::Ofi.bit())
}

/// Raises the cause with this number; a number that is no cause's changes nothing.
pub fn raise(counter: &mut Counter, cause: u8)
    ensures { counter.new ≡ raise cause counter.old }
{
    match Cause::try_from(cause) {
        Ok(cause) => counter.raise(cause),
        Err(_) => {}
    }
}

/// ED 1, and this number in ER.
pub fn reject(counter: &mut Counter, rule: u16)
    ensures { counter.new ≡ rejected rule counter.old }
{
    counter.er = rule;
    counter.set(Flag::Ed);
}

/// Whether the value is 0, as most events ask.
pub fn is_zero(value: i32) -> bool
    ensures { result ≡ is_zero value }
{
    value == 0
}

/// Each number is `most` at most, a second waits only with a first, a first only with one running,
/// and two that wait differ.
pub fn causes_formed(most: u8, running: u8, first: u8, second: u8) -> bool
    ensures { result ≡ causes_formed most running first second }
{
    (running <= most)
        & (first <= most)
        & (second <= most)
        & ((second == 0) | !(first == 0))
        & ((first == 0) | !(running == 0))
        & ((second == 0) | !(first == second))
}

/// ER is 0 or a rule's number, and ED is 1 exactly if ER is not 0.
pub fn error_formed(er: u16, flags: u32) -> bool
    ensures { result ≡ error_formed er flags }
{
    (er <= rules::COUNT) & (bits::has(flags, Flag::Ed.bit()) == !(er == 0))
}

/// The active settings pass the rules if the flags say that they are loaded, and are all 0 if not.
pub fn active_formed(flags: u32, active: &Settings) -> bool
    ensures { result ≡ active_formed flags active.now }
{
    if bits::has(flags, Flag::Loaded.bit()) {
        active.check().is_ok()
    } else {
        active.is_none()
    }
}
