//! One input sample: reset, hold, and the count that the mode asks for.
ghost use Rattle.std.specs.Prelude.{◌≡◌, pos};
ghost use Rattle.accumulator.specs.Causes.{cause_number};
ghost use Rattle.counter.specs.Parts.{mode_of, up_only};
ghost use Rattle.counter.specs.Sample.{up_flags, down_flags, unmoved, counted_up, counted_down};
ghost use Rattle.counter.specs.Sample.{counted_by, resets, may_count, allowed_count, count, sampled, sample};
ghost use Rattle.counter.specs.Sample.{count_of, sampled_as, sampled_of};
ghost use Rattle.counter.specs.Idle.{idle};

use crate::flag::Flag;
use crate::inputs::{self, Count};
use crate::state::Counter;
use accumulator::cause::Cause;
use word::bits;

/// What an input sample makes of ACC and of the flags, and the cause that it raises, if any.
#[derive(Clone, Copy, Debug, PartialEq, Eq)]
pub struct Sampled {
    pub acc: i32,
    pub flags: u32,
    pub cause: Option<Cause>,
}

/// The flags after a count up: OF past OVF, and MD where a count up alone lands on HIP.
#[tactic(auto, unfolding(crate::specs::Sample::up_flags))]
fn up_flags(single: bool, cause: Option<Cause>, flags: u32) -> u32
    ensures { result ≡ up_flags single (cause_number cause) flags }
{
    let counted = bits::set(flags, Flag::Dir.bit());
    match cause {
        Some(Cause::Overflow) => bits::set(counted, Flag::Of.bit()),
        Some(Cause::HighPreset) if single => bits::set(counted, Flag::Md.bit()),
        _ => counted,
    }
}

/// The flags after a count down: UF past UNF.
#[tactic(auto, unfolding(crate::specs::Sample::down_flags))]
fn down_flags(cause: Option<Cause>, flags: u32) -> u32
    ensures { result ≡ down_flags (cause_number cause) flags }
{
    let counted = bits::clear(flags, Flag::Dir.bit());
    match cause {
        Some(Cause::Underflow) => bits::set(counted, Flag::Uf.bit()),
        _ => counted,
    }
}

/// A reset: ACC 0, and nothing raised.
fn reset(flags: u32) -> Sampled
    ensures { sampled_of result ≡ sampled_as (pos 0) flags 0 }
{
    Sampled {
        acc: 0,
        flags,
        cause: None,
    }
}

// Nearly every event is a sample: what it makes of ACC and the flags is worked out within each loop
// that takes events (`inline`), so that no call is made for it and no state copied.
impl Counter {
    #[inline(always)]
    fn unmoved(&self) -> Sampled
        ensures { sampled_of result ≡ unmoved self.now }
    {
        Sampled {
            acc: self.acc,
            flags: self.flags,
            cause: None,
        }
    }

    #[inline(always)]
    fn counted_up(&self) -> Sampled
        ensures { sampled_of result ≡ counted_up self.now }
    {
        let active = &self.active;
        let single = active.up_only();
        let r = accumulator::up(single, self.acc, active.hip, active.ovf, active.unf);
        Sampled {
            acc: r.acc,
            flags: up_flags(single, r.cause, self.flags),
            cause: r.cause,
        }
    }

    #[inline(always)]
    fn counted_down(&self) -> Sampled
        ensures { sampled_of result ≡ counted_down self.now }
    {
        let active = &self.active;
        let r = accumulator::down(self.acc, active.lop, active.ovf, active.unf);
        Sampled {
            acc: r.acc,
            flags: down_flags(r.cause, self.flags),
            cause: r.cause,
        }
    }

    #[tactic(auto, unfolding(crate::specs::Sample::counted_by))]
    #[inline(always)]
    fn counted_by(&self, way: Option<Count>) -> Sampled
        ensures { sampled_of result ≡ counted_by (count_of way) self.now }
    {
        match way {
            Some(Count::Up) => self.counted_up(),
            Some(Count::Down) => self.counted_down(),
            None => self.unmoved(),
        }
    }

    /// Whether the sample resets: settings are loaded, and the inputs reset in their mode.
    #[tactic(auto, unfolding(crate::specs::Sample::resets))]
    #[inline(always)]
    fn resets(&self, new: u8) -> bool
        ensures { result ≡ resets new self.now }
    {
        self.has(Flag::Loaded) & inputs::reset_by(self.active.mode(), self.levels, new)
    }

    /// Whether the sample may count: CE is 1, and no input inhibits it.
    #[tactic(auto, unfolding(crate::specs::Sample::may_count))]
    #[inline(always)]
    fn may_count(&self, new: u8) -> bool
        ensures { result ≡ may_count new self.now }
    {
        self.has(Flag::Loaded) & (self.has(Flag::Ce) & !inputs::inhibited(self.active.mode(), new))
    }

    /// The count of a sample that does not reset.
    #[inline(always)]
    fn allowed_count(&self, new: u8) -> Option<Count>
        ensures { count_of result ≡ allowed_count new self.now }
    {
        if self.may_count(new) {
            inputs::direction(self.active.mode(), self.levels, new)
        } else {
            None
        }
    }

    /// The count that the sample makes; a reset makes none. Whether it resets is asked once, by the caller.
    #[tactic(auto, unfolding(crate::specs::Sample::count))]
    #[inline(always)]
    fn count(&self, new: u8, reset: bool) -> Option<Count>
        requires { reset ≡ resets new self.now }
        ensures { count_of result ≡ count new self.now }
    {
        if reset { None } else { self.allowed_count(new) }
    }

    /// Whether it is told at once that nothing comes of the sample but its levels: no input
    /// rises, in a mode that goes by rises alone.
    #[tactic(auto, unfolding(crate::specs::Idle::idle, crate::specs::Idle::by_rises))]
    #[inline(always)]
    pub fn is_idle(&self, new: u8) -> bool
        ensures { result ≡ idle new self.now }
    {
        inputs::none_rises(self.levels, new) & self.active.by_rises()
    }

    /// What the sample makes of ACC and the flags.
    #[tactic(auto, unfolding(crate::specs::Sample::sampled))]
    #[inline(always)]
    pub fn sampled(&self, new: u8) -> Sampled
        ensures { sampled_of result ≡ sampled new self.now }
    {
        let resets = self.resets(new);
        let way = self.count(new, resets);
        if resets {
            reset(self.flags)
        } else {
            self.counted_by(way)
        }
    }

    /// Takes an input sample: new levels, ACC and flags, and then the cause.
    pub fn sample(&mut self, new: u8)
        ensures { self.new ≡ sample new self.old }
    {
        let r = self.sampled(new);
        self.levels = new;
        self.acc = r.acc;
        self.flags = r.flags;
        if let Some(cause) = r.cause {
            self.raise(cause);
        }
    }
}
